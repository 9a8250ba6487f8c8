// A term from the words of its line: a coefficient, then the exponents. An exponent that no record
// holds becomes the largest of a record, which is out of range just as well.
ghost use Rattle.std.specs.Prelude.{◌≡◌, slice_index};
ghost use Rattle.runs.specs.Text.{term};
ghost use Rattle.text.specs.Clamped.{clamped_exponent, clamped};

use order::Monomial;
use polynomials::Term;

// 0 past the last word.
fn word_at(words: &[u32], i: usize) -> u32
    ensures { result ≡ slice_index words.now i }
{
    words.get(i).copied().unwrap_or(0)
}

// The largest exponent of a record where the word passes it.
fn clamp(word: u32) -> u8
    ensures { result ≡ clamped_exponent word }
{
    u8::try_from(word).unwrap_or(Monomial::LARGEST)
}

#[tactic(auto, unfolding(order::specs::Monomials::exponent, order::specs::Monomials::monomial))]
pub(crate) fn term_of(words: &[u32]) -> Term
    ensures { (result.coefficient, result.monomial) ≡ clamped (term words.now) }
{
    let monomial = Monomial {
        x1: clamp(word_at(words, 1)),
        x2: clamp(word_at(words, 2)),
        x3: clamp(word_at(words, 3)),
        x4: clamp(word_at(words, 4)),
    };
    Term {
        coefficient: word_at(words, 0),
        monomial,
    }
}
