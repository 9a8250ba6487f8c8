// A basis in its text: the questions of its polynomials, in their order.
ghost use Rattle.std.specs.Prelude.{◌≡◌, Some, MatchResult};
ghost use Rattle.column.specs.Walk.{left};
ghost use Rattle.evaluation.specs.Padded.{terms_of};
ghost use Rattle.evaluation.specs.Answer.{asks_terms, asks_polynomial, asks_polynomials};
ghost use Rattle.evaluation.specs.Steps.{PolynomialPassed, PolynomialsPassed, refusal_of};

use crate::fault::ProbeFault;
use crate::questions::{first_bad_coefficient, first_bad_exponent};
use crate::reading::Reader;
use crate::terms::Terms;
use field::Field;

// Asks the terms of a polynomial whose count stands in the line `line`.
fn ask_terms<F: Field>(field: &F, terms: Terms<'_>, line: u32) -> Result<(), ProbeFault>
    ensures { refusal_of result ≡ asks_terms (F.Field.meaning field.now) terms.entry.n (terms_of terms.entry) line }
{
    // `as`, here and below: there is no From<usize> for u32, and terms are counted by a u32.
    // An `if let`, since what is found is refused: no method of Option makes an error of Some.
    if let Some(term) = first_bad_coefficient(field, terms) {
        return Err(ProbeFault::Coefficient(line, term as u32 + 1));
    }
    if let Some(term) = first_bad_exponent(terms) {
        return Err(ProbeFault::Exponent(line, term as u32 + 1));
    }
    Ok(())
}

// Asks the polynomial here and answers the place after it.
fn ask_polynomial<'a, F: Field>(field: &F, reader: Reader<'a>) -> Result<Reader<'a>, ProbeFault>
    ensures asked { MatchResult result
        (λ q. (q.n ≡ reader.entry.n) × PolynomialPassed (F.Field.meaning field.now) reader.entry.n reader.entry.here q.here)
        (λ e. asks_polynomial (F.Field.meaning field.now) reader.entry.n (left reader.entry.here) reader.entry.here.place.line ≡ Some e) }
{
    let mut words = [0u32; 1];
    let first = reader.read(&mut words)?;
    let [count] = words;
    if count == 0 {
        return Err(ProbeFault::NoTerm(reader.line()));
    }
    let end = first.pass_terms(count)?;
    let terms = Terms {
        lines: first.lines(),
        n: first.n,
        left: count,
    };
    ask_terms(field, terms, reader.line())?;
    Ok(end)
}

// Asks so many polynomials from here on and answers the place after them.
pub(crate) fn ask_polynomials<'a, F: Field>(
    field: &F,
    reader: Reader<'a>,
    count: u32,
) -> Result<Reader<'a>, ProbeFault>
    ensures asked { MatchResult result
        (λ q. (q.n ≡ reader.entry.n) × PolynomialsPassed (F.Field.meaning field.now) reader.entry.n count reader.entry.here q.here)
        (λ e. asks_polynomials (F.Field.meaning field.now) reader.entry.n count (left reader.entry.here) reader.entry.here.place.line ≡ Some e) }
{
    let mut here = reader;
    // Over no items, as a fold over the range would be: each polynomial begins in the text where the one before ends.
    for _i in 0..count {
        here = ask_polynomial(field, here)?;
    }
    Ok(here)
}
