// Adding a multiple of words to words, the inner loop of the matrix step and of the recurrence.
ghost use Rattle.std.specs.Prelude.{◌≡◌};
ghost use Rattle.algebra.specs.Elements.{Elems};
ghost use Rattle.linear.specs.Words.{added};

use field::Field;

// Adds `word` times each word of `from` to the one of `to` at its place, over the length that both
// have.
pub fn add_multiple<F: Field>(field: &F, word: u32, from: &[u32], to: &mut [u32])
    ensures sums { to.new ≡ added (F.Field.meaning field.now) word from.now to.old }
    ensures elements { Elems (F.Field.meaning field.now) to.old → Elems (F.Field.meaning field.now) to.new }
{
    // By number: of words that `zip` over `iter_mut` hands out for writing, a proof is told nothing after.
    let both = from.len().min(to.len());
    for (i, x) in from[..both].iter().enumerate() {
        to[i] = field.add(to[i], field.mul(word, *x));
    }
}
