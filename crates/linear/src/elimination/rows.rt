// The loops of the elimination over the words of one row, and what a proof is told of all rows.
ghost use Rattle.std.specs.Prelude.{◌≡◌, ℕ, ◌+◌, ◌<◌, ◌≤◌, length, slice_index, slice_index_or};
ghost use Rattle.linear.specs.Elimination.{pitch, Wide, FirstNonzero};

use field::Field;

// The words of one row.
pub const PITCH: usize = 96;

// Says how wide a row is.
fn tell_width(row: &[u32; PITCH])
    ensures { length row.now ≡ pitch }
{}

// Says so of all rows of a table, and does nothing: a proof is told how long an array is that a
// function is given, and not one in an array or a slice.
pub(super) fn tell_widths(table: &[[u32; PITCH]])
    ensures { Wide (length table.now) table.now }
{
    for row in table {
        tell_width(row);
    }
}

// Writes the vector into the row, and zero into the words after it.
pub(super) fn begin<F: Field>(field: &F, row: &mut [u32], vector: &[u32])
    requires { length vector.now ≤ length row.old }
    ensures { (k : ℕ) → k < length row.old → slice_index row.new k ≡ slice_index_or vector.now k (F.Field.meaning field.now).zero }
{
    let (front, rest) = row.split_at_mut(vector.len());
    front.copy_from_slice(vector);
    rest.fill(field.zero());
}

// The first place, of so many, whose word is not zero.
pub(super) fn first_nonzero<F: Field>(field: &F, row: &[u32], places: usize) -> Option<usize>
    requires { places ≤ length row.now }
    ensures { FirstNonzero (F.Field.meaning field.now) places row.now result }
{
    let zero = field.zero();
    row[..places].iter().position(|word| *word != zero)
}

// Writes `q` times each of the words into the front of the row.
pub(super) fn keep<F: Field>(field: &F, row: &mut [u32; PITCH], words: &[u32], q: u32)
    requires { length words.now ≤ pitch }
    ensures width { length row.new ≡ pitch }
    ensures words { (k : ℕ) → k < length words.now → slice_index row.new k ≡ (F.Field.meaning field.now).mul q (slice_index words.now k) }
{
    let front = &mut row[..words.len()];
    front.copy_from_slice(words);
    for word in front.iter_mut() {
        *word = field.mul(q, *word);
    }
}

// Writes the opposites of the words of a row, from the word `start` on, into all of `out`.
pub(super) fn opposites<F: Field>(field: &F, row: &[u32], start: usize, out: &mut [u32])
    requires { start + length out.old ≤ length row.now }
    ensures { (l : ℕ) → l < length out.old → slice_index out.new l ≡ (F.Field.meaning field.now).neg (slice_index row.now (start + l)) }
{
    out.copy_from_slice(&row[start..start + out.len()]);
    for word in out.iter_mut() {
        *word = field.neg(*word);
    }
}
