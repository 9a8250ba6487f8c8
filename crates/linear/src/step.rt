// The matrix step: a multiplication matrix, held as places and border columns, times a vector. The
// matrix is never stored dense: what lies in the staircase is added without a product, and zero
// words are skipped.
ghost use Rattle.std.specs.Prelude.{◌≡◌, ℕ, ◌<◌, T, ◌↔◌, length, take, drop, IsOk, OnOk, OnErr, slice_index, slice_index_or};
ghost use Rattle.algebra.specs.Elements.{Elems};
ghost use Rattle.linear.specs.Step.{Within, Fits, entry, product_words, Stepped};
ghost use Rattle.linear.specs.declared.step.Place.TheVariants.{Stair};

use crate::multiple::add_multiple;
use field::Field;

// Where the product of a variable and a staircase monomial stands: at a place of the staircase, or
// in the border, whose columns come one after the other.
#[derive(Clone, Copy, PartialEq, Eq, Debug)]
pub enum Place {
    Stair(u8),
    Border(u8),
}

// A multiplication matrix, held as places and border columns: column c of the border begins at the
// word c * stride.
#[derive(Clone, Copy)]
pub struct Matrix<'a> {
    pub places: &'a [Place],
    pub columns: &'a [u32],
    pub stride: usize,
}

// What was lent does not fit: words or places are missing, or a place lies outside.
#[derive(Clone, Copy, PartialEq, Eq, Debug)]
pub struct Misfit;

impl Place {
    // Whether it is one of `d` places of the staircase, or has `d` words in columns of `room` words.
    fn is_within(self, d: usize, room: usize, stride: usize) -> bool
        ensures { T result ↔ Within d room stride self }
    {
        match self {
            Place::Stair(p) => usize::from(p) < d,
            Place::Border(c) => usize::from(c)
                .checked_mul(stride)
                .is_some_and(|start| start <= room && d <= room - start),
        }
    }
}

impl Matrix<'_> {
    // Whether there are `d` places, each within, `d` words to read and `d` rows to write.
    fn fits(self, d: usize, words: usize, rows: usize) -> bool
        ensures { T result ↔ Fits d self.entry.places.now (length self.entry.columns.now) self.entry.stride words rows }
    {
        d <= self.places.len()
            && d <= words
            && d <= rows
            && self.places[..d].iter().all(|place| place.is_within(
                d,
                self.columns.len(),
                self.stride,
            ))
    }
}

// Adds `word` times the column at `place`: nothing where the word is zero, the word itself where the
// column is a unit vector.
fn add_column<F: Field>(field: &F, word: u32, place: Place, matrix: Matrix, out: &mut [u32])
    requires { Within (length out.old) (length matrix.columns.now) matrix.stride place }
    ensures { T ((F.Field.meaning field.now).elem word) → Elems (F.Field.meaning field.now) out.old → (j : ℕ) → j < length out.old → slice_index out.new j ≡ (F.Field.meaning field.now).add (slice_index out.old j) ((F.Field.meaning field.now).mul (entry (F.Field.meaning field.now) matrix.entry.columns.now matrix.entry.stride place j) word) }
{
    if word == field.zero() {
        return;
    }
    match place {
        Place::Stair(p) => {
            let p = usize::from(p);
            out[p] = field.add(out[p], word);
        }
        Place::Border(c) => {
            let start = usize::from(c) * matrix.stride;
            add_multiple(field, word, &matrix.columns[start..start + out.len()], out);
        }
    }
}

// The matrix, of as many places as there are words, times those words.
fn fill_product<F: Field>(field: &F, matrix: Matrix, v: &[u32], out: &mut [u32])
    requires words { length v.now ≡ length matrix.places.now }
    requires rows { length out.old ≡ length matrix.places.now }
    requires within { (i : ℕ) → i < length matrix.places.now → Within (length matrix.places.now) (length matrix.columns.now) matrix.stride (slice_index_or matrix.places.now i (Stair 0)) }
    ensures { Elems (F.Field.meaning field.now) v.now → out.new ≡ product_words (F.Field.meaning field.now) (length matrix.entry.places.now) matrix.entry.places.now matrix.entry.columns.now matrix.entry.stride v.now }
{
    out.fill(field.zero());
    for (place, word) in matrix.places.iter().zip(v) {
        add_column(field, *word, *place, matrix, out);
    }
}

// The matrix of the first `d` places times the first `d` words of `v`, written over the first `d` of
// `out`; column c of the border has the words `columns[c * stride..c * stride + d]` of the matrix.
// Refuses where words or places are missing, or a place lies outside.
// `d` beside the lists, which a caller lends whole: that they have so many is what is asked here.
pub fn step<F: Field>(
    field: &F,
    d: usize,
    matrix: Matrix,
    v: &[u32],
    out: &mut [u32],
) -> Result<(), Misfit>
    ensures fits { IsOk result ↔ Fits d matrix.entry.places.now (length matrix.entry.columns.now) matrix.entry.stride (length v.now) (length out.old) }
    ensures refused_as_was { OnErr result (out.new ≡ out.old) }
    ensures rest_unchanged { drop d out.new ≡ drop d out.old }
    ensures stepped { OnOk result (Elems (F.Field.meaning field.now) (take d v.now) → Stepped (F.Field.meaning field.now) d matrix.entry.places.now matrix.entry.columns.now matrix.entry.stride v.now out.new) }
{
    if !matrix.fits(d, v.len(), out.len()) {
        return Err(Misfit);
    }
    let square = Matrix {
        places: &matrix.places[..d],
        ..matrix
    };
    fill_product(field, square, &v[..d], &mut out[..d]);
    Ok(())
}
