// The two rules of normal forms, a column of words each: a leading monomial has the opposite of the
// rest of its polynomial, any other border monomial a matrix step of a column before it. Writes only
// the words that it is lent.
ghost use Rattle.std.specs.Prelude.{◌≡◌, ◌+◌, ◌*◌, ◌≤◌, ◌↔◌, length, take, drop, MatchOption, IsOk, OnOk, OnErr};
ghost use Rattle.order.specs.Monomials.{variables};
ghost use Rattle.algebra.specs.Records.{nested};
ghost use Rattle.algebra.specs.NormalForm as forms;
ghost use Rattle.algebra.specs.Words.{words};
ghost use Rattle.staircase.specs.Rules.{poly_of, opposite_words, OppositesRule};
ghost use Rattle.staircase.specs.Steps.{StepsReplace, ColumnMore, ColumnsNone, Steppable, ColumnStepped};

use field::Field;
use linear::step::{Matrix, Misfit, Place, step};
use order::Monomial;

// A word times a monomial.
#[derive(Clone, Copy, PartialEq, Eq, Default, Debug)]
pub struct Term {
    pub coefficient: u32,
    pub monomial: Monomial,
}

// The coefficient of `m`: the sum of those of its terms.
fn coefficient_of<F: Field>(field: &F, terms: &[Term], m: Monomial) -> u32
    ensures { result ≡ forms.coefficient (words (F.Field.meaning field.now)) variables (poly_of variables terms.now) (nested variables m) }
{
    let mut sum = field.zero();
    for t in terms.iter().rev() {
        if t.monomial == m {
            sum = field.add(field.mul(t.coefficient, field.one()), sum);
        }
    }
    sum
}

// The normal form of a monomial that leads a polynomial, from the rest of that polynomial, at the
// front of `out`: an error, and nothing is written, where there is no room.
pub fn opposite_column<F: Field>(
    field: &F,
    rest: &[Term],
    stairs: &[Monomial],
    out: &mut [u32],
) -> Result<(), Misfit>
    ensures fits { IsOk result ↔ (length stairs.now ≤ length out.old) }
    ensures refused_as_was { OnErr result (out.new ≡ out.old) }
    ensures column { OnOk result (take (length stairs.now) out.new ≡ opposite_words (F.Field.meaning field.now) rest.now stairs.now) }
    ensures rest_unchanged { drop (length stairs.now) out.new ≡ drop (length stairs.now) out.old }
{
    if out.len() < stairs.len() {
        return Err(Misfit);
    }
    // By index: of words written through `iter_mut().zip(..)` a proof knows nothing.
    for (j, m) in stairs.iter().enumerate() {
        out[j] = field.neg(coefficient_of(field, rest, *m));
    }
    Ok(())
}

// Those words are the normal form that the first rule gives.
pub fn opposites_are_normal_forms() -> u8
    ensures { OppositesRule }
{
    0
}

// Where the column at place `c` begins, if its `d` words lie within `room` words.
fn column_start(c: usize, d: usize, room: usize, stride: usize) -> Option<usize>
    ensures { MatchOption result (c * stride + d ≤ room → ⊥) (λ s. (s ≡ c * stride) × (c * stride + d ≤ room)) }
{
    let start = c.checked_mul(stride)?;
    let left = room.checked_sub(start)?;
    (d <= left).then_some(start)
}

// The column at place `to` by the second rule: the matrix of a variable, whose products stand at
// `places`, times the column at place `from`. `out` is room to work in; an error, and no column is
// written, where something does not fit.
// `d` beside the lists, as in `step`; no `Matrix`, which lends its columns to be read, as these are written.
pub fn next_column<F: Field>(
    field: &F,
    d: usize,
    places: &[Place],
    columns: &mut [u32],
    stride: usize,
    from: usize,
    to: usize,
    out: &mut [u32],
) -> Result<(), Misfit>
    ensures fits { IsOk result ↔ Steppable d places.now (length columns.old) stride from to (length out.old) }
    ensures refused_as_was { OnErr result (columns.new ≡ columns.old) }
    ensures others_unchanged { (take (to * stride) columns.new ≡ take (to * stride) columns.old) × (drop (to * stride + d) columns.new ≡ drop (to * stride + d) columns.old) }
    ensures stepped { OnOk result (ColumnStepped (F.Field.meaning field.now) d places.now columns.old stride from to columns.new) }
{
    let start = column_start(from, d, columns.len(), stride).ok_or(Misfit)?;
    let at = column_start(to, d, columns.len(), stride).ok_or(Misfit)?;
    let held = &columns[..];
    let matrix = Matrix {
        places,
        columns: held,
        stride,
    };
    step(field, d, matrix, &held[start..start + d], out)?;
    columns[at..at + d].copy_from_slice(&out[..d]);
    Ok(())
}

// The matrix step of linear algebra is the second rule, where the columns hold the table so far; and a
// column more holds one monomial more, from columns of zeros on.
pub fn steps_are_normal_forms() -> u8
    ensures replaced { StepsReplace }
    ensures column_more { ColumnMore }
    ensures columns_none { ColumnsNone }
{
    0
}
