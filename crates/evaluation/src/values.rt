// The values of the polynomials of a basis text at a point, written as lines.
ghost use Rattle.std.specs.Prelude.{◌≡◌, ◌*◌, ◌≤◌, length, drop};
ghost use Rattle.column.specs.Place.{put};
ghost use Rattle.evaluation.specs.Answer.{values_at, value_lines};
ghost use Rattle.evaluation.specs.Padded.{terms_of};
ghost use Rattle.evaluation.specs.Evaluation.{term_value, value};

use crate::evaluate::term_at;
use crate::terms::{Lines, Terms};
use column::write_line;
use field::Field;

// The value at a point of the terms of a polynomial.
fn value_of_terms<F: Field>(field: &F, terms: Terms<'_>, point: &[u32]) -> u32
    requires { length point.now ≡ terms.n }
    ensures { result ≡ value (F.Field.meaning field.now) terms.entry.n point.now (terms_of terms.entry) }
{
    terms.fold(
        field.zero(),
        |sum, term| -> u32
            requires { length point.now ≤ 4 }
            ensures { result ≡ (F.Field.meaning field.entry.now).add sum (term_value (F.Field.meaning field.entry.now) (length point.entry.now) point.entry.now term) }
        { field.add(sum, term_at(field, point, &term)) },
    )
}

// Writes a line for the value of each of so many polynomials, and answers how many bytes.
pub(crate) fn write_values<F: Field>(
    field: &F,
    basis: Lines<'_>,
    count: u32,
    point: &[u32],
    out: &mut [u8],
) -> usize
    requires few { length point.now ≤ 4 }
    requires room { 12 * count ≤ length out.old }
    ensures bytes { out.new ≡ put out.old 0 (value_lines (values_at (F.Field.meaning field.now) (length point.now) point.now count (drop basis.entry.at basis.entry.text.now))) }
    ensures within { result ≤ length out.old }
    ensures end { result ≡ length (value_lines (values_at (F.Field.meaning field.now) (length point.now) point.now count (drop basis.entry.at basis.entry.text.now))) }
{
    let n = point.len();
    let mut lines = basis;
    let mut end = 0;
    // Over no items, as a fold over the range would be: each polynomial begins in the text where the one before ends.
    for _i in 0..count {
        let left = lines.first(1)[0];
        let first = lines.after(1, 1);
        let value = value_of_terms(
            field,
            Terms {
                lines: first,
                n,
                left,
            },
            point,
        );
        // There is room, so that the place after the line is always answered.
        end = write_line(out, end, &[value]).unwrap_or(end);
        lines = first.after(left, n + 1);
    }
    end
}
