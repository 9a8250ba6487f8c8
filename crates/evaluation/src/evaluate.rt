// The value of a polynomial at a point, in any field. Reads what it is lent, writes nothing.
ghost use Rattle.std.specs.Prelude.{◌≡◌, ◌≤◌, length};
ghost use Rattle.evaluation.specs.Evaluation.{power, term_value};

use field::Field;

// `x` to the power `e`.
fn raised<F: Field>(field: &F, x: u32, e: u32) -> u32
    ensures { result ≡ power (F.Field.meaning field.now) x e }
{
    let mut product = field.one();
    // Over no items, as a fold over the range would be: each turn is one factor more.
    for _i in 0..e {
        product = field.mul(product, x);
    }
    product
}

// The value at `point` of a term: its coefficient, then an exponent for each word of the point.
pub(crate) fn term_at<F: Field>(field: &F, point: &[u32], term: &[u32; 5]) -> u32
    requires { length point.now ≤ 4 }
    ensures { result ≡ term_value (F.Field.meaning field.now) (length point.now) point.now term.now }
{
    point.iter().zip(&term[1..]).fold(
        term[0],
        |product, (x, e)| -> u32
            ensures { result ≡ (F.Field.meaning field.entry.now).mul product (power (F.Field.meaning field.entry.now) x.entry.now e.entry.now) }
        { field.mul(product, raised(field, *x, *e)) },
    )
}
