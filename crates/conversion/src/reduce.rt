// Reduce of a closed job: question 23, then the words of the combination of the staircase that a
// polynomial is congruent to. Nothing is written into the output before all of them stand.
ghost use Rattle.std.specs.Prelude.{◌≡◌, List, OnErr, length, take, drop};
ghost use Rattle.field.specs.Meaning.{FieldLaws};
ghost use Rattle.order.specs.Laws.{Comparison, OrderLaws};
ghost use Rattle.runs.specs.Job as job;
ghost use Rattle.runs.specs.Sound.{Sound};
ghost use Rattle.polynomials.specs.Held.{terms_of};
ghost use Rattle.tables.specs.Holds.{stair_count, Holds};
ghost use Rattle.conversion.specs.Answer.{closed_job, Reduces};

use crate::powers::Matrices;
use field::Field;
use order::Monomial;
use polynomials::{JobFault, Term};
use tables::Tables;

// Writes the combination of staircase monomials that the polynomial in n variables is congruent to, a
// word for each of them, at the front of the output.
pub fn reduce<F: Field>(
    field: &F,
    tables: &Tables,
    n: usize,
    terms: &[Term],
    out: &mut [u32],
) -> Result<(), JobFault>
    ensures refused_as_was { OnErr result (out.new ≡ out.old) }
    ensures rest_unchanged { drop (stair_count tables.now) out.new ≡ drop (stair_count tables.now) out.old }
    ensures answered { (laws : FieldLaws (F.Field.meaning field.now)) (cmp : Comparison) (ps : List (List job.Term)) → OrderLaws cmp → Sound (F.Field.meaning field.now) laws cmp (closed_job n ps) → Holds (F.Field.meaning field.now) laws cmp n ps tables.now → Reduces (F.Field.meaning field.now) laws cmp n ps (terms_of terms.now) (length out.old) (take (stair_count tables.now) out.new) result }
{
    let d = tables.size();
    if out.len() < d {
        return Err(JobFault::ShortOutput);
    }
    if n > Monomial::VARIABLES {
        return Err(JobFault::Variables);
    }
    let value = Matrices { field, tables, n }.evaluate(terms)?;
    out[..d].copy_from_slice(&value[..d]);
    Ok(())
}
