// Convert of a closed job: the questions from 20 on, then the rows. All that can be refused is done
// before the first word of the output is written.
ghost use Rattle.std.specs.Prelude.{◌≡◌, ◌*◌, List, OnErr, length, take, drop};
ghost use Rattle.field.specs.Meaning.{FieldLaws};
ghost use Rattle.order.specs.Laws.{Comparison, OrderLaws};
ghost use Rattle.runs.specs.Job.{Term};
ghost use Rattle.runs.specs.Sound.{Sound};
ghost use Rattle.tables.specs.Holds.{stair_count, Holds};
ghost use Rattle.conversion.specs.Answer.{closed_job, Converted};

use crate::powers::{Conversion, Matrices};
use crate::questions::ask_vector;
use crate::work::Work;
use field::Field;
use order::Monomial;
use polynomials::JobFault;
use tables::Tables;

// Writes the basis shaped in x_k, counted from 1: for each of n variables a row of as many words as
// the staircase has monomials, at the front of the output.
pub fn convert<F: Field>(
    field: &F,
    tables: &Tables,
    n: usize,
    k: usize,
    r: &[u32],
    out: &mut [u32],
) -> Result<(), JobFault>
    ensures refused_as_was { OnErr result (out.new ≡ out.old) }
    ensures rest_unchanged { drop (n * stair_count tables.now) out.new ≡ drop (n * stair_count tables.now) out.old }
    ensures answered { (laws : FieldLaws (F.Field.meaning field.now)) (cmp : Comparison) (ps : List (List Term)) → OrderLaws cmp → Sound (F.Field.meaning field.now) laws cmp (closed_job n ps) → Holds (F.Field.meaning field.now) laws cmp n ps tables.now → Converted (F.Field.meaning field.now) laws cmp n ps k r.now (length out.old) (take (n * stair_count tables.now) out.new) result }
{
    if n > Monomial::VARIABLES {
        return Err(JobFault::Variables);
    }
    let matrices = Matrices { field, tables, n };
    ask_vector(&matrices, k, r, out.len())?;
    let conversion = Conversion {
        matrices,
        k: k - 1,
        r,
    };
    let mut work = Work::new();
    work.ask_shape(&conversion)?;
    work.ask_rows(&conversion)?;
    work.write(&conversion, out)
}
