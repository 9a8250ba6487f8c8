// The agreement of the multiplication matrices: any two of them commute, found column by column. Only
// reads.
ghost use Rattle.std.specs.Prelude.{◌<◌, ◌≤◌, T, ◌↔◌, List, IsOkAnd};
ghost use Rattle.field.specs.Meaning.{FieldLaws};
ghost use Rattle.order.specs.Monomials.{variables};
ghost use Rattle.order.specs.Laws.{Comparison};
ghost use Rattle.algebra.specs.Elements.{field_of};
ghost use Rattle.algebra.specs.Records.{before_by};
ghost use Rattle.algebra.specs.Matrices.{Agree};
ghost use Rattle.runs.specs.Job.{Term as JobTerm};
ghost use Rattle.runs.specs.Generators.{generators};
ghost use Rattle.tables.specs.Holds.{stair_count, Holds};
ghost use Rattle.tables.specs.Agreeing.{StepsFit, ProductColumn, DecidesCommuteAt, DecidesCommute, DecidesCommuteBefore};

use crate::Tables;
use field::Field;
use linear::step::Misfit;

impl Tables {
    // Column `i` of the product of the matrices of x_k and x_l, both counted from 0.
    fn product_column<F: Field>(
        &self,
        field: &F,
        k: usize,
        l: usize,
        i: usize,
    ) -> Result<[u32; 48], Misfit>
        requires { i < 48 }
        ensures { ProductColumn (F.Field.meaning field.now) self.now k l i result }
    {
        let mut unit = [field.zero(); 48];
        unit[i] = field.one();
        let mut between = [0; 48];
        self.step(field, l, &unit, &mut between)?;
        let mut out = [0; 48];
        self.step(field, k, &between, &mut out)?;
        Ok(out)
    }

    // Whether column `i` of the product of the matrices of x_k and x_l is the same in both orders.
    fn commute_at<F: Field>(&self, field: &F, k: usize, l: usize, i: usize) -> Result<bool, Misfit>
        requires { i < stair_count self.now }
        ensures { StepsFit self.now k l → IsOkAnd result (DecidesCommuteAt (F.Field.meaning field.now) self.now k l i) }
    {
        let d = self.size();
        let ahead = self.product_column(field, k, l, i)?;
        let back = self.product_column(field, l, k, i)?;
        Ok(ahead[..d] == back[..d])
    }

    // Whether the matrices of x_k and x_l commute.
    fn commute<F: Field>(&self, field: &F, k: usize, l: usize) -> bool
        ensures { DecidesCommute (F.Field.meaning field.now) self.now k l result }
    {
        (0..self.size()).all(|i| self.commute_at(field, k, l, i).unwrap_or(false))
    }

    // Whether the matrix of x_l commutes with that of each variable before it.
    fn commute_before<F: Field>(&self, field: &F, l: usize) -> bool
        ensures { DecidesCommuteBefore (F.Field.meaning field.now) self.now l result }
    {
        (0..l).all(|k| self.commute(field, k, l))
    }

    // Whether the matrices of the first `n` variables agree: any two of them commute.
    pub(crate) fn agree<F: Field>(&self, field: &F, n: usize) -> bool
        ensures { (laws : FieldLaws (F.Field.meaning field.now)) (cmp : Comparison) (ps : List (List JobTerm)) → n ≤ variables → Holds (F.Field.meaning field.now) laws cmp n ps self.now → T result ↔ Agree (field_of (F.Field.meaning field.now) laws) n (before_by cmp n) (generators (F.Field.meaning field.now) laws n ps) }
    {
        (0..n).all(|l| self.commute_before(field, l))
    }
}
