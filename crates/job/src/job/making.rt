// The making of a job, and what can be read of it.
ghost use Rattle.std.specs.Prelude.{◌≡◌, ◌≤◌, [], length, Decides, slice_index_or};
ghost use Rattle.field.specs.Meaning.{FieldLaws};
ghost use Rattle.runs.specs.Job as def;
ghost use Rattle.order.specs.Monomials as Monomials;
ghost use Rattle.polynomials.specs.Held.{entries};
ghost use Rattle.job.specs.State.{state, Kept};

use crate::table::Table;
use crate::{Job, Term};
use field::Field;
use order::Order;
use polynomials::Polynomials;

impl<F: Field, O: Order> Job<F, O> {
    // An empty open job of one variable.
    pub fn new(field: F, order: O) -> Job<F, O>
        ensures field { result.field ≡ field }
        ensures order { result.order ≡ order }
        ensures new { state result.table ≡ def.new 1 }
        ensures kept { (laws : FieldLaws (F.Field.meaning field)) → Kept (F.Field.meaning field) laws (O.Order.meaning order) result.table }
    {
        Job {
            field,
            order,
            table: Table::new(1),
        }
    }

    // The number of variables.
    pub fn variables(&self) -> usize
        ensures value { result ≡ (state self.now.table).n }
        ensures few { (1 ≤ result) × (result ≤ Monomials.variables) }
    {
        self.table.n
    }

    // Whether it is open.
    pub fn is_open(&self) -> bool
        ensures { Decides result ((state self.now.table).stage ≡ def.opened) }
    {
        self.table.tables.is_none()
    }

    // Whether it is open and holds no polynomial.
    pub fn is_new(&self) -> bool
        ensures { Decides result (((state self.now.table).stage ≡ def.opened) × ((state self.now.table).polynomials ≡ [])) }
    {
        self.is_open() && self.count() == 0
    }

    // How many polynomials were entered.
    pub fn count(&self) -> usize
        ensures { result ≡ length (state self.now.table).polynomials }
    {
        self.table.polynomials.count()
    }

    // All polynomials that were entered.
    pub fn polynomials(&self) -> &Polynomials
        ensures { result.now ≡ self.now.table.polynomials }
    {
        &self.table.polynomials
    }

    // The polynomial at a place counted from 0; no term past the last.
    pub fn polynomial(&self, i: usize) -> &[Term]
        ensures { result.now ≡ slice_index_or (entries self.now.table.polynomials) i [] }
    {
        self.table.polynomials.polynomial(i)
    }
}
