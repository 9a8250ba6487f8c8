// Close: the call that works out the tables of a job and closes it.
ghost use Rattle.std.specs.Prelude.{◌≡◌, [], ◌∷◌, OnErr};
ghost use Rattle.runs.specs.Call as call;
ghost use Rattle.job.specs.Parts.{SameFieldAndOrder};
ghost use Rattle.job.specs.Promise.{answer_of, Promised};

use crate::table::asking::take_out;
use crate::{Job, JobFault};
use field::Field;
use order::Order;
use tables::Tables;

impl<F: Field, O: Order> Job<F, O> {
    // Works out staircase and multiplication matrices, closes the job and answers D.
    pub fn close(&mut self) -> Result<usize, JobFault>
        ensures promised { Promised (F.Field.meaning self.old.field) (O.Order.meaning self.old.order) self.old.table call.close (answer_of (λ d. d ∷ []) result) self.new.table }
        ensures refused_as_was { OnErr result (self.new ≡ self.old) }
        ensures same_field_and_order { SameFieldAndOrder self.old self.new }
    {
        self.table.ask_open()?;
        let made = Tables::make_in(
            &mut self.table.tables,
            &self.field,
            &self.order,
            self.table.n,
            &self.table.polynomials,
        );
        if made.is_err() {
            take_out(&mut self.table.tables);
        }
        made
    }
}
