// Open and Enter: the calls that put something into a job.
ghost use Rattle.std.specs.Prelude.{◌≡◌, ℕ, [], ◌∷◌, length, OnOk, Ok, Err};
ghost use Rattle.polynomials.specs.Held.{terms_of};
ghost use Rattle.polynomials.specs.Asked.{Asked};
ghost use Rattle.runs.specs.Call as call;
ghost use Rattle.runs.specs.Enter.{room_asks, enter_asks};
ghost use Rattle.field.specs.Meaning.{FieldLaws};
ghost use Rattle.runs.specs.Job as def;
ghost use Rattle.runs.specs.Run.{open_asks};
ghost use Rattle.job.specs.Parts.{SameFieldAndOrder};
ghost use Rattle.job.specs.State.{state, Kept};
ghost use Rattle.job.specs.Promise.{answer_of, Promised};

use crate::table::asking::take_out;
use crate::{Job, JobFault, Term};
use field::Field;
use order::{Monomial, Order};
use polynomials::questions::ask_terms;

impl<F: Field, O: Order> Job<F, O> {
    // Makes the job a new open one of n variables. Its field and its order stay.
    pub fn open(&mut self, n: usize) -> Result<(), JobFault>
        ensures asked { Asked 0 (open_asks n) result }
        ensures opened { elim result [ Ok _ ↦ state self.new.table ≡ def.new n | Err _ ↦ self.new ≡ self.old ] }
        ensures kept { OnOk result ((laws : FieldLaws (F.Field.meaning self.old.field)) → Kept (F.Field.meaning self.old.field) laws (O.Order.meaning self.old.order) self.new.table) }
        ensures same_field_and_order { SameFieldAndOrder self.old self.new }
    {
        if !(1..=Monomial::VARIABLES).contains(&n) {
            return Err(JobFault::Variables);
        }
        self.table.n = n;
        self.clear();
        Ok(())
    }

    // Takes all polynomials out: a new open job of as many variables.
    pub fn clear(&mut self)
        ensures cleared { state self.new.table ≡ def.new (state self.old.table).n }
        ensures kept { (laws : FieldLaws (F.Field.meaning self.old.field)) → Kept (F.Field.meaning self.old.field) laws (O.Order.meaning self.old.order) self.new.table }
        ensures same_field_and_order { SameFieldAndOrder self.old self.new }
    {
        self.table.polynomials.clear();
        take_out(&mut self.table.tables);
    }

    // Whether there is room for one more polynomial of so many terms.
    pub fn ask_room(&self, terms: usize) -> Result<(), JobFault>
        ensures { (line : ℕ) → Asked line (room_asks line (state self.now.table) terms) result }
    {
        self.table.polynomials.ask_room(terms)
    }

    // The questions of Enter, one after the other.
    fn ask_enter(&self, terms: &[Term]) -> Result<(), JobFault>
        ensures { Asked 0 (enter_asks (F.Field.meaning self.now.field) (O.Order.meaning self.now.order) (state self.now.table) (terms_of terms.now)) result }
    {
        self.table.ask_open()?;
        self.table.polynomials.ask_room(terms.len())?;
        ask_terms(&self.field, &self.order, self.table.n, terms)
    }

    // Adds one polynomial.
    pub fn enter(&mut self, terms: &[Term]) -> Result<(), JobFault>
        ensures asked { Asked 0 (enter_asks (F.Field.meaning self.old.field) (O.Order.meaning self.old.order) (state self.old.table) (terms_of terms.now)) result }
        ensures entered { elim result [ Ok _ ↦ state self.new.table ≡ def.holding (state self.old.table) (terms_of terms.now ∷ []) | Err _ ↦ self.new ≡ self.old ] }
        ensures promised { Promised (F.Field.meaning self.old.field) (O.Order.meaning self.old.order) self.old.table (call.enter (terms_of terms.now)) (answer_of (λ _. []) result) self.new.table }
        ensures same_field_and_order { SameFieldAndOrder self.old self.new }
    {
        self.ask_enter(terms)?;
        self.table.polynomials.push(terms).unwrap();
        Ok(())
    }
}
