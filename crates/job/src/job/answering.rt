// Convert, Reduce and Stair: the calls to a closed job. They only read the job.
ghost use Rattle.std.specs.Prelude.{◌≡◌, ◌*◌, length, take, drop, OnErr};
ghost use Rattle.field.specs.Meaning.{FieldLaws};
ghost use Rattle.runs.specs.Call as call;
ghost use Rattle.polynomials.specs.Held.{terms_of};
ghost use Rattle.job.specs.State.{stairs_held, state, Kept};
ghost use Rattle.job.specs.Promise.{answer_of, Promised, stair_of};

use crate::{Job, JobFault, Term};
use conversion::convert::convert;
use conversion::reduce::reduce;
use field::Field;
use order::{Monomial, Order};
use polynomials::questions::{ask_elements, ask_exponents};

impl<F: Field, O: Order> Job<F, O> {
    // Writes the basis shaped in x_k, counted from 1, from the sequence that the vector `r` measures:
    // a row of D words for each variable, one after the other. Words after them stay.
    pub fn convert(&self, k: usize, r: &[u32], out: &mut [u32]) -> Result<(), JobFault>
        ensures promised { Promised (F.Field.meaning self.now.field) (O.Order.meaning self.now.order) self.now.table (call.convert k r.now (length out.old)) (answer_of (λ _. take (self.now.table.n * stairs_held self.now.table.tables) out.new) result) self.now.table }
        ensures refused_as_was { OnErr result (out.new ≡ out.old) }
        ensures rest_unchanged { drop (self.now.table.n * stairs_held self.now.table.tables) out.new ≡ drop (self.now.table.n * stairs_held self.now.table.tables) out.old }
    {
        let tables = self.table.ask_closed()?;
        convert(&self.field, tables, self.table.n, k, r, out)
    }

    // Writes the combination of staircase monomials that the polynomial is congruent to: D words.
    // Words after them stay. Terms come in any order, repeats and zeros allowed.
    pub fn reduce(&self, terms: &[Term], out: &mut [u32]) -> Result<(), JobFault>
        ensures promised { Promised (F.Field.meaning self.now.field) (O.Order.meaning self.now.order) self.now.table (call.reduce (terms_of terms.now) (length out.old)) (answer_of (λ _. take (stairs_held self.now.table.tables) out.new) result) self.now.table }
        ensures refused_as_was { OnErr result (out.new ≡ out.old) }
        ensures rest_unchanged { drop (stairs_held self.now.table.tables) out.new ≡ drop (stairs_held self.now.table.tables) out.old }
    {
        let tables = self.table.ask_closed()?;
        ask_elements(&self.field, terms)?;
        ask_exponents(self.table.n, terms)?;
        reduce(&self.field, tables, self.table.n, terms, out)
    }

    // The staircase monomial at a place from 1 to D of a closed job.
    pub fn stair(&self, place: usize) -> Option<Monomial>
        ensures { (laws : FieldLaws (F.Field.meaning self.now.field)) → Kept (F.Field.meaning self.now.field) laws (O.Order.meaning self.now.order) self.now.table → result ≡ stair_of (F.Field.meaning self.now.field) laws (O.Order.meaning self.now.order) (state self.now.table) place (state self.now.table).stage }
    {
        let tables = self.table.tables.as_ref()?;
        tables.stair(place.checked_sub(1)?)
    }
}
