// What a conversion works in, and its phases: each leaves the words that the next one reads. Only the
// last writes into the output, once nothing more can be refused. Tables without the steps of n
// variables are none of a closed job.
ghost use Rattle.std.specs.Prelude.{◌≡◌, ◌*◌, ◌≤◌, OnOk, OnErr, length, drop};
ghost use Rattle.field.specs.Meaning.{FieldLaws};
ghost use Rattle.algebra.specs.Vector.{Independent};
ghost use Rattle.algebra.specs.Elements.{field_of};
ghost use Rattle.linear.specs.Hankel.{hankel};
ghost use Rattle.tables.specs.Holds.{stair_count, Ready};
ghost use Rattle.conversion.specs.Powers.{OnlyUnready, unit, measure};
ghost use Rattle.conversion.specs.Phases.{Half, Whole, ShapeAsked, RowsAsked, RowsWritten};

use crate::powers::{Conversion, Walk};
use crate::questions::{ask_independent, ask_length};
use field::Field;
use linear::elimination::Echelon;
use linear::step::Misfit;
use polynomials::JobFault;

#[derive(Drop)]
pub(crate) struct Work {
    walk: Walk,
    // Flat, a vector every WIDTH words, as elimination takes a family: rows would be flattened to be lent.
    vectors: [u32; 2304],
    sequence: [u32; 96],
    echelon: Echelon<48>,
    // Three arrays and not one of rows: the recurrence of linear is lent each by its own meaning.
    connection: [u32; 97],
    previous: [u32; 97],
    spare: [u32; 97],
}

impl<'a, F: Field> Conversion<'a, F> {
    // The second half of the sequence, after the first, of which the vector is the power that comes
    // next.
    fn measure_on(&self, walk: &mut Walk, sequence: &mut [u32; 96]) -> Result<(), Misfit>
        ensures fits { OnlyUnready self.now.matrices.tables.now self.now.matrices.n result }
        ensures measured { let m = F.Field.meaning self.now.matrices.field.now in let t = self.now.matrices.tables.now in OnOk result ((laws : FieldLaws m) → Half m laws t self.now.k self.now.r.now sequence.old walk.old.vector → Whole m laws t self.now.k self.now.r.now sequence.new) }
    {
        let d = self.matrices.tables.size();
        self.measure(walk, &mut sequence[d..d + d])
    }
}

impl Work {
    pub(crate) fn new() -> Work {
        Work {
            walk: Walk::new(),
            vectors: [0; 2304],
            sequence: [0; 96],
            echelon: Echelon::new(),
            connection: [0; 97],
            previous: [0; 97],
            spare: [0; 97],
        }
    }

    // 24.
    pub(crate) fn ask_shape<F: Field>(&mut self, by: &Conversion<F>) -> Result<(), JobFault>
        ensures { let m = F.Field.meaning by.now.matrices.field.now in (laws : FieldLaws m) → ShapeAsked m laws by.now.matrices.tables.now by.now.k by.now.r.now by.now.matrices.n self.new.sequence self.new.walk.vector result }
    {
        by.krylov(&mut self.walk, &mut self.vectors, &mut self.sequence)?;
        ask_independent(by, &self.vectors, &mut self.echelon)
    }

    // 25, after 24.
    pub(crate) fn ask_rows<F: Field>(&mut self, by: &Conversion<F>) -> Result<(), JobFault>
        ensures { let m = F.Field.meaning by.now.matrices.field.now in let t = by.now.matrices.tables.now in (laws : FieldLaws m) → Half m laws t by.now.k by.now.r.now self.old.sequence self.old.walk.vector → RowsAsked m laws t by.now.k by.now.r.now by.now.matrices.n self.new.sequence self.new.connection result }
    {
        by.measure_on(&mut self.walk, &mut self.sequence)?;
        ask_length(
            &by.matrices,
            &self.sequence,
            &mut self.connection,
            &mut self.previous,
            &mut self.spare,
        )
    }

    // The rows of all variables, after 25.
    pub(crate) fn write<F: Field>(
        &mut self,
        by: &Conversion<F>,
        out: &mut [u32],
    ) -> Result<(), JobFault>
        requires { by.now.matrices.n * stair_count by.now.matrices.tables.now ≤ length out.old }
        ensures refused_as_was { OnErr result (out.new ≡ out.old) }
        ensures rest_unchanged { let size = by.now.matrices.n * stair_count by.now.matrices.tables.now in drop size out.new ≡ drop size out.old }
        ensures rows { let m = F.Field.meaning by.now.matrices.field.now in let t = by.now.matrices.tables.now in (laws : FieldLaws m) → Ready t by.now.matrices.n → Whole m laws t by.now.k by.now.r.now self.old.sequence → Independent (field_of m laws) (stair_count t) (stair_count t) (hankel (field_of m laws) (measure m laws t by.now.k by.now.r.now (unit m laws))) → RowsWritten m laws t by.now.k by.now.r.now by.now.matrices.n self.old.connection out.new result }
    {
        let sides = by.right_sides(&mut self.walk)?;
        by.take_table(&self.sequence, &mut self.echelon);
        by.write_rows(&self.connection, &sides, &self.echelon, out);
        Ok(())
    }
}
