// Powers of a multiplication matrix: a vector that is put through the step of the tables again and
// again. Of its WIDTH words as many count as the staircase has monomials.
ghost use Rattle.std.specs.Prelude.{◌≡◌, ℕ, ◌<◌, ◌≤◌, OnOk, length};
ghost use Rattle.field.specs.Meaning.{FieldLaws};
ghost use Rattle.order.specs.Monomials.{variables};
ghost use Rattle.algebra.specs.Elements.{Elem};
ghost use Rattle.tables.specs.Holds.{stair_count};
ghost use Rattle.conversion.specs.Powers.{OnlyUnready, width, Stands, map_of, unit, power, measure, Vectors};

use field::Field;
use linear::dot::dot;
use linear::step::Misfit;
use tables::Tables;

// How many words a vector has, of which the first count. As many as the STRIDE of the columns of `tables`, and another thing.
pub(crate) const WIDTH: usize = 48;

// A vector, and room for the next one. Arrays and no lists: how many words count is the tables', and each step writes them all.
#[derive(Drop)]
pub(crate) struct Walk {
    pub(crate) vector: [u32; 48],
    next: [u32; 48],
}

impl Walk {
    pub(crate) fn new() -> Walk {
        Walk {
            vector: [0; 48],
            next: [0; 48],
        }
    }

    // Puts the unit vector of place 0 in the place of the vector.
    pub(crate) fn start<F: Field>(&mut self, field: &F)
        ensures { let m = F.Field.meaning field.now in (laws : FieldLaws m) → Stands m width self.new.vector (unit m laws) }
    {
        self.vector.fill(field.zero());
        self.vector[0] = field.one();
    }
}

// The multiplication matrices of the first `n` variables.
#[derive(Drop)]
pub(crate) struct Matrices<'a, F> {
    pub(crate) field: &'a F,
    pub(crate) tables: &'a Tables,
    pub(crate) n: usize,
    ghost few: { n ≤ variables },
}

// Each step below may be refused, and ten contracts name by which tables: a job's table is what knows that they are ready.
impl<'a, F: Field> Matrices<'a, F> {
    // Puts the matrix of x_k, counted from 0, to the vector.
    pub(crate) fn advance(&self, k: usize, walk: &mut Walk) -> Result<(), Misfit>
        requires { k < self.now.n }
        ensures fits { OnlyUnready self.now.tables.now self.now.n result }
        ensures advanced { let m = F.Field.meaning self.now.field.now in let t = self.now.tables.now in OnOk result ((laws : FieldLaws m) (f : ℕ → Elem m) → Stands m (stair_count t) walk.old.vector f → Stands m (stair_count t) walk.new.vector (map_of m laws t k f)) }
    {
        self.tables
            .step(self.field, k, &walk.vector, &mut walk.next)?;
        walk.vector = walk.next;
        Ok(())
    }
}

// A conversion in x_k, counted from 0, that measures vectors by r.
#[derive(Drop)]
pub(crate) struct Conversion<'a, F> {
    pub(crate) matrices: Matrices<'a, F>,
    pub(crate) k: usize,
    pub(crate) r: &'a [u32],
    ghost within: { k < matrices.n },
    ghost exact: { length r.now ≡ stair_count matrices.tables.now },
}

impl<'a, F: Field> Conversion<'a, F> {
    // The words r . v, r . T v, r . T (T v), .. for the matrix T of x_k and the vector v, into all of
    // `out`.
    pub(crate) fn measure(&self, walk: &mut Walk, out: &mut [u32]) -> Result<(), Misfit>
        ensures fits { OnlyUnready self.now.matrices.tables.now self.now.matrices.n result }
        ensures measured { let m = F.Field.meaning self.now.matrices.field.now in let t = self.now.matrices.tables.now in OnOk result ((laws : FieldLaws m) (f : ℕ → Elem m) → Stands m (stair_count t) walk.old.vector f → Stands m (length out.old) out.new (measure m laws t self.now.k self.now.r.now f)) }
    {
        for word in out.iter_mut() {
            *word = dot(self.matrices.field, self.r, &walk.vector);
            self.matrices.advance(self.k, walk)?;
        }
        Ok(())
    }

    // The powers of the matrix of x_k at the unit vector, as many as there are places, each WIDTH
    // words after the one before, and their products with r; the vector is left at the power after
    // them.
    pub(crate) fn krylov(
        &self,
        walk: &mut Walk,
        vectors: &mut [u32; 2304],
        words: &mut [u32; 96],
    ) -> Result<(), Misfit>
        ensures fits { OnlyUnready self.now.matrices.tables.now self.now.matrices.n result }
        ensures vectors { let m = F.Field.meaning self.now.matrices.field.now in OnOk result ((laws : FieldLaws m) → Vectors m laws self.now.matrices.tables.now self.now.k vectors.new) }
        ensures words { let m = F.Field.meaning self.now.matrices.field.now in let t = self.now.matrices.tables.now in OnOk result ((laws : FieldLaws m) → Stands m (stair_count t) words.new (measure m laws t self.now.k self.now.r.now (unit m laws))) }
        ensures next { let m = F.Field.meaning self.now.matrices.field.now in let t = self.now.matrices.tables.now in OnOk result ((laws : FieldLaws m) → Stands m (stair_count t) walk.new.vector (power m laws t self.now.k (unit m laws) (stair_count t))) }
    {
        let d = self.matrices.tables.size();
        walk.start(self.matrices.field);
        vectors.fill(self.matrices.field.zero());
        // By index: of words that were written through chunks_mut a proof knows only how many they are.
        for j in 0..d {
            vectors[j * WIDTH..j * WIDTH + d].copy_from_slice(&walk.vector[0..d]);
            words[j] = dot(self.matrices.field, self.r, &walk.vector);
            self.matrices.advance(self.k, walk)?;
        }
        Ok(())
    }
}
