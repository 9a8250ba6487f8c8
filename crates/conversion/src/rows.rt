// The rows that Convert writes: the right-hand sides, the table of the sequence, and the row of each
// variable into its own part of the output.
ghost use Rattle.std.specs.Prelude.{◌≡◌, ℕ, ◌+◌, ◌-◌, ◌*◌, ◌<◌, ◌≤◌, ◌≢◌, [], IfOk, length, take, drop, slice_index, slice_index_or};
ghost use Rattle.field.specs.Meaning.{FieldLaws};
ghost use Rattle.algebra.specs.Vector.{Independent};
ghost use Rattle.algebra.specs.Elements.{Elem, field_of};
ghost use Rattle.linear.specs.Hankel.{hankel};
ghost use Rattle.linear.specs.Elimination as elimination;
ghost use Rattle.tables.specs.Holds.{stair_count};
ghost use Rattle.conversion.specs.Powers.{OnlyUnready, width, Stands, map_of, unit, measure};
ghost use Rattle.conversion.specs.Rows.{Row};

use crate::powers::{Conversion, Walk};
use field::Field;
use linear::elimination::{Echelon, Family};
use linear::step::Misfit;

// The first words of the polynomial after its word 0, backwards, into all of `out`.
fn put_backwards(polynomial: &[u32], out: &mut [u32])
    requires { length out.old < length polynomial.now }
    ensures { (l : ℕ) → l < length out.old → slice_index out.new l ≡ slice_index polynomial.now (length out.old - l) }
{
    let d = out.len();
    out.copy_from_slice(&polynomial[1..d + 1]);
    out.reverse();
}

impl<'a, F: Field> Conversion<'a, F> {
    // The words r . T_k^j T_i e, as many as there are places; zeros for x_k itself, whose row needs none.
    fn right_side(&self, i: usize, walk: &mut Walk) -> Result<[u32; 48], Misfit>
        requires { i < self.now.matrices.n }
        ensures fits { OnlyUnready self.now.matrices.tables.now self.now.matrices.n result }
        ensures measured { let m = F.Field.meaning self.now.matrices.field.now in let t = self.now.matrices.tables.now in IfOk result (λ side. (laws : FieldLaws m) → i ≢ self.now.k → Stands m (stair_count t) side (measure m laws t self.now.k self.now.r.now (map_of m laws t i (unit m laws)))) }
    {
        let mut side = [0; 48];
        if i == self.k {
            return Ok(side);
        }
        walk.start(self.matrices.field);
        self.matrices.advance(i, walk)?;
        self.measure(walk, &mut side[..self.matrices.tables.size()])?;
        Ok(side)
    }

    // Those of each variable, by its index.
    pub(crate) fn right_sides(&self, walk: &mut Walk) -> Result<[[u32; 48]; 4], Misfit>
        ensures fits { OnlyUnready self.now.matrices.tables.now self.now.matrices.n result }
        ensures measured { let m = F.Field.meaning self.now.matrices.field.now in let t = self.now.matrices.tables.now in IfOk result (λ sides. (laws : FieldLaws m) (i : ℕ) → i < self.now.matrices.n → i ≢ self.now.k → Stands m (stair_count t) (slice_index_or sides i []) (measure m laws t self.now.k self.now.r.now (map_of m laws t i (unit m laws)))) }
    {
        // Four, however many the variables are: memory is fixed, and those past the last are never read.
        let mut sides = [[0; 48]; 4];
        // By number: a variable has no other name.
        for i in 0..self.matrices.n {
            sides[i] = self.right_side(i, walk)?;
        }
        Ok(sides)
    }

    // Takes the rows of the table s_(i+j), i and j below the size of the staircase, for `solve`: all of
    // them, where they are independent.
    pub(crate) fn take_table(&self, sequence: &[u32; 96], echelon: &mut Echelon<48>)
        ensures { let m = F.Field.meaning self.now.matrices.field.now in let d = stair_count self.now.matrices.tables.now in (laws : FieldLaws m) (s : ℕ → Elem m) → Stands m (d + d) sequence.now s → Independent (field_of m laws) d d (hankel (field_of m laws) s) → elimination.Table m laws d d (elimination.rows m laws 1 (take (d + d) sequence.now)) echelon.new.rows echelon.new.pivots }
    {
        let d = self.matrices.tables.size();
        let family = Family {
            words: &sequence[0..d + d],
            stride: 1,
            places: d,
            count: d,
        };
        let _ = echelon.eliminate(self.matrices.field, family);
    }

    // The row of x_i into all of `out`: where i is k the monic recurrence, elsewhere the solution for
    // its right-hand side, which a table of as many independent rows as places always has.
    fn write_row(
        &self,
        i: usize,
        connection: &[u32; 97],
        side: &[u32; 48],
        echelon: &Echelon<48>,
        out: &mut [u32],
    )
        requires { length out.old ≤ width }
        ensures { let m = F.Field.meaning self.now.matrices.field.now in let d = length out.old in (laws : FieldLaws m) (v : ℕ → ℕ → Elem m) (b : ℕ → Elem m) → elimination.Table m laws d d v echelon.now.rows echelon.now.pivots → (i ≢ self.now.k → Stands m d side.now b) → Row m laws d v connection.now b i self.now.k (λ l. slice_index out.new l) }
    {
        if i == self.k {
            put_backwards(connection, out);
            return;
        }
        let side = &side[..out.len()];
        let _ = echelon.solve(self.matrices.field, side, out);
    }

    // The rows of all variables, one after the other.
    pub(crate) fn write_rows(
        &self,
        connection: &[u32; 97],
        sides: &[[u32; 48]; 4],
        echelon: &Echelon<48>,
        out: &mut [u32],
    )
        requires { self.now.matrices.n * stair_count self.now.matrices.tables.now ≤ length out.old }
        ensures rest_unchanged { let size = self.now.matrices.n * stair_count self.now.matrices.tables.now in drop size out.new ≡ drop size out.old }
        ensures rows { let m = F.Field.meaning self.now.matrices.field.now in let d = stair_count self.now.matrices.tables.now in (laws : FieldLaws m) (v : ℕ → ℕ → Elem m) (b : ℕ → ℕ → Elem m) → elimination.Table m laws d d v echelon.now.rows echelon.now.pivots → ((i : ℕ) → i < self.now.matrices.n → i ≢ self.now.k → Stands m d (slice_index_or sides.now i []) (b i)) → (i : ℕ) → i < self.now.matrices.n → Row m laws d v connection.now (b i) i self.now.k (λ l. slice_index out.new (i * d + l)) }
    {
        let d = self.matrices.tables.size();
        // By index: of words that were written through chunks_mut a proof knows only how many they are.
        for i in 0..self.matrices.n {
            self.write_row(
                i,
                connection,
                &sides[i],
                echelon,
                &mut out[i * d..i * d + d],
            );
        }
    }
}
