// Elimination over the words of any field: which vector of a family is the first that depends on
// those before it, and the coefficients of a vector over independent ones.
// An echelon works in memory of its own, `eliminate` and `solve` in a table, pivots and a row that the
// caller lends. Nothing else is touched but the output that is lent for a solution.
ghost use Rattle.std.specs.Prelude.{◌≡◌, ℕ, ◌+◌, ◌*◌, ◌<◌, ◌≤◌, true, false, ◌≢◌, length, replicate, Err, OnOk, OnErr, IsErrOf, slice_index, slice_index_or};
ghost use Rattle.field.specs.Meaning.{FieldLaws};
ghost use Rattle.algebra.specs.Elements.{Elem, Elems};
ghost use Rattle.linear.specs.Elimination.{pitch, roomy, fits, lends, takes, Below, solvable, solves, rows, Wide, Table, Growing, Reduced, FirstNonzero, Stepped, Eliminated, Solved};

mod rows;

use crate::multiple::add_multiple;
use field::Field;
pub use rows::PITCH;

// Vectors of `places` words each that begin `stride` words apart.
// No slice of rows and no `chunks`, but a stride and a count: they may overlap, as a Hankel table's rows do.
#[derive(Clone, Copy)]
pub struct Family<'a> {
    pub words: &'a [u32],
    pub stride: usize,
    pub places: usize,
    pub count: usize,
}

// Why not all vectors of a family were taken: there is no room for them, their words are too few or one
// is no element; or the vector at a place is the first that depends on those before it.
#[derive(Clone, Copy, PartialEq, Eq, Debug)]
pub enum EliminateFault {
    NoRoom,
    Depends(usize),
}

// Why a vector was not solved for: there is no room or a pivot is no place, or it is no combination.
#[derive(Clone, Copy, PartialEq, Eq, Debug)]
pub enum SolveFault {
    NoRoom,
    Outside,
}

// Rows in echelon form with the pivot of each, and a row to work in.
#[derive(Drop)]
pub struct Echelon<const ROWS: usize> {
    // Two arrays and not one of pairs: a test of the pivots reads these alone, and `Table` speaks of each.
    rows: [[u32; PITCH]; ROWS],
    pivots: [usize; ROWS],
    work: [u32; PITCH],
    // `Below` is no such fact: how many rows count, and of what places, each call is told.
    ghost wide: { Wide ROWS rows },
}

// Whether so many rows and pivots, and so many words of a row to work in, have room for as many vectors
// of so many places, with as many coordinates.
fn has_room(places: usize, count: usize, rows: usize, pivots: usize, work: usize) -> bool
    ensures { result ≡ lends places count rows pivots work }
{
    work <= PITCH && places <= work && count <= work - places && count <= pivots && count <= rows
}

// Whether there is room for so many rows beside vectors of so many places, and their pivots are places.
fn is_solvable(places: usize, count: usize, rows: usize, pivots: &[usize], work: usize) -> bool
    ensures { result ≡ solves places count rows pivots.now work }
{
    has_room(places, count, rows, pivots.len(), work)
        && pivots[..count].iter().all(|pivot| *pivot < places)
}

impl Family<'_> {
    // Whether there is room for the family in what is lent, and its words hold it all.
    fn fits(self, rows: usize, pivots: usize, work: usize) -> bool
        ensures { result ≡ takes self.entry.places self.entry.count self.entry.stride (length self.entry.words.now) rows pivots work }
    {
        has_room(self.places, self.count, rows, pivots, work)
            && self.stride <= PITCH
            && (self.count * self.stride).saturating_sub(self.stride) + self.places
                <= self.words.len()
    }
}

// What the first `count` rows leave of a vector, each taking off what stands at its pivot, and after
// it, up to `width` words, the coordinates of what they added to it.
// `count` is of rows of its own, and `width` of words of the answer: no slice lends either.
fn remainder<F: Field>(
    field: &F,
    table: &[[u32; PITCH]],
    pivots: &[usize],
    count: usize,
    vector: &[u32],
    width: usize,
    row: &mut [u32],
)
    requires narrow { width ≤ pitch }
    requires width { width ≤ length row.old }
    requires room { length vector.now ≤ width }
    requires rows { count ≤ length table.now }
    requires pivots { count ≤ length pivots.now }
    requires wide { Wide count table.now }
    requires within { Below (length vector.now) count pivots.now }
    ensures left { Reduced (F.Field.meaning field.now) table.now pivots.now count (λ j. slice_index_or vector.now j (F.Field.meaning field.now).zero) width row.new }
{
    let work = &mut row[..width];
    rows::begin(field, work, vector);
    for (pivot, above) in pivots[..count].iter().zip(table) {
        let q = field.neg(work[*pivot]);
        add_multiple(field, q, above, work);
    }
}

// Takes the vector n of a family after those before it.
fn take<F: Field>(
    field: &F,
    family: Family,
    n: usize,
    table: &mut [[u32; PITCH]],
    pivots: &mut [usize],
    row: &mut [u32],
) -> Result<(), EliminateFault>
    requires covered { n * family.stride + family.places ≤ length family.words.now }
    requires narrow { length row.old ≤ pitch }
    requires room { family.places + family.count ≤ length row.old }
    requires coordinate { n < family.count }
    requires rows { n < length table.old }
    requires pivots { n < length pivots.old }
    requires wide { Wide (length table.old) table.old }
    requires within { Below family.places n pivots.old }
    ensures wide { Wide (length table.new) table.new }
    ensures within { OnOk result (Below family.entry.places (n + 1) pivots.new) }
    ensures stepped { (laws : FieldLaws (F.Field.meaning field.now)) → Elems (F.Field.meaning field.now) family.entry.words.now → Growing (F.Field.meaning field.now) laws family.entry.places family.entry.count n (rows (F.Field.meaning field.now) laws family.entry.stride family.entry.words.now) table.old pivots.old → Stepped (F.Field.meaning field.now) laws family.entry.places family.entry.count n (rows (F.Field.meaning field.now) laws family.entry.stride family.entry.words.now) table.new pivots.new row.new result }
{
    let start = n * family.stride;
    let vector = &family.words[start..start + family.places];
    let width = family.places + family.count;
    remainder(field, table, pivots, n, vector, width, row);
    let left = rows::first_nonzero(field, row, vector.len());
    let place = left.ok_or(EliminateFault::Depends(n))?;
    let q = field.inverse(row[place]).ok_or(EliminateFault::NoRoom)?;
    row[family.places + n] = field.one();
    rows::keep(field, &mut table[n], &row[..width], q);
    pivots[n] = place;
    Ok(())
}

// Takes the vectors of a family one after the other, until one depends on those before it. The table
// and the pivots are then as `solve` wants them, and the row has the relation of the one that depends.
pub fn eliminate<F: Field>(
    field: &F,
    family: Family,
    table: &mut [[u32; PITCH]],
    pivots: &mut [usize],
    row: &mut [u32],
) -> Result<(), EliminateFault>
    ensures wide { Wide (length table.new) table.new }
    ensures refused { takes family.entry.places family.entry.count family.entry.stride (length family.entry.words.now) (length table.old) (length pivots.old) (length row.old) ≡ false → IsErrOf result EliminateFault.NoRoom × (table.new ≡ table.old) × (pivots.new ≡ pivots.old) × (row.new ≡ row.old) }
    ensures eliminated { takes family.entry.places family.entry.count family.entry.stride (length family.entry.words.now) (length table.old) (length pivots.old) (length row.old) ≡ true → (laws : FieldLaws (F.Field.meaning field.now)) → Elems (F.Field.meaning field.now) family.entry.words.now → Eliminated (F.Field.meaning field.now) laws family.entry.places family.entry.count (rows (F.Field.meaning field.now) laws family.entry.stride family.entry.words.now) table.new pivots.new row.new result }
{
    rows::tell_widths(table);
    if !family.fits(table.len(), pivots.len(), row.len()) {
        return Err(EliminateFault::NoRoom);
    }
    // By number, which `take` is told; `windows` refuses no places and `step_by` no stride, and both may be 0.
    for n in 0..family.count {
        take(field, family, n, table, pivots, row)?;
    }
    Ok(())
}

// Writes into `out` the coefficients by which the vectors that an elimination took combine to the
// vector given, one for each word of `out`.
pub fn solve<F: Field>(
    field: &F,
    table: &[[u32; PITCH]],
    pivots: &[usize],
    vector: &[u32],
    row: &mut [u32],
    out: &mut [u32],
) -> Result<(), SolveFault>
    ensures refused { solves (length vector.now) (length out.old) (length table.now) pivots.now (length row.old) ≡ false → IsErrOf result SolveFault.NoRoom × (row.new ≡ row.old) }
    ensures answered { solves (length vector.now) (length out.old) (length table.now) pivots.now (length row.old) ≡ true → result ≢ Err SolveFault.NoRoom }
    ensures unwritten { OnErr result (out.new ≡ out.old) }
    ensures solved { lends (length vector.now) (length out.old) (length table.now) (length pivots.now) (length row.old) ≡ true → (laws : FieldLaws (F.Field.meaning field.now)) (v : ℕ → ℕ → Elem (F.Field.meaning field.now)) → Elems (F.Field.meaning field.now) vector.now → Table (F.Field.meaning field.now) laws (length vector.now) (length out.old) v table.now pivots.now → Solved (F.Field.meaning field.now) laws (length vector.now) (length out.old) v vector.now out.new result }
{
    rows::tell_widths(table);
    let count = out.len();
    if !is_solvable(vector.len(), count, table.len(), pivots, row.len()) {
        return Err(SolveFault::NoRoom);
    }
    remainder(
        field,
        table,
        pivots,
        count,
        vector,
        vector.len() + count,
        row,
    );
    if rows::first_nonzero(field, row, vector.len()).is_some() {
        return Err(SolveFault::Outside);
    }
    rows::opposites(field, row, vector.len(), out);
    Ok(())
}

impl<const ROWS: usize> Echelon<ROWS> {
    pub fn new() -> Echelon<ROWS>
        ensures rows { result.rows ≡ replicate ROWS (replicate pitch 0) }
        ensures pivots { result.pivots ≡ replicate ROWS 0 }
        ensures work { result.work ≡ replicate pitch 0 }
    {
        Echelon {
            rows: [[0; PITCH]; ROWS],
            pivots: [0; ROWS],
            work: [0; PITCH],
        }
    }

    // Rows and pivots of a caller's own, to solve over.
    pub fn of(rows: [[u32; PITCH]; ROWS], pivots: [usize; ROWS]) -> Echelon<ROWS>
        ensures rows { result.rows ≡ rows.entry }
        ensures pivots { result.pivots ≡ pivots.entry }
        ensures work { result.work ≡ replicate pitch 0 }
    {
        rows::tell_widths(&rows);
        Echelon {
            rows,
            pivots,
            work: [0; PITCH],
        }
    }

    // The rows, as many as the echelon has room for. Those of the vectors taken come first.
    pub fn rows(&self) -> &[[u32; PITCH]]
        ensures { result.now ≡ self.now.rows }
    {
        self.rows.as_slice()
    }

    // The place at which each row has its pivot.
    pub fn pivots(&self) -> &[usize]
        ensures { result.now ≡ self.now.pivots }
    {
        self.pivots.as_slice()
    }

    // The row that was worked in: where a vector depends, its relation stands after its places.
    pub fn work(&self) -> &[u32; PITCH]
        ensures { result.now ≡ self.now.work }
    {
        &self.work
    }

    // Takes the vectors of a family one after the other, until one depends on those before it. The
    // rows are then as `solve` wants them, and the work row has the relation of the one that depends.
    pub fn eliminate<F: Field>(&mut self, field: &F, family: Family) -> Result<(), EliminateFault>
        ensures refused { fits family.entry.places family.entry.count family.entry.stride (length family.entry.words.now) ROWS ≡ false → IsErrOf result EliminateFault.NoRoom × (self.new.rows ≡ self.old.rows) × (self.new.pivots ≡ self.old.pivots) × (self.new.work ≡ self.old.work) }
        ensures eliminated { fits family.entry.places family.entry.count family.entry.stride (length family.entry.words.now) ROWS ≡ true → (laws : FieldLaws (F.Field.meaning field.now)) → Elems (F.Field.meaning field.now) family.entry.words.now → Eliminated (F.Field.meaning field.now) laws family.entry.places family.entry.count (rows (F.Field.meaning field.now) laws family.entry.stride family.entry.words.now) self.new.rows self.new.pivots self.new.work result }
    {
        eliminate(
            field,
            family,
            &mut self.rows,
            &mut self.pivots,
            &mut self.work,
        )
    }

    // Writes into `out` the coefficients by which the vectors that an elimination took combine to the
    // vector given, one for each word of `out`.
    pub fn solve<F: Field>(
        &self,
        field: &F,
        vector: &[u32],
        out: &mut [u32],
    ) -> Result<(), SolveFault>
        ensures refused { solvable (length vector.now) (length out.old) ROWS self.now.pivots ≡ false → IsErrOf result SolveFault.NoRoom }
        ensures answered { solvable (length vector.now) (length out.old) ROWS self.now.pivots ≡ true → result ≢ Err SolveFault.NoRoom }
        ensures unwritten { OnErr result (out.new ≡ out.old) }
        ensures solved { roomy (length vector.now) (length out.old) ROWS ≡ true → (laws : FieldLaws (F.Field.meaning field.now)) (v : ℕ → ℕ → Elem (F.Field.meaning field.now)) → Elems (F.Field.meaning field.now) vector.now → Table (F.Field.meaning field.now) laws (length vector.now) (length out.old) v self.now.rows self.now.pivots → Solved (F.Field.meaning field.now) laws (length vector.now) (length out.old) v vector.now out.new result }
    {
        let mut row = [0; PITCH];
        solve(field, &self.rows, &self.pivots, vector, &mut row, out)
    }
}
