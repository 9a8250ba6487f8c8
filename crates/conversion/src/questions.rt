// The questions 20 to 25 of Convert, in their order. The last two are put to words that the powers
// of a multiplication matrix have left, and work in the arrays of a conversion.
ghost use Rattle.std.specs.Prelude.{ℕ, ◌+◌};
ghost use Rattle.field.specs.Meaning.{FieldLaws};
ghost use Rattle.algebra.specs.Elements.{Elem};
ghost use Rattle.polynomials.specs.Asked.{Asked};
ghost use Rattle.tables.specs.Holds.{stair_count};
ghost use Rattle.conversion.specs.Powers.{Stands, unit, power, Vectors};
ghost use Rattle.conversion.specs.Asked.{vector_words_asks, ShapeFound, LengthFound};

use crate::powers::{Conversion, Matrices, WIDTH};
use field::Field;
use linear::elimination::{Echelon, EliminateFault, Family};
use linear::recurrence::recurrence_length;
use polynomials::JobFault;

// 20 to 23, of a variable counted from 1.
pub(crate) fn ask_vector<F: Field>(
    matrices: &Matrices<F>,
    k: usize,
    r: &[u32],
    room: usize,
) -> Result<(), JobFault>
    ensures { Asked 0 (vector_words_asks (F.Field.meaning matrices.now.field.now) (stair_count matrices.now.tables.now) matrices.now.n k r.now room) result }
{
    let d = matrices.tables.size();
    if !(1..=matrices.n).contains(&k) {
        return Err(JobFault::NoVariable);
    }
    if r.len() != d {
        return Err(JobFault::VectorLength);
    }
    // An `if let`, since what is found is refused: no method of Option makes an error of Some.
    if let Some(i) = matrices.field.first_no_element(r) {
        return Err(JobFault::VectorWord(i + 1));
    }
    if room < matrices.n * d {
        return Err(JobFault::ShortOutput);
    }
    Ok(())
}

// 24: whether the powers are independent; its place is the first that depends on those before it.
pub(crate) fn ask_independent<F: Field>(
    by: &Conversion<F>,
    vectors: &[u32; 2304],
    echelon: &mut Echelon<48>,
) -> Result<(), JobFault>
    ensures { let m = F.Field.meaning by.now.matrices.field.now in let t = by.now.matrices.tables.now in (laws : FieldLaws m) → Vectors m laws t by.now.k vectors.now → ShapeFound m laws (stair_count t) (power m laws t by.now.k (unit m laws)) result }
{
    let d = by.matrices.tables.size();
    let family = Family {
        words: vectors,
        stride: WIDTH,
        places: d,
        count: d,
    };
    echelon
        .eliminate(by.matrices.field, family)
        .map_err(|fault| match fault {
            EliminateFault::Depends(j) => JobFault::NoShape(j),
            EliminateFault::NoRoom => JobFault::NotClosed,
        })
}

// 25: whether the least length of a recurrence of the sequence is the size of the staircase; its place
// is that length.
pub(crate) fn ask_length<F: Field>(
    matrices: &Matrices<F>,
    sequence: &[u32; 96],
    connection: &mut [u32; 97],
    previous: &mut [u32; 97],
    spare: &mut [u32; 97],
) -> Result<(), JobFault>
    ensures { let m = F.Field.meaning matrices.now.field.now in let d = stair_count matrices.now.tables.now in (laws : FieldLaws m) (s : ℕ → Elem m) → Stands m (d + d) sequence.now s → LengthFound m laws d s connection.new result }
{
    let d = matrices.tables.size();
    let sequence = &sequence[0..d + d];
    let l = recurrence_length(matrices.field, sequence, connection, previous, spare).ok_or(
        JobFault::NotClosed,
    )?;
    if l != d {
        return Err(JobFault::DependentRows(l));
    }
    Ok(())
}
