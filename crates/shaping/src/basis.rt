// A basis text and its request over one field and one order: Open, Fill and Close of a job, the request,
// and Convert. One text for every field and order.
ghost use Rattle.std.specs.Prelude.{◌≡◌, ℕ, ◌≤◌, List};
ghost use Rattle.field.specs.Meaning.{FieldLaws};
ghost use Rattle.runs.specs.Job.{new};
ghost use Rattle.job.specs.Parts.{SameFieldAndOrder};
ghost use Rattle.job.specs.State.{state, Kept};
ghost use Rattle.text.specs.Filled.{Filled};
ghost use Rattle.shaping.specs.Steps.{Closed, Loaded, AtRequest, Given};

use crate::ShapeFault;
use crate::request::{read_request, reader_after};
use crate::rows::{Basis, MOST_WORDS};
use column::Reader;
use field::Field;
use job::Job;
use order::Order;
use text::{TextFault, fill};

// The most words that a vector has.
const MOST_STAIRS: usize = 48;

// Makes the job a new one of n variables and fills it: the number of bytes read.
fn fill_new<F: Field, O: Order>(
    job: &mut Job<F, O>,
    n: usize,
    text: &[u8],
) -> Result<usize, TextFault>
    requires few { (1 ≤ n) × (n ≤ 4) }
    ensures filled { Filled (F.Field.meaning job.old.field) (O.Order.meaning job.old.order) text.now (new n) (state job.new.table) result }
    ensures kept { (laws : FieldLaws (F.Field.meaning job.old.field)) → Kept (F.Field.meaning job.old.field) laws (O.Order.meaning job.old.order) job.new.table }
    ensures same_field_and_order { SameFieldAndOrder job.old job.new }
{
    job.open(n).map_err(|fault| TextFault::Job(fault, 1))?;
    fill(job, text)
}

// Closes a job, and answers D. What is refused is about no line.
fn close<F: Field, O: Order>(job: &mut Job<F, O>) -> Result<usize, TextFault>
    ensures closed { (laws : FieldLaws (F.Field.meaning job.old.field)) → Kept (F.Field.meaning job.old.field) laws (O.Order.meaning job.old.order) job.old.table → Closed (F.Field.meaning job.old.field) laws (O.Order.meaning job.old.order) job.old.table job.new.table result }
    ensures same_field_and_order { SameFieldAndOrder job.old job.new }
{
    job.close().map_err(|fault| TextFault::Job(fault, 0))
}

// Fills and closes a new job of n variables: the reader at the request, and D.
fn load<'a, F: Field, O: Order>(
    job: &mut Job<F, O>,
    n: usize,
    text: &'a [u8],
) -> Result<(Reader<'a>, usize), ShapeFault>
    requires few { (1 ≤ n) × (n ≤ 4) }
    ensures loaded { (laws : FieldLaws (F.Field.meaning job.old.field)) → Loaded (F.Field.meaning job.old.field) laws (O.Order.meaning job.old.order) n text.now job.new.table result }
    ensures same_field_and_order { SameFieldAndOrder job.old job.new }
{
    let end = fill_new(job, n, text)?;
    let size = close(job)?;
    Ok((reader_after(text, end), size))
}

// Shapes the basis that a loaded job of n variables has, as the request asks that the reader is at.
fn shape<F: Field, O: Order>(
    job: &Job<F, O>,
    n: u32,
    size: usize,
    reader: Reader<'_>,
) -> Result<Basis, ShapeFault>
    requires few { (n ≤ 4) × (size ≤ 48) }
    ensures given { (laws : FieldLaws (F.Field.meaning job.now.field)) → (bs : List ℕ) → AtRequest (F.Field.meaning job.now.field) laws (O.Order.meaning job.now.order) n bs job.now.table size reader.entry → Given (F.Field.meaning job.now.field) laws (O.Order.meaning job.now.order) n bs result }
{
    let mut vector = [0u32; MOST_STAIRS];
    let vector = &mut vector[..size];
    let k = read_request(reader, n, vector)?;
    let mut words = [0u32; MOST_WORDS];
    // `as`: a word fits a usize, and D, at most 48, a word; Rust has no `From` for either.
    job.convert(k as usize, vector, &mut words)
        .map_err(|fault| TextFault::Job(fault, reader.place.line))?;
    Ok(Basis {
        n,
        size: size as u32,
        k,
        words,
    })
}

// The basis of a text of n variables, shaped as the request asks that follows it.
pub(crate) fn shaped<F: Field + Drop, O: Order + Drop>(
    field: F,
    order: O,
    n: u32,
    text: &[u8],
) -> Result<Basis, ShapeFault>
    requires few { (1 ≤ n) × (n ≤ 4) }
    ensures given { (laws : FieldLaws (F.Field.meaning field)) → Given (F.Field.meaning field) laws (O.Order.meaning order) n text.now result }
{
    let mut job = Job::new(field, order);
    // A word fits a usize: `as` keeps it, and Rust has no `From` there.
    let (reader, size) = load(&mut job, n as usize, text)?;
    shape(&job, n, size, reader)
}
