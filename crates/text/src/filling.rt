// Fill: enters the polynomials of a basis text into an empty job, one after the other, and takes them
// out again where one is refused. Lines are read where they stand; one polynomial's terms are held.
ghost use Rattle.std.specs.Prelude.{◌≡◌, take, IfOk};
ghost use Rattle.std.specs.Result.{result_map_both};
ghost use Rattle.runs.specs.Job.{opened};
ghost use Rattle.runs.specs.Call as call;
ghost use Rattle.runs.specs.Writing.{basis_text, field_code, order_code};
ghost use Rattle.job.specs.Parts.{SameFieldAndOrder};
ghost use Rattle.job.specs.State.{state};
ghost use Rattle.job.specs.Promise.{Promised};
ghost use Rattle.text.specs.declared.fault.TextFault.TheVariants as fault;
ghost use Rattle.text.specs.Filling.{PolynomialEntered, PolynomialsEntered};
ghost use Rattle.text.specs.Filled.{Filled, answer_of};

use crate::TextFault;
use crate::first_line::header;
use crate::layout::{HEADER_LINE, Layout};
use crate::reading::read_count;
use column::{Place, Reader};
use field::Field;
use job::Job;
use order::Order;
use polynomials::{JobFault, Polynomials, Term};

// The place of the line after the header.
const AFTER_HEADER: Place = Place {
    at: HEADER_LINE,
    line: 2,
};

// The answer of the job, with the line in the fault.
fn about_line(answer: Result<(), JobFault>, line: usize) -> Result<(), TextFault>
    ensures { result ≡ result_map_both (λ x. x) (λ f. fault.Job f line) answer }
{
    answer.map_err(|fault| TextFault::from(fault).in_line(line))
}

// Enters the polynomial that the reader is at and answers the reader after it. What the job refuses
// carries the line of the term count.
fn fill_polynomial<'a, F: Field, O: Order>(
    job: &mut Job<F, O>,
    reader: Reader<'a>,
    terms: &mut [Term; Polynomials::MOST_TERMS],
) -> Result<Reader<'a>, TextFault>
    requires { (state job.old.table).stage ≡ opened }
    ensures entered { PolynomialEntered (F.Field.meaning job.old.field) (O.Order.meaning job.old.order) (state job.old.table) reader.entry (state job.new.table) result }
    ensures same_field_and_order { SameFieldAndOrder job.old job.new }
{
    let line = reader.place.line;
    let (count, first) = read_count(reader)?;
    about_line(job.ask_room(count), line)?;
    // The front of one array that serves every polynomial, and no list: memory is fixed, and a thousand terms are cleared once.
    let layout = Layout { n: job.variables() };
    let end = layout.read_terms(first, &mut terms[..count])?;
    about_line(job.enter(&terms[..count]), line)?;
    Ok(end)
}

// Enters so many polynomials from the reader's line on and answers the reader after them.
fn fill_polynomials<'a, F: Field, O: Order>(
    job: &mut Job<F, O>,
    reader: Reader<'a>,
    count: u32,
    terms: &mut [Term; Polynomials::MOST_TERMS],
) -> Result<Reader<'a>, TextFault>
    requires { (state job.old.table).stage ≡ opened }
    ensures entered { PolynomialsEntered (F.Field.meaning job.old.field) (O.Order.meaning job.old.order) count (state job.old.table) reader.entry (state job.new.table) result }
    ensures same_field_and_order { SameFieldAndOrder job.old job.new }
{
    let mut here = reader;
    // Over no items, as a fold over the range would be: each polynomial begins in the text where the one before ends.
    for _i in 0..count {
        here = fill_polynomial(job, here, terms)?;
    }
    Ok(here)
}

// Enters the polynomials of a basis text, in order, and answers the number of bytes read. The codes
// of field and order are not compared.
pub fn fill<F: Field, O: Order>(job: &mut Job<F, O>, bytes: &[u8]) -> Result<usize, TextFault>
    ensures filled { Filled (F.Field.meaning job.old.field) (O.Order.meaning job.old.order) bytes.now (state job.old.table) (state job.new.table) result }
    ensures promised { Promised (F.Field.meaning job.old.field) (O.Order.meaning job.old.order) job.old.table (call.fill bytes.now) (answer_of result) job.new.table }
    ensures written_again { IfOk result (λ size. take size bytes.now ≡ basis_text (field_code bytes.now) (order_code bytes.now) (state job.new.table).n (state job.new.table).polynomials) }
    ensures same_field_and_order { SameFieldAndOrder job.old job.new }
{
    if !job.is_new() {
        return Err(TextFault::NotEmpty);
    }
    let (_, _, n, count) = header(bytes)?;
    // A word fits a usize: `as` keeps it, and Rust has no `From` there.
    if n as usize != job.variables() {
        return Err(TextFault::OtherVariables);
    }
    let first = Reader {
        text: bytes,
        place: AFTER_HEADER,
    };
    let mut terms = [Term::default(); Polynomials::MOST_TERMS];
    // By cases: a refusal takes the polynomials before it out again.
    match fill_polynomials(job, first, count, &mut terms) {
        Ok(end) => Ok(end.place.at),
        Err(fault) => {
            job.clear();
            Err(fault)
        }
    }
}
