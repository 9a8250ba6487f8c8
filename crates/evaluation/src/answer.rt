// The answer to a text: the values of its polynomials at its point, or one refusal. The questions
// stand here in their order; the text is read where it stands, and only `out` is written.
ghost use Rattle.std.specs.Prelude.{◌≡◌, ◌<◌, ◌≤◌, length, IfSome, Some, None, slice_index};
ghost use Rattle.column.specs.Place.{put};
ghost use Rattle.evaluation.specs.Answer.{outcome_over, outcome_with, outcome, answer};
ghost use Rattle.evaluation.specs.Basis.{next};
ghost use Rattle.evaluation.specs.Steps.{Wrote};

use crate::basis::ask_polynomials;
use crate::fault::ProbeFault;
use crate::header::Header;
use crate::reading::Reader;
use crate::values::write_values;
use column::write_line;
use field::{ByteField, Field, Residue};

const LONGEST_TEXT: usize = 8192;

// Asks the polynomials, the point and the end of a text, and writes the values.
fn answer_basis<F: Field>(
    field: &F,
    header: Header<'_>,
    n: usize,
    out: &mut [u8; LONGEST_TEXT],
) -> Result<usize, ProbeFault>
    requires few { n ≤ 4 }
    ensures wrote { Wrote result (outcome_over (F.Field.meaning field.now) n header.entry.count (next 4 header.entry.rest.text.now)) out.old out.new }
{
    let first = Reader {
        here: header.rest,
        n,
    };
    let end = ask_polynomials(field, first, header.count)?;
    let mut words = [0u32; 4];
    let point = &mut words[..n];
    let last = end.read(point)?;
    // An `if let`, since what is found is refused: no method of Option makes an error of Some.
    if let Some(word) = field.first_no_element(point) {
        // `as`: there is no From<usize> for u32, and a place among four words is small.
        return Err(ProbeFault::Point(end.line(), word as u32 + 1));
    }
    if last.here.place.at < last.here.text.len() {
        return Err(ProbeFault::NotOver);
    }
    Ok(write_values(field, first.lines(), header.count, point, out))
}

// Asks the order code and the number of variables, then the basis.
fn answer_header<F: Field>(
    field: &F,
    header: Header<'_>,
    out: &mut [u8; LONGEST_TEXT],
) -> Result<usize, ProbeFault>
    ensures wrote { Wrote result (outcome_with (F.Field.meaning field.now) header.entry.order header.entry.n header.entry.count (next 4 header.entry.rest.text.now)) out.old out.new }
{
    if !(1..=4).contains(&header.order) {
        return Err(ProbeFault::OrderCode);
    }
    if !(1..=4).contains(&header.n) {
        return Err(ProbeFault::Variables);
    }
    // `as`: there is no From<u32> for usize, and the number is at most four.
    answer_basis(field, header, header.n as usize, out)
}

// Asks a whole text and writes the values.
fn answer_text(text: &[u8], out: &mut [u8; LONGEST_TEXT]) -> Result<usize, ProbeFault>
    ensures wrote { Wrote result (outcome text.now) out.old out.new }
{
    if text.len() > LONGEST_TEXT {
        return Err(ProbeFault::TooLong);
    }
    let mut words = [0u32; 4];
    let rest = column::Reader::new(text)
        .read(&mut words)
        .map_err(|fault| ProbeFault::Line(fault, 1))?;
    let [code, order, n, count] = words;
    let header = Header {
        rest,
        order,
        n,
        count,
    };
    // A number: the code says which type the field has, and above 0 it is the modulus itself.
    if code == 0 {
        return answer_header(&ByteField, header, out);
    }
    let field = Residue::new(code)?;
    answer_header(&field, header, out)
}

// The bytes that the program prints, at the front of `out`, and how many; None, and nothing
// written, where `out` has not the room of the longest text.
pub fn answer_to(text: &[u8], out: &mut [u8]) -> Option<usize>
    ensures within { IfSome result (λ n. n ≤ length out.old) }
    ensures no_room { length out.old < 8192 → (result ≡ None) × (out.new ≡ out.old) }
    ensures answer { 8192 ≤ length out.old → (result ≡ Some (length (answer text.now))) × (out.new ≡ put out.old 0 (answer text.now)) }
{
    let front: &mut [u8; LONGEST_TEXT] = out.first_chunk_mut()?;
    // By cases: a refusal is written too, and has a line of its own.
    match answer_text(text, front) {
        Ok(end) => Some(end),
        Err(fault) => {
            let report = fault.report();
            write_line(front, 0, &report)
        }
    }
}
