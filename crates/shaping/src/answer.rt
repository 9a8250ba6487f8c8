// The answer to a text and its request: the basis that it asks for, or one refusal. The questions before
// the basis stand here in their order; the text is read where it stands, and only `out` is written.
ghost use Rattle.std.specs.Prelude.{◌≡◌, ◌<◌, ◌≤◌, length, [], ◌∷◌, Ok, IfSome, None};
ghost use Rattle.std.specs.List.{AllByRecursion};
ghost use Rattle.column.specs.Column.{Word};
ghost use Rattle.shaping.specs.Faults.{number_of, layer_at, line_of, place_of};
ghost use Rattle.shaping.specs.Questions.{code_asks};
ghost use Rattle.shaping.specs.Steps.{Asked, Reverses, Ordered, Headed};
ghost use Rattle.shaping.specs.Answer.{Prints};

use crate::basis::shaped;
use crate::fault::ShapeFault;
use crate::rows::Basis;
use column::write_line;
use field::{ByteField, Field, Residue};
use job::JobFault;
use order::{Drl, Lex, Order, Rearrangement, Renumbered};
use text::{TextFault, header};

const LONGEST_TEXT: usize = 8192;

// A line of four words, and four lines of 48: 45 + 4 * 529. A refusal is one line of four words.
pub const LONGEST_ANSWER: usize = 2161;

// Asks the order code and the number of variables, which the first line holds.
fn ask_codes(order: u32, n: u32) -> Result<(), ShapeFault>
    ensures { Asked (code_asks order n) result }
{
    if !(1..=4).contains(&order) {
        return Err(ShapeFault::OrderCode);
    }
    if !(1..=4).contains(&n) {
        return Err(ShapeFault::Text(TextFault::Job(JobFault::Variables, 1)));
    }
    Ok(())
}

// An order with the variables 1 to n reversed. A reversal is a rearrangement, so that there is always one.
fn reversed<O: Order + Drop>(below: O, n: u32) -> Renumbered<O>
    requires few { (1 ≤ n) × (n ≤ 4) }
    ensures { Reverses below n result }
{
    // `as`: there is no From<u32> for u8, and the number is at most four.
    let reversal = Rearrangement::reversal(n as u8).unwrap();
    Renumbered::new(below, reversal).unwrap()
}

// Asks the codes, and shapes the basis over a field and the order with that code.
fn basis_over<F: Field + Drop>(
    field: F,
    order: u32,
    n: u32,
    text: &[u8],
) -> Result<Basis, ShapeFault>
    ensures ordered { Ordered (F.Field.meaning field) order n text.now result }
{
    ask_codes(order, n)?;
    match order {
        1 => shaped(field, Drl, n, text),
        2 => shaped(field, Lex, n, text),
        3 => shaped(field, reversed(Drl, n), n, text),
        _ => shaped(field, reversed(Lex, n), n, text),
    }
}

// Asks a whole text, and shapes its basis.
fn basis_of(text: &[u8]) -> Result<Basis, ShapeFault>
    ensures headed { Headed text.now result }
{
    if text.len() > LONGEST_TEXT {
        return Err(ShapeFault::TooLong);
    }
    let (code, order, n, _) = header(text)?;
    // A number: the code says which type the field has, and above 0 it is the modulus itself.
    if code == 0 {
        return basis_over(ByteField, order, n, text);
    }
    basis_over(Residue::new(code)?, order, n, text)
}

// The four numbers that a refusal prints.
fn report(fault: ShapeFault) -> [u32; 4]
    requires small { (line_of fault ≤ 9000) × (place_of fault ≤ 9000) }
    ensures value { result ≡ number_of fault ∷ layer_at (number_of fault) ∷ line_of fault ∷ place_of fault ∷ [] }
    ensures words { AllByRecursion Word result }
{
    // `as`: there is no From<usize> for u32, and lines and places of a short text are small.
    [
        fault.number(),
        fault.layer(),
        fault.line() as u32,
        fault.place() as u32,
    ]
}

// The bytes that the program prints, at the front of `out`, and how many; None, and nothing
// written, where `out` has not the room of the longest answer.
pub fn answer_to(text: &[u8], out: &mut [u8]) -> Option<usize>
    ensures within { IfSome result (λ n. n ≤ length out.old) }
    ensures no_room { length out.old < 2161 → (result ≡ None) × (out.new ≡ out.old) }
    ensures answer { 2161 ≤ length out.old → Prints text.now result out.old out.new }
{
    let front: &mut [u8; LONGEST_ANSWER] = out.first_chunk_mut()?;
    match basis_of(text) {
        Ok(basis) => Some(basis.write(front)),
        Err(fault) => write_line(front, 0, &report(fault)),
    }
}
