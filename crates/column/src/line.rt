// A line: columns, then byte 10.
// Reads a line into words that the caller lends, and writes one into lent bytes; a refused call leaves what was lent as it was.
ghost use Rattle.std.specs.Prelude.{◌≡◌, ◌+◌, ◌*◌, ◌/◌, ◌≤◌, true, length, drop, nat_le, ◌==◌, position, IfOk};
ghost use Rattle.column.specs.Line.{columns, line, line_length, before_newline, exact, numbers, values};
ghost use Rattle.column.specs.Line.{after_line, taken_words, LineTaken, fault_number};
ghost use Rattle.column.specs.Place.{after, placed, put};

use crate::number::{WIDTH, put_column, read_column};

const NEWLINE: u8 = b'\n';

// Why a line of a given number of columns does not read.
#[derive(Clone, Copy, PartialEq, Eq, Debug)]
pub enum LineFault {
    WrongLength,
    NotANumber,
}

impl LineFault {
    // The number of the refusal.
    // Like those of other faults in shape alone: each is a table of its own cases and numbers.
    pub fn number(self) -> u32
        ensures { result ≡ fault_number self }
    {
        match self {
            LineFault::WrongLength => 26,
            LineFault::NotANumber => 27,
        }
    }
}

// Whether a line of so many columns fits between a place and the end.
// No slice for `count`: it counts columns to come, and not the bytes that are lent.
fn line_fits(out: &[u8], at: usize, count: usize) -> bool
    ensures { result ≡ nat_le (at + line_length count) (length out.now) }
{
    at < out.len() && count <= (out.len() - at - 1) / WIDTH
}

// How many bytes stand before the first byte 10, if there is one.
fn first_newline(bytes: &[u8]) -> Option<usize>
    ensures { result ≡ position (λ b. b == 10) bytes.now }
{
    bytes.iter().position(|byte| *byte == NEWLINE)
}

// Whether the first byte 10 from a place on stands right after so many columns.
// No slice for `count`: it counts columns that the line must have, and not the bytes that are lent.
fn ends_after(bytes: &[u8], at: usize, count: usize) -> bool
    ensures test { result ≡ exact count (drop at bytes.now) }
    ensures room { result ≡ true → at + line_length count ≤ length bytes.now }
{
    line_fits(bytes, at, count) && first_newline(&bytes[at..]) == Some(WIDTH * count)
}

// Whether each of the columns is a number.
fn all_numbers(columns: &[u8]) -> bool
    ensures { result ≡ numbers (length columns.now / 11) columns.now }
{
    columns
        .chunks_exact(WIDTH)
        .all(|column| read_column(column).is_some())
}

// Writes the numbers of the columns into the words.
fn take_words(columns: &[u8], words: &mut [u32])
    requires { length columns.now ≡ 11 * length words.old }
    ensures { words.new ≡ values (length words.old) columns.now }
{
    // By index: a proof knows nothing of words that are written through an adapter of `iter_mut`.
    for (i, column) in columns.chunks_exact(WIDTH).enumerate() {
        words[i] = read_column(column).unwrap_or(0);
    }
}

// Reads a line of as many columns as there are words, and answers the place after it.
pub fn read_line(bytes: &[u8], at: usize, words: &mut [u32]) -> Result<usize, LineFault>
    ensures place_after { result ≡ after_line bytes.now at (length words.old) }
    ensures words_taken { words.new ≡ taken_words bytes.now at words.old }
    ensures exact { LineTaken bytes.now at words.old words.new result }
    ensures inside { IfOk result (λ place. place ≤ length bytes.now) }
{
    if !ends_after(bytes, at, words.len()) {
        return Err(LineFault::WrongLength);
    }
    let end = at + WIDTH * words.len();
    let columns = &bytes[at..end];
    if !all_numbers(columns) {
        return Err(LineFault::NotANumber);
    }
    take_words(columns, words);
    Ok(end + 1)
}

// Writes the columns of the words at a place that has room for them.
fn put_columns(out: &mut [u8], at: usize, words: &[u32])
    requires { at + 11 * length words.now ≤ length out.old }
    ensures { out.new ≡ put out.old at (columns words.now) }
{
    // By place: a proof knows nothing of bytes that are written through `chunks_exact_mut`.
    for (i, word) in words.iter().enumerate() {
        put_column(out, at + WIDTH * i, *word);
    }
}

// Writes the line of the words at a place and answers the place after it, or None where there is no room.
pub fn write_line(out: &mut [u8], at: usize, words: &[u32]) -> Option<usize>
    ensures place_after { result ≡ after out.old at (line words.now) }
    ensures rest_unchanged { out.new ≡ placed out.old at (line words.now) }
    ensures long { length (line words.now) ≡ line_length (length words.now) }
{
    if !line_fits(out, at, words.len()) {
        return None;
    }
    put_columns(out, at, words);
    let end = at + WIDTH * words.len();
    out[end] = NEWLINE;
    Some(end + 1)
}
