// The request that follows a basis text: a line of the variable and the number of words, then a line
// for each word. Reads bytes where they stand.
ghost use Rattle.std.specs.Prelude.{◌≡◌, suc, ◌≤◌, length, take, ◌==◌, IfOk};
ghost use Rattle.std.specs.List.{count_by};
ghost use Rattle.column.specs.Walk.{left};
ghost use Rattle.shaping.specs.Steps.{WordsRead, FirstRead, RequestRead};

use crate::ShapeFault;
use column::{Place, Reader};
use job::JobFault;
use text::TextFault;
use text::reading::read_line;

const NEWLINE: u8 = b'\n';

// The reader of a text at its byte `end`, in the line that as many bytes 10 come before.
pub(crate) fn reader_after(text: &[u8], end: usize) -> Reader<'_>
    requires { end ≤ length text.now }
    ensures text { result.text.now ≡ text.now }
    ensures at { result.place.at ≡ end }
    ensures line { result.place.line ≡ suc (count_by (λ b. b == 10) (take end text.now)) }
{
    let newlines = text[..end].iter().filter(|byte| **byte == NEWLINE).count();
    Reader {
        text,
        place: Place {
            at: end,
            line: newlines + 1,
        },
    }
}

// Reads a line of one word for each of the words, and answers the reader after them.
fn read_words<'a>(reader: Reader<'a>, words: &mut [u32]) -> Result<Reader<'a>, TextFault>
    ensures { WordsRead (length words.old) reader.entry words.new result }
{
    let mut line = [0u32; 1];
    let mut here = reader;
    for word in words.iter_mut() {
        here = read_line(here, &mut line)?;
        *word = line[0];
    }
    Ok(here)
}

// Reads the first line of a request, and answers the variable and the reader at the words.
fn read_first(reader: Reader<'_>, n: u32, size: usize) -> Result<(u32, Reader<'_>), TextFault>
    ensures { FirstRead n size reader.entry result }
{
    let line = reader.place.line;
    let mut words = [0u32; 2];
    let next = read_line(reader, &mut words)?;
    let [k, count] = words;
    if !(1..=n).contains(&k) {
        return Err(TextFault::Job(JobFault::NoVariable, line));
    }
    // A word fits a usize: `as` keeps it, and Rust has no `From` there.
    if count as usize != size {
        return Err(TextFault::Job(JobFault::VectorLength, line));
    }
    Ok((k, next))
}

// Reads a request for one of n variables with a word for each of the vector, after which the text is
// over, and answers the variable.
pub(crate) fn read_request(
    reader: Reader<'_>,
    n: u32,
    vector: &mut [u32],
) -> Result<u32, ShapeFault>
    ensures { RequestRead n (length vector.old) reader.entry vector.new result }
{
    let (k, next) = read_first(reader, n, vector.len())?;
    let end = read_words(next, vector)?;
    if end.place.at < end.text.len() {
        return Err(ShapeFault::NotOver);
    }
    Ok(k)
}
