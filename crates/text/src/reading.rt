// Reading lines of a text one after the other. Terms go where the caller lends room for them.
ghost use Rattle.std.specs.Prelude.{suc, length};
ghost use Rattle.text.specs.Steps.{LineRead, CountRead, TermsRead};

use crate::TextFault;
use crate::layout::Layout;
use crate::term::term_of;
use column::Reader;
use polynomials::Term;

// Reads a line into the words and answers the reader at the next, with the line in the fault.
pub fn read_line<'a>(reader: Reader<'a>, words: &mut [u32]) -> Result<Reader<'a>, TextFault>
    ensures { LineRead (length words.old) reader.entry words.new result }
{
    reader
        .read(words)
        .map_err(|fault| TextFault::Line(fault, reader.place.line))
}

// Reads the number of terms in a line and answers it with the reader at the next line.
pub(crate) fn read_count(reader: Reader<'_>) -> Result<(usize, Reader<'_>), TextFault>
    ensures { CountRead reader.entry result }
{
    let mut words = [0u32; 1];
    let next = read_line(reader, &mut words)?;
    // A word fits a usize: `as` keeps it, and Rust has no `From` there.
    Ok((words[0] as usize, next))
}

impl Layout {
    // Reads lines of terms, one for each of the terms, and answers the reader after them.
    pub(crate) fn read_terms<'a>(
        self,
        reader: Reader<'a>,
        terms: &mut [Term],
    ) -> Result<Reader<'a>, TextFault>
        ensures { TermsRead (suc self.n) (length terms.old) reader.entry terms.new result }
    {
        let mut line = [0u32; 5];
        let words = &mut line[..=self.n];
        let mut here = reader;
        for term in terms.iter_mut() {
            here = read_line(here, words)?;
            *term = term_of(words);
        }
        Ok(here)
    }
}
