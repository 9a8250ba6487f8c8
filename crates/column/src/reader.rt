// A text at one of its lines, and reading from line to line.
// Reads bytes and writes words that the caller lends; a refused call leaves the words as they were.
ghost use Rattle.std.specs.Prelude.{◌≡◌, ◌+◌, ◌≤◌, length, IfOk};

use crate::line::{LineFault, read_line};
use crate::place::Place;

// The bytes of a text, and the place of the line that is read next.
#[derive(Clone, Copy)]
pub struct Reader<'a> {
    pub text: &'a [u8],
    pub place: Place,
    pub ghost inside: { place.at ≤ length text.now },
}

impl<'a> Reader<'a> {
    ghost use Rattle.column.specs.Line.{after_line, taken_words, LineTaken};
    ghost use Rattle.column.specs.Walk.{byte_after};

    // At the first line of a text.
    pub fn new(text: &'a [u8]) -> Reader<'a>
        ensures text { result.text.now ≡ text.now }
        ensures at { result.place.at ≡ 0 }
        ensures line { result.place.line ≡ 1 }
    {
        Reader {
            text,
            place: Place::START,
        }
    }

    // Reads the line here, of as many columns as there are words, and answers the reader at the next.
    pub fn read(self, words: &mut [u32]) -> Result<Reader<'a>, LineFault>
        ensures same_text { IfOk result (λ q. q.text.now ≡ self.entry.text.now) }
        ensures place_after { byte_after result ≡ after_line self.entry.text.now self.entry.place.at (length words.old) }
        ensures line_after { IfOk result (λ q. q.place.line ≡ self.entry.place.line + 1) }
        ensures words_taken { words.new ≡ taken_words self.entry.text.now self.entry.place.at words.old }
        ensures exact { LineTaken self.entry.text.now self.entry.place.at words.old words.new (byte_after result) }
    {
        let at = read_line(self.text, self.place.at, words)?;
        let line = self.place.line + 1;
        Ok(Reader {
            text: self.text,
            place: Place { at, line },
        })
    }
}
