// Reading a short text from line to line, with the fault of a line that does not read.
ghost use Rattle.std.specs.Prelude.{◌≡◌, ◌+◌, ◌≤◌, length, drop, Some, MatchResult};

use crate::fault::ProbeFault;
use crate::terms::Lines;

// A text of at most 8192 bytes at one of its lines, with terms in at most four variables.
#[derive(Clone, Copy)]
pub(crate) struct Reader<'a> {
    pub here: column::Reader<'a>,
    pub n: usize,
    pub ghost short: { length here.text.now ≤ 8192 },
    pub ghost few: { n ≤ 4 },
}

impl<'a> Reader<'a> {
    ghost use Rattle.column.specs.Walk.{left};
    ghost use Rattle.evaluation.specs.Answer.{asks_line, asks_lines};
    ghost use Rattle.evaluation.specs.Steps.{LinePassed, LinesPassed};

    // The number of the line, as a fault carries it.
    pub(crate) fn line(self) -> u32
        ensures { result ≡ self.entry.here.place.line }
    {
        // `as`: there is no From<usize> for u32, and a short text has few lines.
        self.here.place.line as u32
    }

    // Reads the line here into the words.
    pub(crate) fn read(self, words: &mut [u32]) -> Result<Reader<'a>, ProbeFault>
        ensures asked { MatchResult result
            (λ q. (q.n ≡ self.entry.n) × LinePassed (length words.old) self.entry.here q.here words.new)
            (λ e. asks_line (length words.old) (left self.entry.here) self.entry.here.place.line ≡ Some e) }
    {
        let line = self.line();
        let here = self
            .here
            .read(words)
            .map_err(|fault| ProbeFault::Line(fault, line))?;
        Ok(Reader { here, n: self.n })
    }

    // Reads the lines of so many terms.
    pub(crate) fn pass_terms(self, count: u32) -> Result<Reader<'a>, ProbeFault>
        ensures asked { MatchResult result
            (λ q. (q.n ≡ self.entry.n) × LinesPassed (self.entry.n + 1) count self.entry.here q.here)
            (λ e. asks_lines (self.entry.n + 1) count (left self.entry.here) self.entry.here.place.line ≡ Some e) }
    {
        let mut words = [0u32; 5];
        let mut here = self;
        // Over no items, as a fold over the range would be: each line begins in the text where the one before ends.
        for _i in 0..count {
            here = here.read(&mut words[..=self.n])?;
        }
        Ok(here)
    }

    // The lines from here on, once more.
    pub(crate) fn lines(self) -> Lines<'a>
        ensures { drop result.at result.text.now ≡ left self.entry.here }
    {
        Lines {
            text: self.here.text,
            at: self.here.place.at,
        }
    }
}
