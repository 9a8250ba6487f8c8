// The lines of a text once more, after they were asked: words and terms, zeros where a line does not read.
// Reads the text where it stands; nothing is copied but one line's words.
ghost use Rattle.std.specs.Prelude.{◌≡◌, ◌+◌, ◌≤◌, drop};
ghost use Rattle.std.specs.Iterator.{YieldsFirst, at_most};

use column::{WIDTH, read_line};

// The lines of a text from a byte on.
#[derive(Clone, Copy)]
pub(crate) struct Lines<'a> {
    pub text: &'a [u8],
    pub at: usize,
}

impl<'a> Lines<'a> {
    ghost use Rattle.evaluation.specs.Basis.{words, after_lines};
    ghost use Rattle.evaluation.specs.Padded.{padded};

    // The words of the first line, zeros behind them.
    pub(crate) fn first(self, columns: usize) -> [u32; 5]
        requires { columns ≤ 5 }
        ensures { result ≡ padded columns (words columns (drop self.entry.at self.entry.text.now)) }
    {
        let mut words = [0u32; 5];
        let _ = read_line(self.text, self.at, &mut words[..columns]);
        words
    }

    // The lines after so many.
    pub(crate) fn after(self, count: u32, columns: usize) -> Lines<'a>
        requires { columns ≤ 5 }
        ensures text { result.text.now ≡ self.entry.text.now }
        ensures rest { drop result.at result.text.now ≡ after_lines columns count (drop self.entry.at self.entry.text.now) }
    {
        // `as`: there is no From<u32> for usize, and no u32 is too large for one.
        let bytes = count as usize * (WIDTH * columns + 1);
        Lines {
            text: self.text,
            at: self.at.saturating_add(bytes),
        }
    }
}

// The terms in n variables of so many lines.
#[derive(Clone, Copy)]
pub(crate) struct Terms<'a> {
    pub lines: Lines<'a>,
    pub n: usize,
    pub left: u32,
    pub ghost few: { n ≤ 4 },
}

impl Iterator for Terms<'_> {
    ghost use Rattle.evaluation.specs.Padded.{terms_left};

    type Item = [u32; 5];

    ghost next_gives = { YieldsFirst terms_left };

    ghost remaining = { λ s. at_most s.left };

    fn next(&mut self) -> Option<[u32; 5]> {
        self.left = self.left.checked_sub(1)?;
        let words = self.lines.first(self.n + 1);
        self.lines = self.lines.after(1, self.n + 1);
        Some(words)
    }
}
