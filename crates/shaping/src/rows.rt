// What is printed for a basis: a line of 0, n, D and k, then a row of D words for each variable.
// Writes only what it is lent.
ghost use Rattle.std.specs.Prelude.{◌≡◌, ◌+◌, ◌*◌, ◌≤◌, length};
ghost use Rattle.column.specs.Place.{put};
ghost use Rattle.shaping.specs.Answer.{rows, basis_lines};

use column::write_line;

// Room for four rows of 48 words.
pub(crate) const MOST_WORDS: usize = 192;

// A basis as it is printed: n, D and k, and the words of its rows at the front of a longer list.
#[derive(Clone, Copy)]
pub(crate) struct Basis {
    pub n: u32,
    pub size: u32,
    pub k: u32,
    pub words: [u32; MOST_WORDS],
    pub ghost few: { n ≤ 4 },
    pub ghost within: { n * size ≤ 192 },
}

impl Basis {
    // Writes the rows at a place that has room for them, and answers the place after them.
    fn write_rows(&self, out: &mut [u8], at: usize) -> usize
        requires room { at + self.now.n * (11 * self.now.size + 1) ≤ length out.old }
        ensures end { result ≡ at + length (rows self.now.size self.now.n self.now.words) }
        ensures after { result ≡ at + self.now.n * (11 * self.now.size + 1) }
        ensures bytes { out.new ≡ put out.old at (rows self.now.size self.now.n self.now.words) }
    {
        let mut end = at;
        let mut left = self.words.as_slice();
        // Over no items: the words of a row are only where those of the row before end.
        for _i in 0..self.n {
            // A word fits a usize: `as` keeps it, and Rust has no `From` there.
            let (row, rest) = left.split_at(self.size as usize);
            end = write_line(out, end, row).unwrap_or(end);
            left = rest;
        }
        end
    }

    // Writes the lines of the basis at the front of `out`, which has room for them, and answers how many bytes.
    pub(crate) fn write(&self, out: &mut [u8]) -> usize
        requires room { 2161 ≤ length out.old }
        ensures end { result ≡ length (basis_lines self.now.n self.now.size self.now.k self.now.words) }
        ensures within { result ≤ 2161 }
        ensures bytes { out.new ≡ put out.old 0 (basis_lines self.now.n self.now.size self.now.k self.now.words) }
    {
        let first = write_line(out, 0, &[0, self.n, self.size, self.k]).unwrap_or(0);
        self.write_rows(out, first)
    }
}
