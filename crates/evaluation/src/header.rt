// A text whose header was read: its field is found, and nothing else of it is asked yet.
ghost use Rattle.std.specs.Prelude.{◌≡◌, ◌≤◌, length};

use column::Reader;

// The text after its header, and what the header says: order code, number of variables and count of
// polynomials.
#[derive(Clone, Copy)]
pub(crate) struct Header<'a> {
    pub rest: Reader<'a>,
    // a number: the order's code is asked and never used, so that an order's type would name nothing here
    pub order: u32,
    pub n: u32,
    pub count: u32,
    pub ghost short: { length rest.text.now ≤ 8192 },
    pub ghost at: { rest.place.at ≡ 45 },
    pub ghost line: { rest.place.line ≡ 2 },
}
