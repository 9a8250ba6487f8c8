// The place of a line in a text.
ghost use Rattle.std.specs.Prelude.{◌+◌, ◌≤◌};

// The first byte of a line, and the number of the line, from 1.
// Not one with linear's `Place`: that one is the place of a product, and has no line and no bytes.
#[derive(Clone, Copy, PartialEq, Eq, Debug)]
pub struct Place {
    pub at: usize,
    pub line: usize,
    // each line before this one has a byte of its own
    pub ghost counted: { line ≤ at + 1 },
}

impl Place {
    // The first line of a text.
    pub const START: Place = Place { at: 0, line: 1 };
}
