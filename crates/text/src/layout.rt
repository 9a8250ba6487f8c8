// How the terms of a text are laid out in lines: by the number of variables.
ghost use Rattle.std.specs.Prelude.{◌≤◌};
ghost use Rattle.order.specs.Monomials.{variables};

use column::WIDTH;

// The bytes of the header.
pub(crate) const HEADER_LINE: usize = 4 * WIDTH + 1;

// A line has a column for the coefficient and one for the exponent of each variable.
#[derive(Clone, Copy)]
pub(crate) struct Layout {
    pub n: usize,
    pub ghost few: { n ≤ variables },
}
