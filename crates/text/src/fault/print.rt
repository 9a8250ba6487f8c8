// How a fault of a text is printed.
ghost use Rattle.std.specs.Prelude.{Some};
ghost use Rattle.text.specs.Faults.{shown};

use crate::TextFault;
use std::error::Error;
use std::fmt;

impl fmt::Display for TextFault {
    ghost output = { λ f. Some (shown f) };

    fn fmt<W: fmt::Write>(&self, f: &mut fmt::Formatter<W>) -> fmt::Result {
        let (number, layer) = (self.number(), self.layer());
        let (line, place) = (self.line(), self.place());
        write!(f, "{number} of layer {layer}, line {line} at {place}")
    }
}

impl Error for TextFault {}
