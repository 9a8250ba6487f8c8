// What the program refuses. Number, layer, line and place of each case are defined in specs/Faults.antt.
ghost use Rattle.std.specs.Prelude.{◌≡◌};
ghost use Rattle.shaping.specs.declared.fault.ShapeFault.TheVariants.{Field, Text};

use field::FieldFault;
use text::TextFault;

pub mod report;

#[derive(Clone, Copy, PartialEq, Eq, Debug)]
pub enum ShapeFault {
    // the input is over 8,192 bytes
    TooLong,
    Field(FieldFault),
    OrderCode,
    // of a line, of Fill, or of a job by the line that it is about
    Text(TextFault),
    // something follows the last word
    NotOver,
}

impl From<FieldFault> for ShapeFault {
    ghost from_gives = { λ e r. r ≡ Field e };

    fn from(fault: FieldFault) -> ShapeFault {
        ShapeFault::Field(fault)
    }
}

impl From<TextFault> for ShapeFault {
    ghost from_gives = { λ e r. r ≡ Text e };

    fn from(fault: TextFault) -> ShapeFault {
        ShapeFault::Text(fault)
    }
}
