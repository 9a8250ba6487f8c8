// What the program refuses. Number, layer, line and place of each case are defined in specs/Faults.antt.
ghost use Rattle.std.specs.Prelude.{◌≡◌};
ghost use Rattle.evaluation.specs.declared.fault.ProbeFault.TheVariants.{Field};

use column::LineFault;
use field::FieldFault;

pub mod report;

#[derive(Clone, Copy)]
pub enum ProbeFault {
    // the text is over 8,192 bytes
    TooLong,
    // a line does not read
    Line(LineFault, u32),
    Field(FieldFault),
    OrderCode,
    Variables,
    // a polynomial has no term, by the line of its term count
    NoTerm(u32),
    // a coefficient is zero or no element, by the line of the term count and the term
    Coefficient(u32, u32),
    // an exponent is over 48, likewise
    Exponent(u32, u32),
    // a word of the point is no element, by the point's line and the word
    Point(u32, u32),
    // something follows the point
    NotOver,
}

impl From<FieldFault> for ProbeFault {
    ghost from_gives = { λ e r. r ≡ Field e };

    fn from(fault: FieldFault) -> ProbeFault {
        ProbeFault::Field(fault)
    }
}
