// What a fault reports: number, layer, line and place, as the program prints them.
ghost use Rattle.std.specs.Prelude.{◌≡◌};
ghost use Rattle.column.specs.Column.{Word};
ghost use Rattle.std.specs.List.{AllByRecursion};
ghost use Rattle.evaluation.specs.Faults.{number_of, layer_at, line_of, place_of, report_of};

use crate::fault::ProbeFault;

impl ProbeFault {
    pub fn number(self) -> u32
        ensures { result ≡ number_of self }
    {
        match self {
            ProbeFault::TooLong => 32,
            ProbeFault::Line(fault, _) => fault.number(),
            ProbeFault::Field(fault) => fault.number(),
            ProbeFault::OrderCode => 31,
            ProbeFault::Variables => 4,
            ProbeFault::NoTerm(_) => 7,
            ProbeFault::Coefficient(_, _) => 9,
            ProbeFault::Exponent(_, _) => 10,
            ProbeFault::Point(_, _) => 22,
            ProbeFault::NotOver => 30,
        }
    }

    // The layer of the refusal: field, job, text or program.
    fn layer(self) -> u32
        ensures { result ≡ layer_at (number_of self) }
    {
        match self {
            ProbeFault::Field(_) => 1,
            ProbeFault::Variables
            | ProbeFault::NoTerm(_)
            | ProbeFault::Coefficient(_, _)
            | ProbeFault::Exponent(_, _)
            | ProbeFault::Point(_, _) => 2,
            ProbeFault::Line(_, _) => 3,
            ProbeFault::TooLong | ProbeFault::OrderCode | ProbeFault::NotOver => 4,
        }
    }

    pub fn line(self) -> u32
        ensures { result ≡ line_of self }
    {
        match self {
            ProbeFault::Line(_, line)
            | ProbeFault::NoTerm(line)
            | ProbeFault::Coefficient(line, _)
            | ProbeFault::Exponent(line, _)
            | ProbeFault::Point(line, _) => line,
            ProbeFault::Field(_) | ProbeFault::OrderCode | ProbeFault::Variables => 1,
            ProbeFault::TooLong | ProbeFault::NotOver => 0,
        }
    }

    pub fn place(self) -> u32
        ensures { result ≡ place_of self }
    {
        match self {
            ProbeFault::Line(_, line) => line,
            ProbeFault::Coefficient(_, term) | ProbeFault::Exponent(_, term) => term,
            ProbeFault::Point(_, word) => word,
            ProbeFault::Field(fault) => fault.place(),
            _ => 0,
        }
    }

    pub fn report(self) -> [u32; 4]
        ensures value { result ≡ report_of self }
        ensures words { AllByRecursion Word result }
    {
        [self.number(), self.layer(), self.line(), self.place()]
    }
}
