// What is refused where a text is read. Number, layer, line and place of each case are defined in
// specs/Faults.antt; lines count from 1.
ghost use Rattle.std.specs.Prelude.{◌≡◌};
ghost use Rattle.text.specs.declared.fault.TextFault.TheVariants.{Job};

use column::LineFault;
use polynomials::JobFault;

mod print;
pub mod report;

#[derive(Clone, Copy, PartialEq, Eq, Debug)]
pub enum TextFault {
    // a line does not read, by the line
    Line(LineFault, usize),
    // the job is closed, or holds polynomials
    NotEmpty,
    // the header's number of variables is not the job's
    OtherVariables,
    // what the job refuses, by the line that it is about, 0 where that is none
    Job(JobFault, usize),
}

impl From<JobFault> for TextFault {
    ghost from_gives = { λ e r. r ≡ Job e 0 };

    fn from(fault: JobFault) -> TextFault {
        TextFault::Job(fault, 0)
    }
}
