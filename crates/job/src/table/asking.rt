// The making of a table, the question whether its job is open or closed, and opening it again.
ghost use Rattle.std.specs.Prelude.{◌≡◌, ◌≤◌, Some, None, Ok, Err};
ghost use Rattle.polynomials.specs.declared.fault.JobFault.TheVariants.{NotOpen, NotClosed};
ghost use Rattle.runs.specs.Job as def;
ghost use Rattle.job.specs.State.{state};

use crate::JobFault;
use crate::table::Table;
use polynomials::Polynomials;
use tables::Tables;

impl Table {
    // That of a new job of n variables.
    pub(crate) fn new(n: usize) -> Table
        requires some { 1 ≤ n }
        requires few { n ≤ 4 }
        ensures { state result ≡ def.new n }
    {
        Table {
            n,
            polynomials: Polynomials::new(),
            tables: None,
        }
    }

    // Whether the job is open.
    pub(crate) fn ask_open(&self) -> Result<(), JobFault>
        ensures { elim result [ Ok _ ↦ (state self.now).stage ≡ def.opened | Err f ↦ ((state self.now).stage ≡ def.closed) × (f ≡ NotOpen) ] }
    {
        if self.tables.is_some() {
            return Err(JobFault::NotOpen);
        }
        Ok(())
    }

    // The tables, which a closed job has.
    pub(crate) fn ask_closed(&self) -> Result<&Tables, JobFault>
        ensures { elim result [ Ok t ↦ self.now.tables ≡ Some t.now | Err f ↦ (self.now.tables ≡ None) × (f ≡ NotClosed) ] }
    {
        self.tables.as_ref().ok_or(JobFault::NotClosed)
    }
}

// Takes the tables out of their place. A function of its own, since it writes all of their room.
fn empty(place: &mut Option<Tables>)
    ensures { place.new ≡ None }
{
    *place = None;
}

// The same, and writes nothing where there are none: the job that has them there is open.
pub(crate) fn take_out(place: &mut Option<Tables>)
    ensures { place.new ≡ None }
{
    if place.is_some() {
        empty(place);
    }
}
