// The job: a field, an order, the polynomials entered and, once it is closed, its tables; and its
// calls. Whatever a call answers is an answer of the definitions in crate `runs`, and every run of
// calls is whole. Nothing here allocates.
#![tactic(auto)]

pub mod job;
pub mod table;

pub use job::Job;
pub use polynomials::{JobFault, Term};
