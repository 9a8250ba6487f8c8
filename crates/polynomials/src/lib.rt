// The polynomials that a job holds, what a job refuses, and the questions put to polynomials: those
// before one is entered, and those about the leading monomials of all. Nothing here allocates.
#![tactic(auto)]

pub mod fault;
pub mod iter;
pub mod leading;
pub mod questions;
pub mod store;

pub use fault::JobFault;
pub use iter::Entries;
pub use staircase::Term;
pub use store::Polynomials;
