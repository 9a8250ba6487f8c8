// The values of a basis's polynomials at a point, from text to text: what a maker needs to check a
// candidate solution against his conditions. answer.rt has the questions in their order, fault.rt
// what is refused; the rest reads the text where it stands. Nothing is stored, nothing allocated.
#![tactic(auto)]

pub mod answer;
mod basis;
mod evaluate;
pub mod fault;
mod header;
mod questions;
mod reading;
mod terms;
mod values;

pub use answer::answer_to;
pub use fault::ProbeFault;
