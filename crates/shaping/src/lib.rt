// From a basis text and a request to the basis shaped in the variable that is asked for, as bytes.
// answer.rt has the questions in their order, basis.rt those of the basis text, request.rt those of what
// follows it, fault.rt what is refused, rows.rt what is printed. Nothing is stored, nothing allocated.
#![tactic(auto)]

pub mod answer;
mod basis;
pub mod fault;
mod request;
mod rows;
pub mod theorem;

pub use answer::{LONGEST_ANSWER, answer_to};
pub use fault::ShapeFault;
