// Basis texts: Header, Fill of an empty job and Write of a job's polynomials. Bytes are read where they
// stand and written where the caller lends them; nothing here allocates.
#![tactic(auto)]

pub mod fault;
pub mod filling;
pub mod first_line;
mod layout;
pub mod reading;
mod term;
pub mod writing;

pub use fault::TextFault;
pub use filling::fill;
pub use first_line::header;
pub use writing::write;
