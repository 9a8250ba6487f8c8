// Column text: numbers in columns of eleven bytes, and lines of such columns.
// Reads and writes bytes that the caller lends; allocates nothing, keeps nothing, and every call answers on every input.
#![tactic(auto)]

pub mod laws;
mod line;
mod number;
mod place;
mod reader;

pub use line::{LineFault, read_line, write_line};
pub use number::{WIDTH, read_column, write_column};
pub use place::Place;
pub use reader::Reader;
