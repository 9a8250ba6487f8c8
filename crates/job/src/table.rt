// What a job was given and what it has made: the number of its variables, the polynomials entered and,
// once it is closed, its tables. Only this crate writes the fields.
ghost use Rattle.std.specs.Prelude.{◌≤◌};

use polynomials::Polynomials;
use tables::Tables;

pub mod asking;

#[derive(Drop)]
pub struct Table {
    pub(crate) n: usize,
    pub(crate) polynomials: Polynomials,
    pub(crate) tables: Option<Tables>,
    ghost some: { 1 ≤ n },
    ghost few: { n ≤ 4 },
}
