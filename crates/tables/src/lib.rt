// The tables of a closed job: staircase, places of products and border columns, which together are
// its multiplication matrices. Nothing here allocates.
#![tactic(auto)]

mod below;
mod columns;
mod products;
pub mod tables;

pub use tables::Tables;
