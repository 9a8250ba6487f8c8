// The working parts of Convert and Reduce over the tables of a closed job. Nothing here allocates.
#![tactic(auto)]

pub mod convert;
mod powers;
mod questions;
pub mod reduce;
mod rows;
mod values;
mod work;
