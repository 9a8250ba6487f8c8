// The staircase of leading monomials, its border and the places of the products, under any order,
// over lent lists of monomials or lists of a fixed capacity. Nothing here allocates or holds state.
#![tactic(auto)]

pub mod edges;
pub mod products;
pub mod rules;
pub mod search;
mod sorting;
pub mod stairs;
mod walk;

pub use edges::{border, border_into};
pub use products::places;
pub use rules::{Term, next_column, opposite_column};
pub use search::{any_divides, place_of};
pub use stairs::{StairsFault, TooMany, staircase, staircase_into};
