// Linear algebra over words, one text for every field: dot product, multiple of a row, matrix step,
// elimination and least recurrence length, with the theory of recurrences and Hankel tables that they
// rest on. Nothing is allocated: an echelon has its own memory; the elimination without one, and the
// recurrence, work in what is lent.
#![tactic(auto)]

pub mod dot;
pub mod elimination;
pub mod multiple;
pub mod recurrence;
pub mod step;
pub mod theory;
