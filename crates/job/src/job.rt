// What a job is: one field and one order, of any kind, and the table of what was entered and made. Only
// the child modules write the fields.
pub use crate::table::Table;

pub mod answering;
pub mod closing;
pub mod entering;
pub mod making;

// That a job is one as calls leave it is a premise of its calls' promises, and no ghost field: it has more
// proofs than one, as which leading monomial is a power, and a ghost field may have only one.
#[derive(Drop)]
pub struct Job<F, O> {
    field: F,
    order: O,
    table: Table,
}
