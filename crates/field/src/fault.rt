// What a field refuses. Number, layer and place of each case are defined in specs/Faults.antt.
pub mod report;

#[derive(Clone, Copy, PartialEq, Eq, Debug)]
pub enum FieldFault {
    OutOfRange,
    NotListed,
}
