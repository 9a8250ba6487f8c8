// What a fault of a field reports: number, layer and place.
ghost use Rattle.std.specs.Prelude.{◌≡◌};
ghost use Rattle.field.specs.Faults.{number_of, layer_of, place_of};

use crate::FieldFault;

// Beside those of `OrderFault`: the crates of fields and of orders know nothing of each other.
const FIELD_LAYER: u32 = 1;

const NO_PLACE: u32 = 0;

// Like those of other faults in shape alone: each is a table of its own cases and numbers.
impl FieldFault {
    pub fn number(self) -> u32
        ensures { result ≡ number_of self }
    {
        match self {
            FieldFault::OutOfRange => 1,
            FieldFault::NotListed => 2,
        }
    }

    pub fn layer(self) -> u32
        ensures { result ≡ layer_of self }
    {
        FIELD_LAYER
    }

    pub fn place(self) -> u32
        ensures { result ≡ place_of self }
    {
        NO_PLACE
    }
}
