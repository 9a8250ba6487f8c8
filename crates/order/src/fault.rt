// The refusal of this crate, with the number, the layer and the place that it carries.
ghost use Rattle.std.specs.Prelude.{◌≡◌};
ghost use Rattle.order.specs.Faults as def;

// Beside those of `FieldFault`: the crates of fields and of orders know nothing of each other.
const ORDER_LAYER: u32 = 2;

const NO_PLACE: u32 = 0;

#[derive(Clone, Copy, PartialEq, Eq, Debug)]
pub enum OrderFault {
    NoRearrangement,
}

// Like those of other faults in shape alone: each is a table of its own cases and numbers.
impl OrderFault {
    pub fn number(self) -> u32
        ensures { result ≡ def.number self }
    {
        match self {
            OrderFault::NoRearrangement => 3,
        }
    }

    pub fn layer(self) -> u32
        ensures { result ≡ def.layer self }
    {
        ORDER_LAYER
    }

    pub fn place(self) -> u32
        ensures { result ≡ def.place self }
    {
        NO_PLACE
    }
}
