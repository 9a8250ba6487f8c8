// What a fault reports: number, layer, line and place, as the program prints them.
ghost use Rattle.std.specs.Prelude.{◌≡◌};
ghost use Rattle.shaping.specs.Faults.{number_of, layer_at, line_of, place_of};

use crate::fault::ShapeFault;

const PROGRAM_LAYER: u32 = 4;

impl ShapeFault {
    pub fn number(self) -> u32
        ensures { result ≡ number_of self }
    {
        match self {
            ShapeFault::TooLong => 32,
            ShapeFault::Field(fault) => fault.number(),
            ShapeFault::OrderCode => 31,
            ShapeFault::Text(fault) => fault.number(),
            ShapeFault::NotOver => 30,
        }
    }

    // A fault from below is carried whole, and keeps its layer.
    pub fn layer(self) -> u32
        ensures { result ≡ layer_at (number_of self) }
    {
        match self {
            ShapeFault::Field(fault) => fault.layer(),
            ShapeFault::Text(fault) => fault.layer(),
            ShapeFault::TooLong | ShapeFault::OrderCode | ShapeFault::NotOver => PROGRAM_LAYER,
        }
    }

    // 0 where the fault is about no line.
    pub fn line(self) -> usize
        ensures { result ≡ line_of self }
    {
        match self {
            ShapeFault::Field(_) | ShapeFault::OrderCode => 1,
            ShapeFault::Text(fault) => fault.line(),
            ShapeFault::TooLong | ShapeFault::NotOver => 0,
        }
    }

    pub fn place(self) -> usize
        ensures { result ≡ place_of self }
    {
        match self {
            ShapeFault::Text(fault) => fault.place(),
            _ => 0,
        }
    }
}
