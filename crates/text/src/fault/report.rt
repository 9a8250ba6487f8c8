// What a fault of a text reports: number, layer, line and place; and the fault of a job with another line.
ghost use Rattle.std.specs.Prelude.{◌≡◌};
ghost use Rattle.text.specs.Faults.{number_of, layer_of, line_of, place_of, in_line};

use crate::TextFault;

const TEXT_LAYER: u32 = 3;

// Four matches on one fault: each is another table of numbers, and none follows from another.
impl TextFault {
    pub fn number(self) -> u32
        ensures { result ≡ number_of self }
    {
        match self {
            TextFault::Line(fault, _) => fault.number(),
            TextFault::NotEmpty => 28,
            TextFault::OtherVariables => 29,
            TextFault::Job(fault, _) => fault.number(),
        }
    }

    pub fn layer(self) -> u32
        ensures { result ≡ layer_of self }
    {
        match self {
            TextFault::Job(fault, _) => fault.layer(),
            _ => TEXT_LAYER,
        }
    }

    // 0 where the fault is about no line.
    pub fn line(self) -> usize
        ensures { result ≡ line_of self }
    {
        match self {
            TextFault::Line(_, line) | TextFault::Job(_, line) => line,
            TextFault::NotEmpty => 0,
            TextFault::OtherVariables => 1,
        }
    }

    pub fn place(self) -> usize
        ensures { result ≡ place_of self }
    {
        match self {
            TextFault::Line(_, line) => line,
            TextFault::Job(fault, _) => fault.place(),
            _ => 0,
        }
    }

    // The fault with another line, where it is one of a job.
    pub fn in_line(self, line: usize) -> TextFault
        ensures { result ≡ in_line self line }
    {
        match self {
            TextFault::Job(fault, _) => TextFault::Job(fault, line),
            other => other,
        }
    }
}
