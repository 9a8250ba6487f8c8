// Shape: prints a basis shaped in the variable that is asked for, or one refusal. This file only
// carries bytes in and out; the answer is the function `answer_to` of the crate `shaping`.
#![tactic(auto)]

use input::read_input;
use shaping::{LONGEST_ANSWER, answer_to};
use std::io;
use std::io::Write;

// One byte more than the longest text, so that a longer one is seen to be longer.
const LONGEST_INPUT: usize = 8193;

fn main(rt: HostRuntime) -> io::Result<()> {
    let mut input = [0u8; LONGEST_INPUT];
    let end = read_input(&rt, &mut input)?;
    let mut output = [0u8; LONGEST_ANSWER];
    match answer_to(&input[0..end], &mut output) {
        Some(length) => rt.stdout().write_all(&output[0..length]),
        None => Ok(()),
    }
}
