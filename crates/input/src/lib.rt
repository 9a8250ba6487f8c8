// Standard input as bytes, for programs that answer a text: as much of it as the buffer holds.
#![tactic(auto)]

ghost use Rattle.std.specs.Prelude.{◌≤◌, length, IfOk};

use std::io;
use std::io::Read;

// Reads standard input to its end, or until the buffer is full.
pub fn read_input(rt: &HostRuntime, input: &mut [u8]) -> io::Result<usize>
    ensures inside { IfOk result (λ n. n ≤ length input.old) }
{
    let mut stdin = rt.stdin();
    let mut end = 0;
    // A loop: read_exact fails at an early end, read_to_end wants a heap, and io::copy bounds no count.
    while end < input.len() {
        let count = stdin.read(&mut input[end..])?;
        if count == 0 {
            break;
        }
        end += count;
    }
    Ok(end)
}
