// The header of a basis text, its first line.
ghost use Rattle.std.specs.Prelude.{◌≡◌};
ghost use Rattle.runs.specs.Text.{line_asks};
ghost use Rattle.text.specs.Asked.{Asked, header_of};

use crate::TextFault;
use column::read_line;

// Field code, order code, number of variables and count of polynomials.
pub fn header(bytes: &[u8]) -> Result<(u32, u32, u32, u32), TextFault>
    ensures value { result ≡ header_of bytes.now }
    ensures asked { Asked (line_asks 1 4 bytes.now) result }
{
    let mut words = [0u32; 4];
    read_line(bytes, 0, &mut words).map_err(|fault| TextFault::Line(fault, 1))?;
    let [field, order, n, count] = words;
    Ok((field, order, n, count))
}
