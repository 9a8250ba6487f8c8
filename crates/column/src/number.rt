// One number in eleven bytes: blanks, then its decimal digits.
// Reads the bytes that it is given, and writes only the eleven bytes of a column.
ghost use Rattle.std.specs.Prelude.{◌≡◌, ◌+◌, ◌≤◌, length, nat_le};
ghost use Rattle.column.specs.Column.{column, reading, Reads};
ghost use Rattle.column.specs.Front.{digit, longer, step};
ghost use Rattle.column.specs.Place.{after, placed, put};

// The bytes of a column.
pub const WIDTH: usize = 11;

// The digit that a byte is.
fn digit(byte: u8) -> Option<u32>
    ensures { result ≡ digit byte }
{
    match byte {
        b'0'..=b'9' => Some(u32::from(byte - b'0')),
        _ => None,
    }
}

// The number that one more digit makes of a number that was read; none goes on after a zero.
fn next_digit(number: u32, byte: u8) -> Option<u32>
    ensures { result ≡ longer number byte }
{
    let digit = digit(byte)?;
    if number == 0 {
        return None;
    }
    number.checked_mul(10)?.checked_add(digit)
}

// What the bytes of a column come to with one more: the number, None inside while they are blanks;
// None where no column goes on so.
fn and_byte(front: Option<u32>, byte: u8) -> Option<Option<u32>>
    ensures { result ≡ step front byte }
{
    match front {
        None if byte == b' ' => Some(None),
        None => Some(Some(digit(byte)?)),
        Some(number) => Some(Some(next_digit(number, byte)?)),
    }
}

// The number whose column the bytes are, if there is one.
pub fn read_column(bytes: &[u8]) -> Option<u32>
    ensures exact { Reads bytes.now result }
    ensures value { result ≡ reading bytes.now }
{
    if bytes.len() != WIDTH {
        return None;
    }
    let mut front = None;
    for byte in bytes {
        front = and_byte(front, *byte)?;
    }
    front
}

// The column of a number: its digits, last to first, over blanks.
fn column_of(number: u32) -> [u8; WIDTH]
    ensures { result ≡ column number }
{
    // By hand: what std promises of formatted text leaves open that a text that fits is cut, or that writing it fails.
    let mut bytes = [b' '; WIDTH];
    let mut rest = number;
    let mut place = WIDTH;
    // A loop: how many digits there are is known at the last. `as`: no digit is too large for a byte.
    while rest >= 10 {
        place -= 1;
        bytes[place] = b'0' + (rest % 10) as u8;
        rest /= 10;
    }
    bytes[place - 1] = b'0' + rest as u8;
    bytes
}

// Writes the column of a number at a place that has room for it.
pub(crate) fn put_column(out: &mut [u8], at: usize, number: u32)
    requires { at + 11 ≤ length out.old }
    ensures { out.new ≡ put out.old at (column number) }
{
    out[at..at + WIDTH].copy_from_slice(&column_of(number));
}

// Whether a column fits between a place and the end.
fn column_fits(out: &[u8], at: usize) -> bool
    ensures { result ≡ nat_le (at + 11) (length out.now) }
{
    at <= out.len() && out.len() - at >= WIDTH
}

// Writes the column of a number at a place and answers the place after it, or None where there is no room.
pub fn write_column(out: &mut [u8], at: usize, number: u32) -> Option<usize>
    ensures place_after { result ≡ after out.old at (column number) }
    ensures rest_unchanged { out.new ≡ placed out.old at (column number) }
{
    if !column_fits(out, at) {
        return None;
    }
    put_column(out, at, number);
    Some(at + WIDTH)
}
