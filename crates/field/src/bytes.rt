// The field of the 256 bytes: polynomials over the bits modulo x^8 + x^4 + x^3 + x + 1, as FIPS 197
// has them in section 4.2. The loops below may be touched; what they compute is in specs/Bytes.antt.
ghost use Rattle.std.specs.Prelude.{◌≡◌, ◌^◌, ◌<◌};
ghost use Rattle.field.specs.Bytes.{poly_product, poly_remainder, byte_product, power_254, ProductDivides, ByteExamples};

pub mod field;

#[derive(Clone, Copy)]
pub struct ByteField;

// The product of the polynomials `a` and `b`.
// Words below 256 and not u8: the words of a field are u32, and each call would convert there and back.
fn multiplied(a: u32, b: u32) -> u32
    requires { (a < 256) × (b < 256) }
    ensures { (result ≡ poly_product 8 a b) × (result < 2 ^ 16) }
{
    let mut r: u32 = 0;
    // Over no items: `i` is the power of x whose coefficient is read.
    for i in (0..8u32).rev() {
        r = ((b >> i) % 2 * a) ^ (r * 2);
    }
    r
}

// What the polynomial `n` leaves, divided by the modulus.
fn reduced(n: u32) -> u32
    requires { n < 2 ^ 16 }
    ensures { result ≡ poly_remainder 7 n }
{
    let mut r = n;
    // Over no items: `k` is the power of x by which the modulus is shifted.
    for k in (0..7u32).rev() {
        r ^= (r >> (8 + k)) % 2 * (283 << k);
    }
    r
}

fn times(a: u32, b: u32) -> u32
    requires { (a < 256) × (b < 256) }
    ensures { (result ≡ byte_product a b) × (result < 256) }
{
    reduced(multiplied(a, b))
}

// `a` to the power 254, by squares and products.
fn power(a: u32) -> u32
    requires { a < 256 }
    ensures { result ≡ power_254 a }
{
    let a2 = times(a, a);
    let a3 = times(a2, a);
    let a6 = times(a3, a3);
    let a12 = times(a6, a6);
    let a15 = times(a12, a3);
    let a30 = times(a15, a15);
    let a60 = times(a30, a30);
    let a120 = times(a60, a60);
    let a240 = times(a120, a120);
    times(times(a240, a12), a2)
}

// The product is the remainder of a division of polynomials, and the published examples hold.
pub fn product_is_a_remainder() -> u8
    ensures divides { ProductDivides }
    ensures examples { ByteExamples }
{
    0
}
