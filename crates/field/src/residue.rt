// The residues modulo a listed prime. No value exists with another modulus, so that nobody who
// holds one has to show that it is a prime.
ghost use Rattle.std.specs.Prelude.{◌≡◌, T};
ghost use Rattle.field.specs.Primes.{listed};

pub mod field;
pub mod make;

#[derive(Clone, Copy)]
pub struct Residue {
    p: u32,
    ghost prime: { T (listed p) },
}
