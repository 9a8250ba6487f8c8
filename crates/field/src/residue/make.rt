// Making a residue field of any 32-bit number, or refusing it.
ghost use Rattle.std.specs.Prelude.{◌≡◌, Ok, Err, MatchResult};
ghost use Rattle.field.specs.Primes.{listed};
ghost use Rattle.field.specs.Faults.{residue_of};

use crate::FieldFault;
use crate::residue::Residue;

// The moduli that a residue field may have.
const PRIMES: [u32; 10] = [2, 3, 5, 7, 23, 251, 257, 32003, 65521, 2147483647];

fn is_listed(p: u32) -> bool
    ensures { result ≡ listed p }
{
    PRIMES.contains(&p)
}

impl Residue {
    pub fn new(p: u32) -> Result<Residue, FieldFault>
        ensures made { MatchResult result (λ f. residue_of p ≡ Ok f.p) (λ e. residue_of p ≡ Err e) }
    {
        if !(2..=2147483647).contains(&p) {
            return Err(FieldFault::OutOfRange);
        }
        if !is_listed(p) {
            return Err(FieldFault::NotListed);
        }
        Ok(Residue { p })
    }

    pub fn modulus(&self) -> u32
        ensures { result ≡ self.now.p }
    {
        self.p
    }
}
