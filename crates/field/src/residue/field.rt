// The residues as a field.
ghost use Rattle.std.specs.Prelude.{◌≡◌, ◌*◌, ◌%◌, ◌<◌, T};
ghost use Rattle.field.specs.Meaning.{total};
ghost use Rattle.field.specs.Primes.{listed};
ghost use Rattle.field.specs.Residues.{residues};
ghost use Rattle.field.specs.ResidueLaws.{residue_laws};
ghost use Rattle.field.specs.Total.{total_everywhere};

use crate::Field;
use crate::residue::Residue;

impl Field for Residue {
    ghost meaning = { λ f. total (residues f.p) };

    ghost lawful = { λ f. residue_laws f.p f.prime };

    ghost everywhere = { λ f. total_everywhere (residues f.p) };

    fn contains(&self, w: u32) -> bool {
        w < self.p
    }

    fn zero(&self) -> u32 {
        0
    }

    fn one(&self) -> u32 {
        1
    }

    fn add(&self, a: u32, b: u32) -> u32 {
        if self.contains(a) && self.contains(b) {
            // `as`: a remainder by a u32 is one, and of `try_from` the refusal would never come.
            ((u64::from(a) + u64::from(b)) % u64::from(self.p)) as u32
        } else {
            0
        }
    }

    fn mul(&self, a: u32, b: u32) -> u32 {
        if self.contains(a) && self.contains(b) {
            // `as`: a remainder by a u32 is one, and of `try_from` the refusal would never come.
            (u64::from(a) * u64::from(b) % u64::from(self.p)) as u32
        } else {
            0
        }
    }

    fn neg(&self, a: u32) -> u32 {
        if self.contains(a) {
            (self.p - a) % self.p
        } else {
            0
        }
    }

    fn inverse(&self, a: u32) -> Option<u32> {
        // Not `is_nonzero_element`: from a method of the trait itself the borrow checker follows no call back to this block.
        (self.contains(a) && a != 0).then(|| inverse_modulo(self.p, a))
    }
}

// The number below `p` whose product with `a` leaves 1, divided by `p`.
fn inverse_modulo(p: u32, a: u32) -> u32
    requires prime { T (listed p) }
    requires range { (0 < a) × (a < p) }
    ensures { (result < p) × ((a * result) % p ≡ 1) }
{
    if a == 1 {
        1
    } else {
        let s = inverse_modulo(p, p % a);
        // `as`: a remainder by a u32 is one, and of `try_from` the refusal would never come.
        (u64::from(p / a) * u64::from(p - s) % u64::from(p)) as u32
    }
}
