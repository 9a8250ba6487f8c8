// The byte field as a field.
ghost use Rattle.field.specs.Meaning.{total};
ghost use Rattle.field.specs.Bytes.{bytes};
ghost use Rattle.field.specs.ByteLaws.{byte_laws};
ghost use Rattle.field.specs.Total.{total_everywhere};

use crate::Field;
use crate::bytes::{ByteField, power, times};

impl Field for ByteField {
    ghost meaning = { λ _. total bytes };

    ghost lawful = { λ f. byte_laws };

    ghost everywhere = { λ f. total_everywhere bytes };

    fn contains(&self, w: u32) -> bool {
        w < 256
    }

    fn zero(&self) -> u32 {
        0
    }

    fn one(&self) -> u32 {
        1
    }

    // The same test before `mul`, and in the other field: a function of both would take the operation as a closure.
    fn add(&self, a: u32, b: u32) -> u32 {
        if self.contains(a) && self.contains(b) {
            a ^ b
        } else {
            0
        }
    }

    fn mul(&self, a: u32, b: u32) -> u32 {
        if self.contains(a) && self.contains(b) {
            times(a, b)
        } else {
            0
        }
    }

    fn neg(&self, a: u32) -> u32 {
        if self.contains(a) { a } else { 0 }
    }

    fn inverse(&self, a: u32) -> Option<u32> {
        // Not `is_nonzero_element`: from a method of the trait itself the borrow checker follows no call back to this block.
        (self.contains(a) && a != 0).then(|| power(a))
    }
}
