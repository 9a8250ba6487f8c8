// Orders that move the exponents before they compare. Only `Renumbered::new` makes one, so that each
// holds a rearrangement.
ghost use Rattle.std.specs.Prelude.{T, ◌≡◌, ⊤};
ghost use Rattle.order.specs.Rearrangements.{rearranges};

use crate::Rearrangement;
use std::alloc::AllocError;

pub mod making;

pub struct Renumbered<O> {
    below: O,
    rearrangement: Rearrangement,
    ghost ok: { T (rearranges rearrangement) },
}

// By hand: a derive refuses a struct with a type parameter and a ghost field.
impl<O: Copy> Clone for Renumbered<O> {
    ghost is_clone = { λ x y. y ≡ x };

    ghost is_infallible = { λ _. ⊤ };

    fn clone(&self) -> Result<Renumbered<O>, AllocError> {
        Ok(*self)
    }
}

// By hand, as `Clone` is.
impl<O: Copy> Copy for Renumbered<O> {}
