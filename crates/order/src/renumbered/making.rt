// The making of a renumbered order, which may refuse, and its comparison.
ghost use Rattle.std.specs.Prelude.{◌≡◌};
ghost use Rattle.order.specs.Renumberings as def;
ghost use Rattle.order.specs.Moves.{renumbered_laws};

use crate::{Monomial, Order, OrderFault, Rearrangement, Renumbered};
use std::cmp::Ordering;

impl<O: Drop> Renumbered<O> {
    pub fn new(below: O, rearrangement: Rearrangement) -> Result<Renumbered<O>, OrderFault>
        ensures { result ≡ def.renumbered below rearrangement }
    {
        if rearrangement.is_rearrangement() {
            Ok(Renumbered {
                below,
                rearrangement,
            })
        } else {
            Err(OrderFault::NoRearrangement)
        }
    }
}

impl<O: Order> Order for Renumbered<O> {
    ghost meaning = { λ o. def.renumbers (O.Order.meaning o.below) o.rearrangement };

    ghost lawful = { λ o. renumbered_laws o.rearrangement o.ok _ (O.Order.lawful o.below) };

    #[tactic(auto, using(crate::specs::Exponents::small_fields))]
    fn compare(&self, a: Monomial, b: Monomial) -> Ordering {
        self.below
            .compare(self.rearrangement.moved(a), self.rearrangement.moved(b))
    }
}
