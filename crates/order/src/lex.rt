// LEX: the larger exponent of the highest variable where the two differ is greater.
ghost use Rattle.order.specs.Orders.{lex};
ghost use Rattle.order.specs.OrderLaws.{lex_laws};

use crate::{Monomial, Order};
use std::cmp::Ordering;

#[derive(Clone, Copy, PartialEq, Eq, Debug)]
pub struct Lex;

impl Order for Lex {
    ghost meaning = { λ _. lex };

    ghost lawful = { λ o. lex_laws };

    #[tactic(auto, using(crate::specs::Exponents::small_fields))]
    fn compare(&self, a: Monomial, b: Monomial) -> Ordering {
        a.highest_first().cmp(&b.highest_first())
    }
}
