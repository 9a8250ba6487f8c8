// DRL: the larger degree is greater; at equal degrees the smaller exponent of the lowest variable where
// the two differ is greater.
ghost use Rattle.order.specs.Orders.{drl};
ghost use Rattle.order.specs.OrderLaws.{drl_laws};

use crate::{Monomial, Order};
use std::cmp::Ordering;

#[derive(Clone, Copy, PartialEq, Eq, Debug)]
pub struct Drl;

impl Order for Drl {
    ghost meaning = { λ _. drl };

    ghost lawful = { λ o. drl_laws };

    fn compare(&self, a: Monomial, b: Monomial) -> Ordering {
        a.degree()
            .cmp(&b.degree())
            .then_with(|| b.lowest_first().cmp(&a.lowest_first()))
    }
}
