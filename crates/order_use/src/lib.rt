// A question to a list of monomials under any order, answered by the order's laws.
#![tactic(auto)]

ghost use Rattle.std.specs.Prelude.{◌≡◌, length, Some, None};
ghost use Rattle.order.specs.Laws.{Falling};
ghost use Rattle.order_use.specs.Lists.{listed, unfalling};

use order::{Monomial, Order};

// The first index whose monomial is not less than the one before it.
pub fn first_not_falling<O: Order>(order: &O, list: &[Monomial]) -> Option<usize>
    ensures first { result ≡ unfalling (O.Order.meaning order.now) list.now }
    ensures else_falling { result ≡ None → Falling (O.Order.meaning order.now) (listed list.now) (length list.now) }
{
    let mut neighbours = list.iter().zip(list.iter().skip(1));
    let before = neighbours.position(|(m, next)| !order.compare(*next, *m).is_lt())?;
    Some(before + 1)
}
