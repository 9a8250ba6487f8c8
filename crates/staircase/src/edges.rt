// The border of a staircase, in increasing order: at the front of a lent list, or as a list of a
// fixed capacity.
ghost use Rattle.std.specs.Prelude.{◌≡◌, ◌+◌, ◌≤◌, length, take, Some, IfSome, IfNone, MatchOption};
ghost use Rattle.std.specs.List.{ContainsAt as Has};
ghost use Rattle.order.specs.declared.monomial.Monomial.{Monomial as Record};
ghost use Rattle.order.specs.Monomials as def;
ghost use Rattle.staircase.specs.Edges.{Raisable, BorderAnswer, BorderWritten, PastStays, StairsRaisable, Edges, EdgesPast};

use crate::TooMany;
use crate::search::place_of;
use crate::sorting::insert;
use crate::stairs::front;
use arrayvec::ArrayVec;
use order::{Monomial, Order};

// The product of `m` and the variable of index `k`, where it is outside `stairs`.
fn outside(k: usize, stairs: &[Monomial], m: Monomial) -> Option<Monomial>
    ensures { MatchOption result ((t : Record) → def.raised k m ≡ Some t → Has stairs.now t) (λ t. (def.raised k m ≡ Some t) × (Has stairs.now t → ⊥)) }
{
    m.raised(k).filter(|t| place_of(stairs, *t).is_none())
}

// Puts the products of the variable of index `k` that are outside into the increasing first `count`
// of `edges`, and says how many there are then: none where there is no room for them.
fn add_products<O: Order>(
    order: &O,
    k: usize,
    stairs: &[Monomial],
    edges: &mut [Monomial],
    count: usize,
) -> Option<usize>
    requires room { count ≤ length edges.old }
    requires edges { Edges (O.Order.meaning order.now) stairs.now k 0 (take count edges.old) }
    ensures fits { IfSome result (λ c. (count ≤ c) × (c ≤ length edges.old)) }
    ensures edges { IfSome result
        (λ c. Edges (O.Order.meaning order.now) stairs.now (k + 1) 0 (take c edges.new)) }
    ensures rest_unchanged { PastStays edges.old edges.new result }
    ensures full { IfNone result
        (EdgesPast (O.Order.meaning order.now) stairs.now k (length edges.old)) }
{
    let mut count = count;
    for m in stairs {
        let Some(t) = outside(k, stairs, *m) else {
            continue;
        };
        count = insert(order, edges, count, t)?;
    }
    Some(count)
}

// The products of a monomial of `stairs` and one of the first `n` variables that are outside, in
// increasing order at the front of `edges`, and how many there are: none where there is no room for
// all, and then what `edges` holds is not said.
pub fn border_into<O: Order>(
    order: &O,
    n: usize,
    stairs: &[Monomial],
    edges: &mut [Monomial],
) -> Option<usize>
    ensures border { Raisable n stairs.now →
        BorderWritten (O.Order.meaning order.now) n stairs.now edges.old edges.new result }
    ensures rest_unchanged { PastStays edges.old edges.new result }
{
    let mut written = 0;
    // By number: a variable has no other name.
    for k in 0..n {
        written = add_products(order, k, stairs, edges, written)?;
    }
    Some(written)
}

// The products of a monomial of `stairs` and one of the first `n` variables that are outside, in
// increasing order.
pub fn border<O: Order, const CAP: usize>(
    order: &O,
    n: usize,
    stairs: &[Monomial],
) -> Result<ArrayVec<Monomial, CAP>, TooMany>
    ensures { Raisable n stairs.now → BorderAnswer (O.Order.meaning order.now) n stairs.now CAP result }
{
    let mut edges = [Monomial::ONE; CAP];
    let count = border_into(order, n, stairs, &mut edges).ok_or(TooMany)?;
    Ok(front(edges, count))
}

// A staircase is such a list, so that its border is what `border` answers and `border_into` writes.
pub fn staircases_can_be_raised() -> u8
    ensures { StairsRaisable }
{
    0
}
