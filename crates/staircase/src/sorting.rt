// Increasing lists of monomials under any order: insertion into the front of a lent list, and
// sorting. A monomial that is there already is not put in again.
ghost use Rattle.std.specs.Prelude.{◌≡◌, ◌+◌, ◌<◌, ◌≤◌, length, take, insert, IfSome, IfNone, MatchResult};
ghost use Rattle.staircase.specs.Sorting.{inserted_by, sorted_by};
ghost use Rattle.staircase.specs.Edges.{PastStays};

use order::{Monomial, Order};
use std::cmp::Ordering;

// The place of `m` in an increasing list, or the one that it would have: that of the first not less.
// Not `binary_search_by`: tried, and open stayed that the list is in order, of which insertion knows nothing.
fn place<O: Order>(order: &O, list: &[Monomial], m: Monomial) -> Result<usize, usize>
    ensures { MatchResult result (λ _. inserted_by (O.Order.meaning order.now) m list.now ≡ list.now) (λ at. (at ≤ length list.now) × (inserted_by (O.Order.meaning order.now) m list.now ≡ insert list.now at m)) }
{
    for (i, x) in list.iter().enumerate() {
        match order.compare(m, *x) {
            Ordering::Less => return Err(i),
            Ordering::Equal => return Ok(i),
            Ordering::Greater => {}
        }
    }
    Err(list.len())
}

// Puts `m` into the increasing first `count` of `list`, and says how many there are then: none
// where there is no room for it.
pub(crate) fn insert<O: Order>(
    order: &O,
    list: &mut [Monomial],
    count: usize,
    m: Monomial,
) -> Option<usize>
    requires { count ≤ length list.old }
    ensures fits { IfSome result (λ k. (count ≤ k) × (k ≤ count + 1) × (k ≤ length list.old)) }
    ensures inserted { IfSome result
        (λ k. take k list.new ≡ inserted_by (O.Order.meaning order.now) m (take count list.old)) }
    ensures rest_unchanged { PastStays list.old list.new result }
    ensures full { IfNone result (count ≡ length list.old) }
    ensures longer { IfNone result
        (length (inserted_by (O.Order.meaning order.now) m list.old) ≡ count + 1) }
    ensures refused_as_was { IfNone result (list.new ≡ list.old) }
{
    match place(order, &list[..count], m) {
        Ok(_) => Some(count),
        Err(at) => {
            if count == list.len() {
                return None;
            }
            list.copy_within(at..count, at + 1);
            list[at] = m;
            Some(count + 1)
        }
    }
}

// Puts the monomials of `from` into `into` in increasing order, each once, and says how many there
// are then: none only where `into` is shorter than `from`.
pub(crate) fn sort<O: Order>(order: &O, from: &[Monomial], into: &mut [Monomial]) -> Option<usize>
    ensures fits { IfSome result (λ k. k ≤ length into.old) }
    ensures sorted { IfSome result
        (λ k. take k into.new ≡ sorted_by (O.Order.meaning order.now) from.now) }
    ensures rest_unchanged { PastStays into.old into.new result }
    ensures full { IfNone result (length into.old < length from.now) }
{
    let mut count = 0;
    for m in from.iter().rev() {
        count = insert(order, into, count, *m)?;
    }
    Some(count)
}
