// The walk from 1: every free monomial but 1 is a variable times a free one, so that the free
// monomials are found by products, in the order in which they come, and the box of exponents is
// never gone through. Writes only the list that it is lent.
ghost use Rattle.std.specs.Prelude.{◌≡◌, ◌≤◌, length, take, IfSome, IfNone};
ghost use Rattle.algebra.specs.Records.{Within};
ghost use Rattle.staircase.specs.Walk.{New, Offered, Good, GoodPast, Grown, Walked};

use crate::search::{any_divides, place_of};
use order::Monomial;

// Puts `m` after the first `count` of `found`, unless it is there or some lead divides it, and says
// how many there are then: none where there is no room for it.
fn offer(leads: &[Monomial], found: &mut [Monomial], count: usize, m: Monomial) -> Option<usize>
    requires { count ≤ length found.old }
    ensures fits { IfSome result (λ k. k ≤ length found.old) }
    ensures offered { IfSome result
        (λ k. Offered leads.now (take count found.old) m (take k found.new)) }
    ensures full { IfNone result (count ≡ length found.old) }
    ensures new { IfNone result (New leads.now (take count found.old) m) }
{
    if any_divides(leads, m) || place_of(&found[..count], m).is_some() {
        return Some(count);
    }
    if count == found.len() {
        return None;
    }
    found[count] = m;
    Some(count + 1)
}

// Offers the products of `m` and the first `n` variables.
fn grow(
    n: usize,
    leads: &[Monomial],
    found: &mut [Monomial],
    count: usize,
    m: Monomial,
) -> Option<usize>
    requires room { count ≤ length found.old }
    requires good { Good n leads.now (take count found.old) }
    requires within { Within n m }
    ensures fits { IfSome result (λ k. k ≤ length found.old) }
    ensures grown { IfSome result
        (λ k. Grown n leads.now (take count found.old) m n (take k found.new)) }
    ensures full { IfNone result (GoodPast n leads.now (length found.old)) }
{
    let mut count = count;
    // By number: a variable has no other name.
    for k in 0..n {
        let Some(t) = m.raised(k) else {
            continue;
        };
        count = offer(leads, found, count, t)?;
    }
    Some(count)
}

// The free monomials of the first `n` variables, in the order in which they are found: none where
// there are more than `found` holds.
pub(crate) fn collect(n: usize, leads: &[Monomial], found: &mut [Monomial]) -> Option<usize>
    ensures fits { IfSome result (λ c. c ≤ length found.old) }
    ensures walked { IfSome result (λ c. Walked n leads.now (take c found.new) c) }
    ensures full { IfNone result (GoodPast n leads.now (length found.old)) }
{
    let mut count = offer(leads, found, 0, Monomial::one())?;
    let mut i = 0;
    // By an index, since the list grows as it is walked and no iterator may borrow it.
    while i < count {
        let m = found[i];
        count = grow(n, leads, found, count, m)?;
        i += 1;
    }
    Some(count)
}
