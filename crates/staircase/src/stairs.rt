// The staircase of a list of leading monomials, in increasing order: at the front of a lent list,
// where the other lent list is room to work in, or as a list of a fixed capacity.
ghost use Rattle.std.specs.Prelude.{◌≡◌, ◌<◌, ◌↔◌, length, take, Err};
ghost use Rattle.staircase.specs.declared.stairs.StairsFault.TheVariants.{NoRoom};
ghost use Rattle.staircase.specs.Stairs.{Leading, StaircaseAnswer, StaircaseWritten, RestStays};

use crate::sorting::sort;
use crate::walk::collect;
use arrayvec::{ArrayVec, CapacityError};
use order::{Monomial, Order};

// Why there is no staircase: less room to work in than for the staircase, or more monomials than
// room for them.
#[derive(Clone, Copy, PartialEq, Eq, Debug)]
pub enum StairsFault {
    NoRoom,
    TooMany,
}

// There is no room for all monomials of a staircase.
#[derive(Clone, Copy, PartialEq, Eq, Debug)]
pub struct TooMany;

impl From<CapacityError<Monomial>> for TooMany {
    fn from(_e: CapacityError<Monomial>) -> TooMany {
        TooMany
    }
}

// The monomials of the first `n` variables that no lead divides, in increasing order at the front
// of `stairs`, and how many there are.
pub fn staircase_into<O: Order>(
    order: &O,
    n: usize,
    leads: &[Monomial],
    found: &mut [Monomial],
    stairs: &mut [Monomial],
) -> Result<usize, StairsFault>
    ensures no_room { (result ≡ Err NoRoom) ↔ (length found.old < length stairs.old) }
    ensures staircase { Leading n leads.now →
        StaircaseWritten (O.Order.meaning order.now) n leads.now stairs.old stairs.new result }
    ensures rest_unchanged { RestStays stairs.old stairs.new result }
{
    if found.len() < stairs.len() {
        return Err(StairsFault::NoRoom);
    }
    let count = collect(n, leads, &mut found[..stairs.len()]).ok_or(StairsFault::TooMany)?;
    sort(order, &found[..count], stairs).ok_or(StairsFault::NoRoom)
}

// The list of the first `count` monomials of an array.
pub(crate) fn front<const CAP: usize>(
    array: [Monomial; CAP],
    count: usize,
) -> ArrayVec<Monomial, CAP>
    ensures { result.items ≡ take count array.entry }
{
    let mut list = ArrayVec::from(array);
    list.truncate(count);
    list
}

// The monomials of the first `n` variables that no lead divides, in increasing order.
pub fn staircase<O: Order, const CAP: usize>(
    order: &O,
    n: usize,
    leads: &[Monomial],
) -> Result<ArrayVec<Monomial, CAP>, TooMany>
    ensures { Leading n leads.now → StaircaseAnswer (O.Order.meaning order.now) n leads.now CAP result }
{
    let mut found = [Monomial::ONE; CAP];
    let mut stairs = [Monomial::ONE; CAP];
    let count = staircase_into(order, n, leads, &mut found, &mut stairs).map_err(|_fault| TooMany)?;
    Ok(front(stairs, count))
}
