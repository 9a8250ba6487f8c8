// The places of the products of a variable and the monomials of a staircase: in the staircase or in
// its border. Writes the front of the list of places that it is lent.
ghost use Rattle.std.specs.Prelude.{◌≡◌, ◌≤◌, ◌⊎◌, ◌↔◌, length, drop, Some, MatchOption, IsOk, OnOk};
ghost use Rattle.std.specs.List.{ContainsAt as Has};
ghost use Rattle.order.specs.declared.monomial.Monomial.{Monomial as Record};
ghost use Rattle.order.specs.Monomials as def;
ghost use Rattle.staircase.specs.Places.{numbered, Placeable, StandsAt, Placed, ProductsPlaced};

use crate::search::place_of;
use linear::step::{Misfit, Place};
use order::Monomial;

// How many places a list may have, since a place is one byte.
const NUMBERED: usize = 256;

// The place of the product of `m` and the variable of index `k`, where it has one.
// The two lists beside one another, in no type: what holds them holds more, and would make it for each call.
fn product_place(k: usize, stairs: &[Monomial], edges: &[Monomial], m: Monomial) -> Option<Place>
    requires stairs { length stairs.now ≤ numbered }
    requires edges { length edges.now ≤ numbered }
    ensures { MatchOption result ((t : Record) → def.raised k m ≡ Some t → Has stairs.now t ⊎ Has edges.now t → ⊥) (λ p. (t : Record) × (def.raised k m ≡ Some t) × StandsAt stairs.now edges.now t p) }
{
    let t = m.raised(k)?;
    // `as`: there is no From<usize> for u8, and of `try_from` the refusal would never come.
    match place_of(stairs, t) {
        Some(p) => Some(Place::Stair(p as u8)),
        None => Some(Place::Border(place_of(edges, t)? as u8)),
    }
}

// For each place of `stairs`, that of the product with the variable of index `k`, at the front of
// `out`: an error where there is no room, a list is too long, or a product stands in neither, and
// then what the front holds is not said.
pub fn places(
    k: usize,
    stairs: &[Monomial],
    edges: &[Monomial],
    out: &mut [Place],
) -> Result<(), Misfit>
    ensures fits { IsOk result ↔ Placeable k stairs.now edges.now (length out.old) }
    ensures places { OnOk result (Placed k stairs.now edges.now out.new) }
    ensures rest_unchanged { drop (length stairs.now) out.new ≡ drop (length stairs.now) out.old }
{
    if out.len() < stairs.len() || stairs.len() > NUMBERED || edges.len() > NUMBERED {
        return Err(Misfit);
    }
    // By index: of places written through `iter_mut().zip(..)` a proof knows nothing.
    for (i, m) in stairs.iter().enumerate() {
        out[i] = product_place(k, stairs, edges, *m).ok_or(Misfit)?;
    }
    Ok(())
}

// Products of a staircase monomial and a variable always have a place, and it is theirs.
pub fn products_have_places() -> u8
    ensures { ProductsPlaced }
{
    0
}
