// The places of the products of every variable and the staircase monomials.
ghost use Rattle.std.specs.Prelude.{◌≡◌, ◌≤◌, ◌↔◌, length, IsOk, IfOk};
ghost use Rattle.order.specs.Monomials.{variables};
ghost use Rattle.staircase.specs.Places.{Placeable, Placed};
ghost use Rattle.tables.specs.Products.{Wide, AllPlaceable, PlacesFound};

use linear::step::{Misfit, Place};
use order::Monomial;
use staircase::places;

// The places of the products of one variable, by the place of the staircase monomial.
#[derive(Clone, Copy)]
pub(crate) struct Products {
    pub(crate) places: [Place; 48],
}

impl Products {
    pub(crate) fn new() -> Products
        ensures { length result.places ≡ 48 }
    {
        Products {
            places: [Place::Stair(0); 48],
        }
    }

    // Those of the variable of index k: refused where one has no place.
    fn find(k: usize, stairs: &[Monomial], edges: &[Monomial]) -> Result<Products, Misfit>
        ensures fits { IsOk result ↔ Placeable k stairs.now edges.now 48 }
        ensures found { IfOk result (λ found. (length found.places ≡ 48) × Placed k stairs.now edges.now found.places) }
    {
        let mut found = [Place::Stair(0); 48];
        places(k, stairs, edges, &mut found)?;
        Ok(Products { places: found })
    }
}

// Those of each of the first `n` variables, by its index.
pub(crate) fn find_places(
    n: usize,
    stairs: &[Monomial],
    edges: &[Monomial],
) -> Result<[Products; 4], Misfit>
    requires { n ≤ variables }
    ensures wide { IfOk result Wide }
    ensures found { AllPlaceable n stairs.now edges.now → PlacesFound n stairs.now edges.now result }
{
    // Four, however many the variables are: memory is fixed, and those past the last are never read.
    let mut all = [Products::new(); 4];
    // By number: a variable has no other name.
    for k in 0..n {
        all[k] = Products::find(k, stairs, edges)?;
    }
    Ok(all)
}
