// What the tables hold. The place of the product of x_k (counted from 0) and staircase monomial i is
// products[k].places[i]; the column of border monomial b begins at word b * STRIDE. Only this file and
// its children write the fields.
ghost use Rattle.std.specs.Prelude.{◌≤◌};
ghost use Rattle.arrayvec.specs.ArrayVec.{array_vec_len};

use crate::products::Products;
use arrayvec::ArrayVec;
use order::Monomial;

mod agreement;
mod filling;
pub mod making;
pub mod matrix;

#[derive(Drop)]
pub struct Tables {
    stairs: ArrayVec<Monomial, 48>,
    // Of four variables, as `find_places` makes them.
    products: [Products; 4],
    // Flat: next_column reads and writes one slice, and nothing is known of what as_flattened_mut leaves.
    columns: [u32; 9216],
    ghost few: { array_vec_len stairs ≤ 48 },
}
