// Reading the tables: how many staircase monomials there are, each of them, and the product of a
// multiplication matrix and a vector.
ghost use Rattle.std.specs.Prelude.{◌≡◌, length, drop, if◌then◌else◌, Some, None, OnErr, nat_lt, slice_index_or};
ghost use Rattle.tables.specs.Holds.{stair_count, Steps};
ghost use Rattle.order.specs.Monomials.{one};

use crate::Tables;
use crate::products::Products;
use arrayvec::ArrayVec;
use field::Field;
use linear::step::{Matrix, Misfit, step};
use order::Monomial;

// How many words there are from one column to the next.
pub(crate) const STRIDE: usize = 48;

impl Tables {
    // No staircase.
    pub fn new() -> Tables
        ensures { stair_count result ≡ 0 }
    {
        Tables {
            stairs: ArrayVec::new(),
            products: [Products::new(); 4],
            columns: [0; 9216],
        }
    }

    // The number of staircase monomials.
    pub fn size(&self) -> usize
        ensures { result ≡ stair_count self.now }
    {
        self.stairs.len()
    }

    // The staircase monomial at a place counted from 0.
    pub fn stair(&self, i: usize) -> Option<Monomial>
        ensures { result ≡ (if nat_lt i (stair_count self.now) then Some (slice_index_or self.now.stairs.items i one) else None) }
    {
        self.stairs.as_slice().get(i).copied()
    }

    // The matrix of x_k, counted from 0, times the first words of `v`, written over those of `out`:
    // nothing is written where something does not fit.
    pub fn step<F: Field>(
        &self,
        field: &F,
        k: usize,
        v: &[u32],
        out: &mut [u32],
    ) -> Result<(), Misfit>
        ensures refused_as_was { OnErr result (out.new ≡ out.old) }
        ensures rest_unchanged { drop (stair_count self.now) out.new ≡ drop (stair_count self.now) out.old }
        ensures stepped { Steps (F.Field.meaning field.now) self.now k v.now (length out.old) out.new result }
    {
        if k >= Monomial::VARIABLES {
            return Err(Misfit);
        }
        let matrix = Matrix {
            places: &self.products[k].places,
            columns: &self.columns,
            stride: STRIDE,
        };
        step(field, self.size(), matrix, v, out)
    }
}
