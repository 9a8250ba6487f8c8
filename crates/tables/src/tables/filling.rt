// From a staircase to the tables: its border, the places of the products and the border columns.
ghost use Rattle.std.specs.Prelude.{Ok};
ghost use Rattle.std.specs.Result.{result_and};
ghost use Rattle.polynomials.specs.Held.{held};
ghost use Rattle.tables.specs.Filling.{Fills};

use crate::Tables;
use crate::columns::Frame;
use crate::products::find_places;
use arrayvec::ArrayVec;
use field::Field;
use linear::step::Misfit;
use order::{Monomial, Order};
use polynomials::Polynomials;
use staircase::border;

impl Tables {
    // Makes these the tables of the polynomials with the staircase `stairs`: refused where the border is
    // too long, a product has no place, or a border monomial falls under no rule.
    pub(crate) fn fill<F: Field, O: Order>(
        &mut self,
        field: &F,
        order: &O,
        n: usize,
        polynomials: &Polynomials,
        stairs: ArrayVec<Monomial, 48>,
    ) -> Result<(), Misfit>
        ensures { Fills (F.Field.meaning field.now) (O.Order.meaning order.now) n (held polynomials.now) stairs.items (result_and result (Ok self.new)) }
    {
        if n > Monomial::VARIABLES {
            return Err(Misfit);
        }
        let edges = border::<O, 192>(order, n, stairs.as_slice()).map_err(|_many| Misfit)?;
        let products = find_places(n, stairs.as_slice(), edges.as_slice())?;
        let frame = Frame {
            field,
            n,
            polynomials,
            stairs: stairs.as_slice(),
            edges: edges.as_slice(),
            products: &products,
        };
        frame.fill_columns(&mut self.columns)?;
        self.stairs = stairs;
        self.products = products;
        Ok(())
    }
}
