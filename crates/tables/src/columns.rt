// The columns of the border, one after the other, each by the rule that its monomial falls under.
// Writes the words of the columns that it is lent.
ghost use Rattle.std.specs.Prelude.{◌≡◌, ◌+◌, ◌*◌, ◌<◌, ◌≤◌, length, drop, IsOk};
ghost use Rattle.std.proofs.Math.Seq.{paste};
ghost use Rattle.order.specs.Monomials.{variables};
ghost use Rattle.staircase.specs.Rules.{opposite_words};
ghost use Rattle.polynomials.specs.Held.{entries};
ghost use Rattle.tables.specs.Products.{Wide};
ghost use Rattle.tables.specs.Columns.{ColumnSteppedBelow, ColumnAdded, ColumnsMade};

use crate::below::{led_by, lowest_below};
use crate::products::Products;
use crate::tables::matrix::STRIDE;
use field::Field;
use linear::step::Misfit;
use order::Monomial;
use polynomials::{Polynomials, Term};
use staircase::{next_column, opposite_column};

// What the columns are made from: the polynomials in `n` variables, their staircase, its border, and
// the places of the products.
#[derive(Drop)]
pub(crate) struct Frame<'a, F> {
    pub(crate) field: &'a F,
    pub(crate) n: usize,
    pub(crate) polynomials: &'a Polynomials,
    pub(crate) stairs: &'a [Monomial],
    pub(crate) edges: &'a [Monomial],
    pub(crate) products: &'a [Products; 4],
    ghost few: { n ≤ variables },
    ghost short: { length stairs.now ≤ 48 },
    ghost edged: { length edges.now ≤ 192 },
    ghost wide: { Wide products.now },
}

// The border monomial at a place, and what its column is made from.
#[derive(Drop)]
struct Edge<'b, 'a, F> {
    frame: &'b Frame<'a, F>,
    place: usize,
    ghost inside: { place < length frame.now.edges.now },
}

impl<'b, 'a, F: Field> Edge<'b, 'a, F> {
    // Its column by the first rule, from the polynomial that its monomial leads.
    fn lead_column(&self, terms: &[Term], columns: &mut [u32; 9216]) -> Result<(), Misfit>
        requires { 0 < length terms.now }
        ensures fits { IsOk result }
        ensures pasted { columns.new ≡ paste columns.old (self.now.place * 48) (opposite_words (F.Field.meaning self.now.frame.now.field.now) (drop 1 terms.now) self.now.frame.now.stairs.now) (length self.now.frame.now.stairs.now) }
    {
        let start = self.place * STRIDE;
        opposite_column(
            self.frame.field,
            &terms[1..],
            self.frame.stairs,
            &mut columns[start..start + self.frame.stairs.len()],
        )
    }

    // Its column by the second rule, from the column of the border monomial below.
    fn step_column(&self, columns: &mut [u32; 9216]) -> Result<(), Misfit>
        ensures { ColumnSteppedBelow (F.Field.meaning self.now.frame.now.field.now) self.now.frame.now.n (length self.now.frame.now.stairs.now) self.now.frame.now.edges.now self.now.frame.now.products.now self.now.place columns.old columns.new result }
    {
        let t = self.frame.edges[self.place];
        let below = lowest_below(self.frame.n, self.frame.edges, t).ok_or(Misfit)?;
        let mut out = [0; 48];
        next_column(
            self.frame.field,
            self.frame.stairs.len(),
            &self.frame.products[below.variable].places,
            columns,
            STRIDE,
            below.place,
            self.place,
            &mut out,
        )
    }

    // Its column by the rule that its monomial falls under.
    fn fill_column(&self, columns: &mut [u32; 9216]) -> Result<(), Misfit>
        ensures { ColumnAdded (F.Field.meaning self.now.frame.now.field.now) self.now.frame.now.n (entries self.now.frame.now.polynomials.now) self.now.frame.now.stairs.now self.now.frame.now.edges.now self.now.frame.now.products.now self.now.place columns.old columns.new result }
    {
        match led_by(self.frame.polynomials, self.frame.edges[self.place]) {
            Some(i) => self.lead_column(self.frame.polynomials.polynomial(i), columns),
            None => self.step_column(columns),
        }
    }
}

impl<'a, F: Field> Frame<'a, F> {
    // The columns of all border monomials, in their order: refused where one falls under no rule.
    pub(crate) fn fill_columns(&self, columns: &mut [u32; 9216]) -> Result<(), Misfit>
        ensures made { ColumnsMade (F.Field.meaning self.now.field.now) self.now.n (entries self.now.polynomials.now) self.now.stairs.now self.now.edges.now self.now.products.now columns.new result }
        ensures room { length columns.new ≡ 9216 }
    {
        columns[..self.edges.len() * STRIDE].fill(self.field.zero());
        // By number: an edge is its place, by which the monomial and the column are both asked for.
        for c in 0..self.edges.len() {
            let edge = Edge {
                frame: self,
                place: c,
            };
            edge.fill_column(columns)?;
        }
        Ok(())
    }
}
