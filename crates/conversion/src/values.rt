// Monomials and polynomials at the multiplication matrices, put to the unit vector of the monomial 1.
ghost use Rattle.std.specs.Prelude.{◌≡◌, ℕ, ◌<◌, OnOk, IfOk};
ghost use Rattle.field.specs.Meaning.{FieldLaws};
ghost use Rattle.algebra.specs.Elements.{Elem, field_of, el};
ghost use Rattle.tables.specs.Holds.{stair_count};
ghost use Rattle.conversion.specs.Powers.{OnlyUnready, Stands, unit, power};
ghost use Rattle.conversion.specs.Values.{acts, value_of};

use crate::powers::{Matrices, Walk};
use field::Field;
use linear::multiple::add_multiple;
use linear::step::Misfit;
use order::Monomial;
use polynomials::Term;

impl<'a, F: Field> Matrices<'a, F> {
    // Puts the matrix of x_k to the vector e times.
    fn raise(&self, k: usize, e: u8, walk: &mut Walk) -> Result<(), Misfit>
        requires { k < self.now.n }
        ensures fits { OnlyUnready self.now.tables.now self.now.n result }
        ensures raised { let m = F.Field.meaning self.now.field.now in let t = self.now.tables.now in OnOk result ((laws : FieldLaws m) (f : ℕ → Elem m) → Stands m (stair_count t) walk.old.vector f → Stands m (stair_count t) walk.new.vector (power m laws t k f e)) }
    {
        // Over no items, as a fold over the range would be: each step takes the vector that the one before left.
        for _i in 0..e {
            self.advance(k, walk)?;
        }
        Ok(())
    }

    // Puts all matrices to the vector, from the last to the first, each as often as the monomial has
    // its variable.
    fn act(&self, monomial: Monomial, walk: &mut Walk) -> Result<(), Misfit>
        ensures fits { OnlyUnready self.now.tables.now self.now.n result }
        ensures acted { let m = F.Field.meaning self.now.field.now in let t = self.now.tables.now in OnOk result ((laws : FieldLaws m) (f : ℕ → Elem m) → Stands m (stair_count t) walk.old.vector f → Stands m (stair_count t) walk.new.vector (acts m laws t self.now.n monomial f)) }
    {
        // Variables go by number: the matrix of x_k and the exponent of x_k are asked by k.
        for k in (0..self.n).rev() {
            self.raise(k, monomial.exponent(k), walk)?;
        }
        Ok(())
    }

    // Adds the value of a term to the sum.
    fn add_term(&self, term: Term, walk: &mut Walk, sum: &mut [u32; 48]) -> Result<(), Misfit>
        ensures fits { OnlyUnready self.now.tables.now self.now.n result }
        ensures added { let m = F.Field.meaning self.now.field.now in let t = self.now.tables.now in OnOk result ((laws : FieldLaws m) (s : ℕ → Elem m) → Stands m (stair_count t) sum.old s → Stands m (stair_count t) sum.new (λ j. (field_of m laws).◌⊕◌ (s j) ((field_of m laws).◌⊗◌ (el m laws term.coefficient) (acts m laws t self.now.n term.monomial (unit m laws) j)))) }
    {
        walk.start(self.field);
        self.act(term.monomial, walk)?;
        add_multiple(self.field, term.coefficient, &walk.vector, sum);
        Ok(())
    }

    // The value of a polynomial.
    pub(crate) fn evaluate(&self, terms: &[Term]) -> Result<[u32; 48], Misfit>
        ensures fits { OnlyUnready self.now.tables.now self.now.n result }
        ensures evaluated { let m = F.Field.meaning self.now.field.now in let t = self.now.tables.now in IfOk result (λ sum. (laws : FieldLaws m) → Stands m (stair_count t) sum (value_of m laws t self.now.n terms.now)) }
    {
        let mut walk = Walk::new();
        let mut sum = [self.field.zero(); 48];
        for term in terms {
            self.add_term(*term, &mut walk, &mut sum)?;
        }
        Ok(sum)
    }
}
