// The questions put before a polynomial is entered: whether there is room for it, and those of its
// terms. Each function puts one, and answers the first that gets a no; only reads.
ghost use Rattle.std.specs.Prelude.{◌≡◌, ℕ, ◌≤◌, [], ◌∷◌, Decides};
ghost use Rattle.order.specs.Monomials as def;
ghost use Rattle.runs.specs.Job.{Job, coefficient_at, monomial_at, most_exponent};
ghost use Rattle.runs.specs.Enter.{InRange, room_asks, terms_asks};
ghost use Rattle.polynomials.specs.Held.{terms_of, held};
ghost use Rattle.polynomials.specs.Asked.{Asked};
ghost use Rattle.polynomials.specs.TermQuestions.{elements_ask, nonzero_ask, exponents_ask, falling_ask, monic_ask};

use crate::fault::refuse_first;
use crate::{JobFault, Polynomials};
use field::Field;
use order::{Monomial, Order};
use staircase::Term;
use std::cmp::Ordering;

// The largest exponent of a term.
const MOST_EXPONENT: u8 = 48;

impl Polynomials {
    // Whether there is room for one more polynomial, of `count` terms.
    pub fn ask_room(&self, count: usize) -> Result<(), JobFault>
        ensures { (line : ℕ) (j : Job) → j.polynomials ≡ held self.now → Asked line (room_asks line j count) result }
    {
        if self.count() == Self::MOST {
            return Err(JobFault::ManyPolynomials);
        }
        if count == 0 {
            return Err(JobFault::NoTerm);
        }
        if count > Self::MOST_TERMS - self.terms() {
            return Err(JobFault::ManyTerms);
        }
        Ok(())
    }
}

// Whether each coefficient is an element.
pub fn ask_elements<F: Field>(field: &F, terms: &[Term]) -> Result<(), JobFault>
    ensures { (line : ℕ) → Asked line (elements_ask (F.Field.meaning field.now) line (terms_of terms.now) ∷ []) result }
{
    let first = terms.iter().position(|t| !field.contains(t.coefficient));
    refuse_first(first, JobFault::Coefficient)
}

// Whether each coefficient is an element other than zero.
fn ask_nonzero<F: Field>(field: &F, terms: &[Term]) -> Result<(), JobFault>
    ensures { (line : ℕ) → Asked line (nonzero_ask (F.Field.meaning field.now) line (terms_of terms.now) ∷ []) result }
{
    let first = terms
        .iter()
        .position(|t| !field.is_nonzero_element(t.coefficient));
    refuse_first(first, JobFault::Coefficient)
}

// Whether the exponent of the variable of index `k` is at most the largest of a term, and 0 past
// variable `n`.
fn is_allowed(n: usize, m: Monomial, k: usize) -> bool
    ensures { Decides result ((def.exponent m k ≤ most_exponent) × (n ≤ k → def.exponent m k ≡ 0)) }
{
    let most = if k < n { MOST_EXPONENT } else { 0 };
    m.exponent(k) <= most
}

// Whether all exponents are so.
// By number: how large an exponent may be hangs on its variable, which has no other name.
fn in_range(n: usize, m: Monomial) -> bool
    ensures { Decides result (InRange n m) }
{
    (0..Monomial::VARIABLES).all(|k| is_allowed(n, m, k))
}

// Whether the exponents of each term are so.
pub fn ask_exponents(n: usize, terms: &[Term]) -> Result<(), JobFault>
    ensures { (line : ℕ) → Asked line (exponents_ask n line (terms_of terms.now) ∷ []) result }
{
    let first = terms.iter().position(|t| !in_range(n, t.monomial));
    refuse_first(first, JobFault::Exponent)
}

// Whether each term is less than the one before it.
fn ask_falling<O: Order>(order: &O, terms: &[Term]) -> Result<(), JobFault>
    ensures { (line : ℕ) → Asked line (falling_ask (O.Order.meaning order.now) line (terms_of terms.now) ∷ []) result }
{
    let mut neighbours = terms.iter().zip(terms.iter().skip(1));
    let first = neighbours.position(|(t, next)| order.compare(next.monomial, t.monomial)
        != Ordering::Less);
    refuse_first(first, |place| JobFault::NotFalling(place + 1))
}

// The first term; 0 times 1 where there is none.
pub(crate) fn first_term(terms: &[Term]) -> Term
    ensures coefficient { result.coefficient ≡ coefficient_at (terms_of terms.now) 0 }
    ensures monomial { result.monomial ≡ monomial_at (terms_of terms.now) 0 }
{
    terms.first().copied().unwrap_or_default()
}

// Whether the first coefficient is one.
fn ask_monic<F: Field>(field: &F, terms: &[Term]) -> Result<(), JobFault>
    ensures { (line : ℕ) → Asked line (monic_ask (F.Field.meaning field.now) line (terms_of terms.now) ∷ []) result }
{
    if first_term(terms).coefficient == field.one() {
        Ok(())
    } else {
        Err(JobFault::NotMonic)
    }
}

// The questions put to the terms of a polynomial of `n` variables, one after the other.
pub fn ask_terms<F: Field, O: Order>(
    field: &F,
    order: &O,
    n: usize,
    terms: &[Term],
) -> Result<(), JobFault>
    ensures { (line : ℕ) → Asked line (terms_asks (F.Field.meaning field.now) (O.Order.meaning order.now) n line (terms_of terms.now)) result }
{
    ask_nonzero(field, terms)?;
    ask_exponents(n, terms)?;
    ask_falling(order, terms)?;
    ask_monic(field, terms)
}
