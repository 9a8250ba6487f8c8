// Monomials and the orders that compare them: the trait `Order` with its meaning and its laws, the
// orders `Drl` and `Lex`, and `Renumbered` over any order. Nothing here holds state.
#![tactic(auto)]

ghost use Rattle.std.specs.Prelude.{◌≡◌};
ghost use Rattle.std.specs.declared.cmp.Ordering.{Ordering};
ghost use Rattle.order.specs.declared.monomial.Monomial.{Monomial};
ghost use Rattle.order.specs.Laws.{OrderLaws};
ghost use Rattle.order.specs.Monomials.{Small};

use std::cmp::Ordering;

pub mod drl;
pub mod fault;
pub mod lex;
pub mod monomial;
pub mod rearrangement;
pub mod renumbered;
pub mod theorems;

pub use drl::Drl;
pub use fault::OrderFault;
pub use lex::Lex;
pub use monomial::Monomial;
pub use rearrangement::Rearrangement;
pub use renumbered::Renumbered;

// An order is its answer for every two monomials, which no call changes, and keeps the laws.
pub trait Order {
    ghost meaning: { Self → Monomial → Monomial → Ordering };

    // Answers the meaning. The exponents of monomials in code are in the range that the laws ask for,
    // which a caller learns here.
    fn compare(&self, a: Monomial, b: Monomial) -> Ordering
        ensures answer { result ≡ meaning self.now a b }
        ensures small { Small a × Small b };

    ghost lawful: { (o : Self) → OrderLaws (meaning o) };
}
