// Which rule a border monomial falls under: the polynomial that it leads, or the border monomial
// below it. Only reads.
ghost use Rattle.std.specs.Prelude.{Decides};
ghost use Rattle.polynomials.specs.Held.{entries};
ghost use Rattle.tables.specs.Columns.{LedBy, FirstLed, BelowBy, LowestBelow};

use order::Monomial;
use polynomials::{Polynomials, Term};
use staircase::place_of;

// The variable by which a monomial is divided, by its index, and the place of the quotient.
#[derive(Clone, Copy, PartialEq, Eq, Debug)]
pub(crate) struct Below {
    pub(crate) variable: usize,
    pub(crate) place: usize,
}

// Whether the first term has the monomial `t`.
fn is_led_by(terms: &[Term], t: Monomial) -> bool
    ensures { Decides result (LedBy terms.now t) }
{
    terms.first().is_some_and(|first| first.monomial == t)
}

// The place of the first polynomial that `t` leads.
pub(crate) fn led_by(polynomials: &Polynomials, t: Monomial) -> Option<usize>
    ensures { FirstLed (entries polynomials.now) t result }
{
    polynomials.iter().position(|terms| is_led_by(terms, t))
}

// The quotient of `t` by the variable of that index, where it stands in `edges`.
fn divided(variable: usize, edges: &[Monomial], t: Monomial) -> Option<Below>
    ensures { BelowBy edges.now t variable result }
{
    let place = place_of(edges, t.lowered(variable)?)?;
    Some(Below { variable, place })
}

// The lowest of `n` variables that divides `t` with a quotient in `edges`, and the place of that.
pub(crate) fn lowest_below(n: usize, edges: &[Monomial], t: Monomial) -> Option<Below>
    ensures { LowestBelow n edges.now t result }
{
    (0..n).find_map(|variable| divided(variable, edges, t))
}
