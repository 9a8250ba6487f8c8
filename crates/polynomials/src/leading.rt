// The questions of Close about the leading monomials and the later terms of the polynomials held.
// Only reads.
ghost use Rattle.std.specs.Prelude.{◌≡◌, ℕ, ◌≤◌, List, [], ◌∷◌, map, Decides};
ghost use Rattle.field.specs.Meaning.{FieldMeaning, FieldLaws};
ghost use Rattle.order.specs.Monomials as def;
ghost use Rattle.order.specs.Laws.{Comparison};
ghost use Rattle.algebra.specs.Lists.{any};
ghost use Rattle.algebra.specs.Records.{flat, before_by};
ghost use Rattle.algebra.specs.Basis.{stairs as staircase_of};
ghost use Rattle.runs.specs.Job.{Term as JobTerm, new};
ghost use Rattle.runs.specs.Enter.{Enters};
ghost use Rattle.runs.specs.Generators.{generators};
ghost use Rattle.polynomials.specs.Held.{held, terms_of};
ghost use Rattle.polynomials.specs.Asked.{Asked};
ghost use Rattle.polynomials.specs.Leads.{leads_of, lead_asks, inside_ask, not_one_ask, powers_ask, Apart, apart_ask, Stands, RestStands};

use crate::fault::refuse_first;
use crate::questions::first_term;
use crate::{JobFault, Polynomials};
use arrayvec::ArrayVec;
use order::Monomial;
use staircase::Term;
use staircase::search::place_of;

// Whether none of `leads` is 1.
fn ask_not_one(leads: &[Monomial]) -> Result<(), JobFault>
    ensures { Asked 0 (not_one_ask leads.now ∷ []) result }
{
    refuse_first(place_of(leads, Monomial::one()), JobFault::LedByOne)
}

// Whether any of `leads` is a power of the variable of index `k` alone.
fn any_power(leads: &[Monomial], k: usize) -> bool
    ensures { result ≡ any (def.power_of k) leads.now }
{
    leads.iter().any(|l| l.is_power_of(k))
}

// Whether each of `n` variables has a power of itself alone among `leads`.
fn ask_powers(n: usize, leads: &[Monomial]) -> Result<(), JobFault>
    ensures { Asked 0 (powers_ask n leads.now ∷ []) result }
{
    let first = (0..n).position(|k| !any_power(leads, k));
    refuse_first(first, JobFault::NoPower)
}

// Whether none of `leads` divides `m`, but perhaps the one at place `i`.
fn is_apart(leads: &[Monomial], i: usize, m: Monomial) -> bool
    ensures { Decides result (Apart leads.now i m) }
{
    leads
        .iter()
        .enumerate()
        .all(|(q, l)| q == i || !l.divides(m))
}

// Whether none of `leads` divides another.
fn ask_apart(leads: &[Monomial]) -> Result<(), JobFault>
    ensures { Asked 0 (apart_ask leads.now ∷ []) result }
{
    let first = leads
        .iter()
        .enumerate()
        .position(|(i, l)| !is_apart(leads, i, *l));
    refuse_first(first, JobFault::Divided)
}

// The questions put to the leading monomials of polynomials of `n` variables, one after the other.
pub fn ask_leads(n: usize, leads: &[Monomial]) -> Result<(), JobFault>
    ensures { (m : FieldMeaning) (laws : FieldLaws m) (cmp : Comparison) (ps : List (List JobTerm)) → n ≤ def.variables → Enters m cmp (new n) ps → leads.now ≡ leads_of ps → Asked 0 (lead_asks m laws n ps) result }
{
    ask_not_one(leads)?;
    ask_powers(n, leads)?;
    ask_apart(leads)
}

// Whether `m` is a member of the list.
fn stands(list: &[Monomial], m: Monomial) -> bool
    ensures { Decides result (Stands list.now m) }
{
    place_of(list, m).is_some()
}

// Whether each term but the first stands in the staircase.
fn rest_stands(stairs: &[Monomial], terms: &[Term]) -> bool
    ensures { Decides result (RestStands stairs.now (terms_of terms.now)) }
{
    terms.iter().skip(1).all(|t| stands(stairs, t.monomial))
}

impl Polynomials {
    // The leading monomials, first to last.
    pub fn leads(&self) -> ArrayVec<Monomial, 48>
        ensures { result.items ≡ leads_of (held self.now) }
    {
        let mut leads = ArrayVec::new();
        for terms in self.iter() {
            leads.push(first_term(terms).monomial);
        }
        leads
    }

    // Whether each later term of each polynomial stands in the staircase.
    pub fn ask_inside(&self, stairs: &[Monomial]) -> Result<(), JobFault>
        ensures { (m : FieldMeaning) (laws : FieldLaws m) (cmp : Comparison) (n : ℕ) → n ≤ def.variables → Enters m cmp (new n) (held self.now) → stairs.now ≡ map (flat n) (staircase_of n (before_by cmp n) (generators m laws n (held self.now))) → Asked 0 (inside_ask m laws cmp n (held self.now) ∷ []) result }
    {
        let first = self.iter().position(|terms| !rest_stands(stairs, terms));
        refuse_first(first, JobFault::Outside)
    }
}
