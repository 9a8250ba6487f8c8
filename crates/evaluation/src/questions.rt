// The questions that the terms of a polynomial are asked. Each search finds the first that gets a no;
// nothing here decides the order of the questions.
ghost use Rattle.std.specs.Prelude.{◌≡◌, not, ◌<◌, drop, nat_le, position, IfSome};
ghost use Rattle.std.specs.List.{list_all};
ghost use Rattle.evaluation.specs.Answer.{coefficient_stands};
ghost use Rattle.evaluation.specs.Padded.{terms_left};

use crate::terms::Terms;
use field::Field;

// Of a word of a text; `polynomials` has the same limit for the byte of a record.
const LARGEST_EXPONENT: u32 = 48;

// Are the exponents of a term at most 48?
fn exponents_stand(term: &[u32; 5]) -> bool
    ensures { result ≡ list_all (λ e. nat_le e 48) (drop 1 term.now) }
{
    term[1..]
        .iter()
        .all(|exponent| *exponent <= LARGEST_EXPONENT)
}

// The first of the terms whose coefficient is zero or no element.
pub(crate) fn first_bad_coefficient<F: Field>(field: &F, mut terms: Terms<'_>) -> Option<usize>
    ensures first { result ≡ position (λ t. not (coefficient_stands (F.Field.meaning field.now) t)) (terms_left terms.entry) }
    ensures within { IfSome result (λ k. k < terms.entry.left) }
{
    terms.position(
        |term| -> bool
            ensures { result ≡ not (coefficient_stands (F.Field.meaning field.entry.now) term) }
        { !field.is_nonzero_element(term[0]) },
    )
}

// The first of the terms that has an exponent over 48.
pub(crate) fn first_bad_exponent(mut terms: Terms<'_>) -> Option<usize>
    ensures first { result ≡ position (λ t. not (list_all (λ e. nat_le e 48) (drop 1 t))) (terms_left terms.entry) }
    ensures within { IfSome result (λ k. k < terms.entry.left) }
{
    terms.position(
        |term| -> bool
            ensures { result ≡ not (list_all (λ e. nat_le e 48) (drop 1 term)) }
        { !exponents_stand(&term) },
    )
}
