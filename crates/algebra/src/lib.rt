// Pure mathematics over any lawful field: polynomials and ideals, staircases and borders, normal
// forms, multiplication matrices, and bases shaped in one variable. There is no code but functions
// that name theorems: a theorem counts because one of these promises it, and its statement stands in
// specs/. A function may be added; what one promises may only be made stronger.
#![tactic(auto)]

ghost use Rattle.algebra.specs.Evaluation.{EvaluationHolds};
ghost use Rattle.algebra.specs.Records.{RecordsHold, OrdersHold};
ghost use Rattle.algebra.specs.Staircase.{StaircaseHolds};
ghost use Rattle.algebra.specs.Border.{BorderHolds};
ghost use Rattle.algebra.specs.Basis.{NormalFormsHold};
ghost use Rattle.algebra.specs.Matrices.{CongruencesHold, AgreementHolds};
ghost use Rattle.algebra.specs.Shape.{ShapesHold, ShapesEqual};
ghost use Rattle.algebra.specs.Words.{WordsHold};

// Evaluation at commuting linear maps kills an ideal when it kills its generators.
pub fn evaluation_kills_the_ideal() -> u8
    ensures { EvaluationHolds }
{
    0
}

// The code's records of exponents are the monomials of n variables, one to one, with the same
// products, divisors and comparisons.
pub fn records_are_monomials() -> u8
    ensures { RecordsHold }
{
    0
}

// The laws of an order of records give those of its order of monomials.
pub fn orders_of_records_order_monomials() -> u8
    ensures { OrdersHold }
{
    0
}

// The staircase is the one increasing list of exactly the monomials that no leading monomial divides.
pub fn staircase_holds_the_free_monomials() -> u8
    ensures { StaircaseHolds }
{
    0
}

// The border is the one increasing list of exactly the products of a staircase monomial and a
// variable that are outside the staircase.
pub fn border_holds_the_products_outside() -> u8
    ensures { BorderHolds }
{
    0
}

// The normal forms are unit vectors inside the staircase and keep the two rules on the border.
pub fn normal_forms_keep_the_rules() -> u8
    ensures { NormalFormsHold }
{
    0
}

// Every polynomial is congruent to the combination of its value, and T_k v to x_k times v.
pub fn polynomials_are_congruent_to_their_values() -> u8
    ensures { CongruencesHold }
{
    0
}

// The matrices agree exactly when no nonzero combination of the staircase belongs to the ideal. Then
// a polynomial belongs exactly when its value is zero, and is congruent to no other combination.
pub fn agreement_decides_independence() -> u8
    ensures { AgreementHolds }
{
    0
}

// A basis shaped in x_k has the ideal exactly when the first D Krylov vectors of x_k are independent;
// the least degree of a nonzero member in x_k alone is their degree.
pub fn independent_powers_decide_the_shape() -> u8
    ensures { ShapesHold }
{
    0
}

// Two shaped bases of one ideal in one variable are equal.
pub fn shaped_bases_are_equal() -> u8
    ensures { ShapesEqual }
{
    0
}

// The tables and matrices over words are the words of those over elements.
pub fn words_compute_the_tables() -> u8
    ensures { WordsHold }
{
    0
}
