// Theorems on monomials and orders. Each function answers 0, and its contract is the theorem.
ghost use Rattle.order.specs.Claims as claim;

pub fn divides_is_a_product() -> u8
    ensures { claim.DividesInWords }
{
    0
}

pub fn power_of_one_variable() -> u8
    ensures { claim.PowerInWords }
{
    0
}

pub fn drl_in_words() -> u8
    ensures { claim.DrlInWords }
{
    0
}

pub fn lex_in_words() -> u8
    ensures { claim.LexInWords }
{
    0
}

pub fn exponents_move_to_their_places() -> u8
    ensures { claim.Moves }
{
    0
}

pub fn reversals_rearrange() -> u8
    ensures { claim.Reverses }
{
    0
}

pub fn divisors_are_less() -> u8
    ensures { claim.DivisorsLess }
{
    0
}

pub fn products_keep_the_order() -> u8
    ensures { claim.ProductsKeep }
{
    0
}

pub fn one_is_least() -> u8
    ensures { claim.OneLeast }
{
    0
}

pub fn neighbours_fall_throughout() -> u8
    ensures { claim.FallsThroughout }
{
    0
}
