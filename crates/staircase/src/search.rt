// Searches of lists of monomials: whether one of them divides a monomial, and where one stands.
// Only reads.
ghost use Rattle.std.specs.Prelude.{◌≡◌};
ghost use Rattle.algebra.specs.Lists.{any};
ghost use Rattle.order.specs.Monomials as def;
ghost use Rattle.staircase.specs.Search.{FirstPlace};

use order::Monomial;

// Whether any of `leads` divides `m`.
pub fn any_divides(leads: &[Monomial], m: Monomial) -> bool
    ensures { result ≡ any (λ l. def.divides l m) leads.now }
{
    leads.iter().any(|l| l.divides(m))
}

// The first place of `list` at which `m` stands.
pub fn place_of(list: &[Monomial], m: Monomial) -> Option<usize>
    ensures { FirstPlace list.now m result }
{
    list.iter().position(|x| *x == m)
}
