// What a job refuses. Number, layer and place of each case are defined in specs/Faults.antt; a place
// counts from 1.
ghost use Rattle.std.specs.Prelude.{◌≡◌, ◌+◌, ◌<◌, ◌^◌, Ok, IfSome, MatchOption, IsErrAnd};
ghost use Rattle.polynomials.specs.declared.fault.JobFault.TheVariants.{ManyStairs, NotClosed};

use linear::step::Misfit;
use staircase::TooMany;

pub mod report;

#[derive(Clone, Copy, PartialEq, Eq, Debug)]
pub enum JobFault {
    // the number of variables is not from 1 to 4
    Variables,
    NotOpen,
    ManyPolynomials,
    NoTerm,
    ManyTerms,
    // a coefficient is no element, or zero where that is asked, by the term
    Coefficient(usize),
    // an exponent is over 48, or not 0 past the last variable, by the term
    Exponent(usize),
    // a term is not less than the one before, by the term
    NotFalling(usize),
    // the first coefficient is not one
    NotMonic,
    // the leading monomial is 1, by the polynomial
    LedByOne(usize),
    // no leading monomial is a power of this variable alone
    NoPower(usize),
    // another leading monomial divides that of the polynomial
    Divided(usize),
    // the staircase has more than 48 monomials
    ManyStairs,
    // a later term is outside the staircase, by the polynomial
    Outside(usize),
    Disagree,
    NotClosed,
    NoVariable,
    VectorLength,
    // a word of the vector is no element, by the word
    VectorWord(usize),
    ShortOutput,
    // no basis shaped in the variable has the ideal: the least degree of a nonzero member in it alone
    NoShape(usize),
    // the rows of the table depend: the least recurrence length
    DependentRows(usize),
}

// A step that does not fit is one over the tables of no closed job.
impl From<Misfit> for JobFault {
    ghost from_gives = { λ _ f. f ≡ NotClosed };

    fn from(_misfit: Misfit) -> JobFault {
        JobFault::NotClosed
    }
}

impl From<TooMany> for JobFault {
    ghost from_gives = { λ _ f. f ≡ ManyStairs };

    fn from(_many: TooMany) -> JobFault {
        JobFault::ManyStairs
    }
}

// The refusal of the first that fails, where one does, by its place: `first` counts from 0.
pub(crate) fn refuse_first<F: FnOnce(usize) -> JobFault>(
    first: Option<usize>,
    fault: F,
) -> Result<(), JobFault>
    requires counted { IfSome first (λ i. i + 1 < 2 ^ 64) }
    requires callable { IfSome first (λ i. F.pre fault (i + 1)) }
    ensures { MatchOption first (result ≡ Ok tt) (λ i. IsErrAnd result (F.post fault (i + 1))) }
{
    first.map_or(Ok(()), |i| Err(fault(i + 1)))
}
