// What a fault of a job reports: number, layer and place, and the text that it prints.
ghost use Rattle.std.specs.Prelude.{◌≡◌, Some};
ghost use Rattle.polynomials.specs.Faults.{number_of, layer_of, place_of, text_of};

use crate::JobFault;
use std::error::Error;
use std::fmt;

const JOB_LAYER: u32 = 2;

// Like those of other faults in shape alone: each is a table of its own cases and numbers.
impl JobFault {
    pub fn number(self) -> u32
        ensures { result ≡ number_of self }
    {
        match self {
            JobFault::Variables => 4,
            JobFault::NotOpen => 5,
            JobFault::ManyPolynomials => 6,
            JobFault::NoTerm => 7,
            JobFault::ManyTerms => 8,
            JobFault::Coefficient(_) => 9,
            JobFault::Exponent(_) => 10,
            JobFault::NotFalling(_) => 11,
            JobFault::NotMonic => 12,
            JobFault::LedByOne(_) => 13,
            JobFault::NoPower(_) => 14,
            JobFault::Divided(_) => 15,
            JobFault::ManyStairs => 16,
            JobFault::Outside(_) => 17,
            JobFault::Disagree => 18,
            JobFault::NotClosed => 19,
            JobFault::NoVariable => 20,
            JobFault::VectorLength => 21,
            JobFault::VectorWord(_) => 22,
            JobFault::ShortOutput => 23,
            JobFault::NoShape(_) => 24,
            JobFault::DependentRows(_) => 25,
        }
    }

    pub fn layer(self) -> u32
        ensures { result ≡ layer_of self }
    {
        JOB_LAYER
    }

    pub fn place(self) -> usize
        ensures { result ≡ place_of self }
    {
        match self {
            JobFault::Coefficient(place)
            | JobFault::Exponent(place)
            | JobFault::NotFalling(place)
            | JobFault::LedByOne(place)
            | JobFault::NoPower(place)
            | JobFault::Divided(place)
            | JobFault::Outside(place)
            | JobFault::VectorWord(place)
            | JobFault::NoShape(place)
            | JobFault::DependentRows(place) => place,
            _ => 0,
        }
    }
}

impl fmt::Display for JobFault {
    ghost output = { λ f. Some (text_of f) };

    fn fmt<W: fmt::Write>(&self, f: &mut fmt::Formatter<W>) -> fmt::Result {
        let (number, place) = (self.number(), self.place());
        write!(f, "{number} at {place}")
    }
}

impl Error for JobFault {}
