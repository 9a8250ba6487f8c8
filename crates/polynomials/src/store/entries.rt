// Reading and adding polynomials.
ghost use Rattle.std.specs.Prelude.{◌≡◌, ◌+◌, ◌<◌, ◌≤◌, ◌↔◌, [], ◌∷◌, ◌++◌, length, slice_index_or, IsOk, OnOk, OnErr};
ghost use Rattle.polynomials.specs.Held.{entries, held, terms_of};
ghost use Rattle.runs.specs.Job.{terms_held, most_polynomials, most_terms};

use crate::Polynomials;
use arrayvec::CapacityError;
use staircase::Term;

// There is no room for one more polynomial, or for its terms.
#[derive(Clone, Copy, PartialEq, Eq, Debug)]
pub struct NoRoom;

impl From<CapacityError> for NoRoom {
    fn from(_e: CapacityError) -> NoRoom {
        NoRoom
    }
}

impl Polynomials {
    // How many polynomials there is room for, and how many terms together.
    pub const MOST: usize = 48;

    pub const MOST_TERMS: usize = 1024;

    // No polynomial.
    #[tactic(auto, unfolding(crate::specs::Held::entries))]
    pub fn new() -> Polynomials
        ensures { held result ≡ [] }
    {
        Polynomials {
            count: 0,
            starts: [0; 49],
            terms: [Term::default(); 1024],
        }
    }

    #[tactic(auto, using(crate::proofs::Stored::count_is))]
    pub fn count(&self) -> usize
        ensures { result ≡ length (held self.now) }
    {
        self.count
    }

    // The terms of the polynomial at a place, counted from 0; none past the last.
    pub fn polynomial(&self, i: usize) -> &[Term]
        ensures { result.now ≡ slice_index_or (entries self.now) i [] }
    {
        if i < self.count {
            &self.terms[self.starts[i]..self.starts[i + 1]]
        } else {
            &self.terms[..0]
        }
    }

    // How many terms the polynomials have together.
    #[tactic(auto, using(crate::proofs::Stored::terms_held_is))]
    pub fn terms(&self) -> usize
        ensures { result ≡ terms_held (held self.now) }
    {
        self.starts[self.count]
    }

    // Puts a polynomial after the others.
    pub fn push(&mut self, terms: &[Term]) -> Result<(), NoRoom>
        ensures answers { IsOk result ↔ ((length (held self.old) < most_polynomials) × (terms_held (held self.old) + length terms.now ≤ most_terms)) }
        ensures pushed { OnOk result (held self.new ≡ held self.old ++ (terms_of terms.now ∷ [])) }
        ensures refused_as_was { OnErr result (self.new ≡ self.old) }
    {
        let start = self.starts[self.count];
        if self.count == Self::MOST || terms.len() > Self::MOST_TERMS - start {
            return Err(NoRoom);
        }
        let end = start + terms.len();
        self.terms[start..end].copy_from_slice(terms);
        self.starts[self.count + 1] = end;
        self.count += 1;
        Ok(())
    }

    // Takes all polynomials out.
    #[tactic(auto, unfolding(crate::specs::Held::entries))]
    pub fn clear(&mut self)
        ensures { held self.new ≡ [] }
    {
        self.count = 0;
    }
}
