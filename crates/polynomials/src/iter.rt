// Going over the polynomials held, one after the other. Only reads.
ghost use Rattle.std.specs.Prelude.{◌≡◌};
ghost use Rattle.std.specs.Iterator.{YieldsFirstRef, item_count};
ghost use Rattle.polynomials.specs.Held.{entries};

use crate::Polynomials;
use staircase::Term;

// The polynomials of a store from a place on.
#[derive(Drop)]
pub struct Entries<'a> {
    store: &'a Polynomials,
    place: usize,
}

impl<'a> Iterator for Entries<'a> {
    ghost use Rattle.polynomials.specs.Left.{entries_left};

    type Item = &'a [Term];

    ghost next_gives = { YieldsFirstRef entries_left };

    ghost remaining = { item_count entries_left };

    fn next(&mut self) -> Option<&'a [Term]> {
        if self.place >= self.store.count() {
            return None;
        }
        let terms = self.store.polynomial(self.place);
        self.place += 1;
        Some(terms)
    }
}

impl Polynomials {
    ghost use Rattle.polynomials.specs.Left.{entries_left};

    // The polynomials, first to last.
    pub fn iter(&self) -> Entries<'_>
        ensures { entries_left result ≡ entries self.now }
    {
        Entries {
            store: self,
            place: 0,
        }
    }
}
