// Rearrangements of the variables: for each variable the place, from 1, to which its exponent goes.
// Any four numbers may stand here; `Renumbered::new` asks whether they are a rearrangement.
ghost use Rattle.std.specs.Prelude.{◌≡◌};
ghost use Rattle.order.specs.Monomials.{variables};
ghost use Rattle.order.specs.Rearrangements as def;

use crate::Monomial;

#[derive(Clone, Copy, PartialEq, Eq, Debug)]
pub struct Rearrangement {
    pub first: u8,
    pub second: u8,
    pub third: u8,
    pub fourth: u8,
}

impl Rearrangement {
    // Variables 1 to `n` in reverse, and the rest stay. None where `n` is not 1 to 4.
    #[tactic(auto, unfolding(crate::specs::Rearrangements::reversal, crate::specs::Rearrangements::rearrangement))]
    pub fn reversal(n: u8) -> Option<Rearrangement>
        ensures { result ≡ def.reversal n }
    {
        match n {
            1 => Some(Self::places(1, 2, 3, 4)),
            2 => Some(Self::places(2, 1, 3, 4)),
            3 => Some(Self::places(3, 2, 1, 4)),
            4 => Some(Self::places(4, 3, 2, 1)),
            _ => None,
        }
    }

    // Whether every place is in range, and no two are the same.
    // By number, as in the functions below: a place of a record has no other name.
    pub fn is_rearrangement(self) -> bool
        ensures { result ≡ def.rearranges self }
    {
        let places = 1..=Monomial::VARIABLES;
        (0..Monomial::VARIABLES).all(|k| self.is_fresh(k)
            && places.contains(&usize::from(self.place(k))))
    }

    // The monomial with each exponent at the place that is named for it.
    #[tactic(auto, unfolding(crate::specs::Rearrangements::moved, crate::specs::Monomials::monomial))]
    pub fn moved(self, m: Monomial) -> Monomial
        ensures { result ≡ def.moved self m }
    {
        Monomial {
            x1: self.arriving(m, 1),
            x2: self.arriving(m, 2),
            x3: self.arriving(m, 3),
            x4: self.arriving(m, 4),
        }
    }

    fn places(first: u8, second: u8, third: u8, fourth: u8) -> Rearrangement
        ensures { result ≡ record { first = first; second = second; third = third; fourth = fourth } }
    {
        Rearrangement {
            first,
            second,
            third,
            fourth,
        }
    }

    // The place of the variable of index `k`; 0 where `k` is no variable.
    // By the number: the rule of the project is a record of four places, and no array.
    #[tactic(auto, unfolding(crate::specs::Rearrangements::place))]
    fn place(self, k: usize) -> u8
        ensures { result ≡ def.place self k }
    {
        match k {
            0 => self.first,
            1 => self.second,
            2 => self.third,
            3 => self.fourth,
            _ => 0,
        }
    }

    // Whether no variable before that of index `k` has its place.
    fn is_fresh(self, k: usize) -> bool
        ensures { result ≡ def.fresh self k }
    {
        (0..k).all(|j| self.place(j) != self.place(k))
    }

    // The exponent that goes to a place.
    fn arriving(self, m: Monomial, place: u8) -> u8
        ensures { result ≡ def.arriving variables self m place }
    {
        (0..Monomial::VARIABLES).fold(0, |e, k| {
            if self.place(k) == place {
                m.exponent(k)
            } else {
                e
            }
        })
    }
}
