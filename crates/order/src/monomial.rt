// Monomials: a record of exponents, and what is read from it. `x1` is the exponent of variable 1, the
// smallest variable; methods take a variable by its index, counted from 0, so that `x1` has index 0.
// Beside this file, `rearrangement` and the term lines of `text` name the four exponents.
ghost use Rattle.std.specs.Prelude.{◌≡◌, [], ◌∷◌};
ghost use Rattle.order.specs.Monomials as def;

#[derive(Clone, Copy, PartialEq, Eq, Default, Debug)]
pub struct Monomial {
    pub x1: u8,
    pub x2: u8,
    pub x3: u8,
    pub x4: u8,
}

impl Monomial {
    pub const VARIABLES: usize = 4;

    pub const LARGEST: u8 = 255;

    // The monomial 1.
    // Not `default()`: a constant calls no method of a trait.
    pub const ONE: Monomial = Monomial {
        x1: 0,
        x2: 0,
        x3: 0,
        x4: 0,
    };

    #[tactic(auto, unfolding(crate::specs::Monomials::one, crate::specs::Monomials::monomial))]
    pub fn one() -> Monomial
        ensures { result ≡ def.one }
    {
        Self::ONE
    }

    // 0 where `k` is no variable.
    // By the number: the rule of the project is a record of four exponents, and no array.
    #[tactic(auto, unfolding(crate::specs::Monomials::exponent))]
    pub fn exponent(self, k: usize) -> u8
        ensures { result ≡ def.exponent self k }
    {
        match k {
            0 => self.x1,
            1 => self.x2,
            2 => self.x3,
            3 => self.x4,
            _ => 0,
        }
    }

    // The exponents, that of the lowest variable first.
    pub(crate) fn lowest_first(self) -> [u8; Monomial::VARIABLES]
        ensures { result ≡ self.x1 ∷ self.x2 ∷ self.x3 ∷ self.x4 ∷ [] }
    {
        [self.x1, self.x2, self.x3, self.x4]
    }

    // The exponents, that of the highest variable first.
    pub(crate) fn highest_first(self) -> [u8; Monomial::VARIABLES]
        ensures { result ≡ self.x4 ∷ self.x3 ∷ self.x2 ∷ self.x1 ∷ [] }
    {
        [self.x4, self.x3, self.x2, self.x1]
    }

    // The same monomial where `k` is no variable.
    // By the number, as `exponent`: the rule of the project is a record, and no array.
    #[tactic(auto, using(crate::specs::Exponents::with_past), unfolding(crate::specs::Monomials::with_exponent, crate::specs::Monomials::monomial, crate::specs::Monomials::exponent))]
    pub fn with_exponent(self, k: usize, e: u8) -> Monomial
        ensures { result ≡ def.with_exponent k e self }
    {
        match k {
            0 => Monomial { x1: e, ..self },
            1 => Monomial { x2: e, ..self },
            2 => Monomial { x3: e, ..self },
            3 => Monomial { x4: e, ..self },
            _ => self,
        }
    }

    // The sum of the exponents.
    #[tactic(auto, using(crate::specs::Exponents::small_fields), unfolding(crate::specs::Monomials::degree, crate::specs::Monomials::exponent))]
    pub fn degree(self) -> u16
        ensures value { result ≡ def.degree self }
        ensures small { def.Small self }
    {
        u16::from(self.x1) + u16::from(self.x2) + u16::from(self.x3) + u16::from(self.x4)
    }

    // Whether each exponent is at most that of `other`.
    // By number, as in `is_power_of`: an exponent of a record has no other name.
    pub fn divides(self, other: Monomial) -> bool
        ensures { result ≡ def.divides self other }
    {
        (0..Self::VARIABLES).all(|k| self.exponent(k) <= other.exponent(k))
    }

    // Whether no variable but that of index `k` occurs: 1 is a power of each.
    pub fn is_power_of(self, k: usize) -> bool
        ensures { result ≡ def.power_of k self }
    {
        (0..Self::VARIABLES).all(|j| j == k || self.exponent(j) == 0)
    }

    // The product with a variable, where the exponent does not pass the largest.
    #[tactic(auto, using(crate::specs::Exponents::raise_with), unfolding(crate::specs::Monomials::raised))]
    pub fn raised(self, k: usize) -> Option<Monomial>
        ensures { result ≡ def.raised k self }
    {
        let e = self.exponent(k).checked_add(1)?;
        (k < Self::VARIABLES).then(|| self.with_exponent(k, e))
    }

    // The quotient by a variable, where it divides.
    #[tactic(auto, using(crate::specs::Exponents::over_with, crate::specs::Exponents::held_variable), unfolding(crate::specs::Monomials::lowered))]
    pub fn lowered(self, k: usize) -> Option<Monomial>
        ensures { result ≡ def.lowered k self }
    {
        let e = self.exponent(k).checked_sub(1)?;
        Some(self.with_exponent(k, e))
    }
}
