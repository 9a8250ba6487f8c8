// Fields of words: what a field is (trait Field), the residues modulo a listed prime, and the byte
// field. Everything above is proved for any field that keeps the laws, so their statement in
// specs/Meaning.antt is the ground of the house; the two implementations may be touched freely.
#![tactic(auto)]

ghost use Rattle.std.specs.Prelude.{◌≡◌, ◌<◌, not, length, position, IfSome};
ghost use Rattle.field.specs.Meaning.{FieldMeaning, FieldLaws, FieldTotal, OneInverse, nonzero_element};

pub mod bytes;
pub mod fault;
pub mod residue;

pub use bytes::ByteField;
pub use fault::FieldFault;
pub use residue::Residue;

// A word has 32 bits. The meaning is total: a sum, a product and an opposite is the word of zero
// where a given word is no element, and an inverse is absent for zero and for no element.
pub trait Field {
    ghost meaning: { Self → FieldMeaning };

    fn contains(&self, w: u32) -> bool
        ensures { result ≡ (meaning self.now).elem w };

    fn zero(&self) -> u32
        ensures { result ≡ (meaning self.now).zero };

    fn one(&self) -> u32
        ensures { result ≡ (meaning self.now).one };

    fn add(&self, a: u32, b: u32) -> u32
        ensures { result ≡ (meaning self.now).add a b };

    fn mul(&self, a: u32, b: u32) -> u32
        ensures { result ≡ (meaning self.now).mul a b };

    fn neg(&self, a: u32) -> u32
        ensures { result ≡ (meaning self.now).neg a };

    fn inverse(&self, a: u32) -> Option<u32>
        ensures { result ≡ (meaning self.now).inv a };

    // Whether `w` is an element other than zero.
    final fn is_nonzero_element(&self, w: u32) -> bool
        ensures { result ≡ nonzero_element (meaning self.now) w }
    {
        self.contains(w) && w != self.zero()
    }

    // The first of the words that is no element.
    final fn first_no_element(&self, words: &[u32]) -> Option<usize>
        ensures first { result ≡ position (λ w. not ((meaning self.now).elem w)) words.now }
        ensures within { IfSome result (λ k. k < length words.now) }
    {
        words.iter().position(|word| !self.contains(*word))
    }

    ghost lawful: { (f : Self) → FieldLaws (meaning f) };

    ghost everywhere: { (f : Self) → FieldTotal (meaning f) };
}

// An element has one inverse, so what `inverse` answers is no choice.
pub fn inverse_is_unique() -> u8
    ensures { OneInverse }
{
    0
}
