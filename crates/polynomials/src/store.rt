// Where the polynomials of a job stand: their terms one after the other, and where each begins. Only
// this file and its child write the fields.
ghost use Rattle.std.specs.Prelude.{◌≡◌, ℕ, suc, ◌<◌, ◌≤◌, length, slice_index};

use staircase::Term;

pub mod entries;

// Arrays and a count, so that all polynomials are taken out by one write, however many they are.
#[derive(Drop)]
pub struct Polynomials {
    count: usize,
    starts: [usize; 49],
    terms: [Term; 1024],
    ghost places: { length starts ≡ 49 },
    ghost room: { length terms ≡ 1024 },
    ghost few: { count ≤ 48 },
    ghost begins: { slice_index starts 0 ≡ 0 },
    ghost rising: { (i : ℕ) → i < count → slice_index starts i ≤ slice_index starts (suc i) },
    ghost within: { (i : ℕ) → i ≤ count → slice_index starts i ≤ 1024 },
}
