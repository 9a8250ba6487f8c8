// Berlekamp and Massey: the least length of a linear recurrence of words, and its connection
// polynomial. The words to work in are lent.
ghost use Rattle.std.specs.Prelude.{◌≡◌, ℕ, ◌+◌, ◌-◌, ◌<◌, ◌≤◌, ◌++◌, length, take, drop, IfSome, IfNone, MatchOption, slice_index};
ghost use Rattle.linear.specs.Words.{sum_words, added};
ghost use Rattle.linear.specs.Recurrence.{Room, Shortest};
ghost use Rattle.linear.specs.Massey.{Held};

use crate::multiple::add_multiple;
use field::Field;

// What stands between two words: the length of the polynomial, how many words ago the one before
// the latest change of length failed, and by what.
// Without c, b and spare: a field that is a reference can't be read behind `&mut self` while another is lent.
#[derive(Clone, Copy)]
struct Stage {
    length: usize,
    lag: usize,
    miss: u32,
}

// c 0 times s n and so on to c l times s (n - l): zero where c generates the word n too.
fn discrepancy<F: Field>(field: &F, c: &[u32], s: &[u32], l: usize, n: usize) -> u32
    requires back { l ≤ n }
    requires within { n < length s.now }
    requires room { l < length c.now }
    ensures { result ≡ sum_words (F.Field.meaning field.now) (l + 1) (λ i. (F.Field.meaning field.now).mul (slice_index c.now i) (slice_index s.now (n - i))) }
{
    let mut sum = field.zero();
    // By number: over bytes the words of an iterator that goes backwards take twice the time.
    for i in 0..l + 1 {
        sum = field.add(sum, field.mul(c[i], s[n - i]));
    }
    sum
}

// c + by x^lag b
fn correct<F: Field>(field: &F, by: u32, lag: usize, b: &[u32], c: &mut [u32])
    requires { lag ≤ length c.old }
    ensures { c.new ≡ take lag c.old ++ added (F.Field.meaning field.now) by b.now (drop lag c.old) }
{
    add_multiple(field, by, b, &mut c[lag..]);
}

// The polynomial one.
fn put_one<F: Field>(field: &F, c: &mut [u32])
    requires { 0 < length c.old }
    ensures first { slice_index c.new 0 ≡ (F.Field.meaning field.now).one }
    ensures others { (k : ℕ) → 0 < k → k < length c.old → slice_index c.new k ≡ (F.Field.meaning field.now).zero }
{
    c.fill(field.zero());
    c[0] = field.one();
}

// The word n: nothing changes where c generates it; otherwise c is corrected by b, and where that
// makes it longer, the old c takes the place of b.
fn turn<F: Field>(
    field: &F,
    s: &[u32],
    n: usize,
    c: &mut [u32],
    b: &mut [u32],
    spare: &mut [u32],
    before: Stage,
) -> Stage
    requires within { n < length s.now }
    requires polynomial { length c.old ≡ length s.now + 1 }
    requires previous { length b.old ≡ length s.now + 1 }
    requires copy { length spare.old ≡ length s.now + 1 }
    requires length { before.length ≤ n }
    requires lag { before.lag ≤ n + 1 }
    requires held { Held (F.Field.meaning field.now) s.now c.old b.old before.length n before.lag before.miss }
    ensures { Held (F.Field.meaning field.now) s.now c.new b.new result.length (n + 1) result.lag result.miss }
{
    let l = before.length;
    let miss = discrepancy(field, c, s, l, n);
    let same = Stage {
        length: l,
        lag: before.lag + 1,
        miss: before.miss,
    };
    if miss == field.zero() {
        return same;
    }
    let Some(inverse) = field.inverse(before.miss) else {
        return same;
    };
    let by = field.neg(field.mul(miss, inverse));
    if n < l + l {
        correct(field, by, before.lag, b, c);
        return same;
    }
    spare.copy_from_slice(c);
    correct(field, by, before.lag, b, c);
    b.copy_from_slice(spare);
    Stage {
        length: n + 1 - l,
        lag: 1,
        miss,
    }
}

// All words in their order, over work words of exact length.
fn shortest<F: Field>(
    field: &F,
    s: &[u32],
    c: &mut [u32],
    b: &mut [u32],
    spare: &mut [u32],
) -> usize
    requires polynomial { length c.old ≡ length s.now + 1 }
    requires previous { length b.old ≡ length s.now + 1 }
    requires copy { length spare.old ≡ length s.now + 1 }
    ensures { Shortest (F.Field.meaning field.now) s.now c.new result }
{
    put_one(field, c);
    put_one(field, b);
    let mut stage = Stage {
        length: 0,
        lag: 1,
        miss: field.one(),
    };
    // By number: turn n reads back from the word n, and not that word alone.
    for n in 0..s.len() {
        stage = turn(field, s, n, c, b, spare, stage);
    }
    stage.length
}

// The least length of a recurrence of s, with its connection polynomial in the first s.len() + 1
// words of c; b and spare are work words. None, and nothing is written, where one of the three is
// not longer than s.
pub fn recurrence_length<F: Field>(
    field: &F,
    s: &[u32],
    c: &mut [u32],
    b: &mut [u32],
    spare: &mut [u32],
) -> Option<usize>
    ensures shortest { IfSome result (λ l. Shortest (F.Field.meaning field.now) s.now (take (length s.now + 1) c.new) l) }
    ensures refused_as_was { IfNone result ((c.new ≡ c.old) × (b.new ≡ b.old) × (spare.new ≡ spare.old)) }
    ensures answers { MatchOption result (Room s.now c.old b.old spare.old → ⊥) (λ _. Room s.now c.old b.old spare.old) }
    ensures rest_unchanged { (drop (length s.now + 1) c.new ≡ drop (length s.now + 1) c.old) × (drop (length s.now + 1) b.new ≡ drop (length s.now + 1) b.old) × (drop (length s.now + 1) spare.new ≡ drop (length s.now + 1) spare.old) }
{
    let n = s.len();
    if c.len() <= n || b.len() <= n || spare.len() <= n {
        return None;
    }
    Some(shortest(
        field,
        s,
        &mut c[..n + 1],
        &mut b[..n + 1],
        &mut spare[..n + 1],
    ))
}
