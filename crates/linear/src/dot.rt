// The dot product of words.
ghost use Rattle.std.specs.Prelude.{◌≡◌, ℕ, T, List};
ghost use Rattle.std.specs.Iterator.{IsFinite, Drains};
ghost use Rattle.std.specs.Borrow.{Bor};
ghost use Rattle.std.specs.List.{fold};
ghost use Rattle.linear.specs.Words.{DotOf, dot_words};

use field::Field;

// The sum of the products of the words of each pair.
pub(crate) fn sum_of_products<'a, F: Field, I: Iterator<Item = (&'a u32, &'a u32)> + Drop>(
    field: &F,
    pairs: I,
) -> u32
    requires can { I.can_next pairs }
    requires ends { IsFinite (I.remaining pairs) }
    ensures { let m = F.Field.meaning field.now in (ps : List (Bor ℕ × Bor ℕ)) × Drains I.next_gives pairs ps × (result ≡ fold (λ s p. m.add s (m.mul p.0.now p.1.now)) m.zero ps) }
{
    let mut sum = field.zero();
    for (x, y) in pairs {
        sum = field.add(sum, field.mul(*x, *y));
    }
    sum
}

// Over the length that both have; a word that is no element counts as zero.
pub fn dot<F: Field>(field: &F, a: &[u32], b: &[u32]) -> u32
    ensures words { result ≡ dot_words (F.Field.meaning field.now) a.now b.now }
    ensures elements { DotOf (F.Field.meaning field.now) a.now b.now result }
    ensures is_element { T ((F.Field.meaning field.now).elem result) }
{
    sum_of_products(field, a.iter().zip(b))
}
