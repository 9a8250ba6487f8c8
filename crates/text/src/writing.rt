// Write: the basis text of a job's polynomials. Room for the whole text is asked for first, so that
// where there is none nothing is written.
ghost use Rattle.std.specs.Prelude.{◌≡◌, ℕ, suc, ◌+◌, ◌≤◌, length, take, IfOk, OnOk};
ghost use Rattle.std.specs.List.{flat_map, AllByRecursion};
ghost use Rattle.field.specs.Meaning.{FieldLaws};
ghost use Rattle.column.specs.Column.{Word};
ghost use Rattle.column.specs.Line.{line, line_length};
ghost use Rattle.column.specs.Place.{put};
ghost use Rattle.order.specs.Monomials.{variables};
ghost use Rattle.polynomials.specs.Held.{held, terms_of};
ghost use Rattle.polynomials.specs.declared.fault.JobFault.TheVariants.{ShortOutput};
ghost use Rattle.runs.specs.Writing.{term_line, polynomial_text, basis_text};
ghost use Rattle.job.specs.State.{state, Kept};
ghost use Rattle.text.specs.declared.fault.TextFault.TheVariants as fault;
ghost use Rattle.text.specs.Written.{Wrote, ReadsBack, Words, AllWords, term_words, sizes, terms_size, polynomial_size, text_size};

use crate::TextFault;
use crate::layout::{HEADER_LINE, Layout};
use column::{WIDTH, write_line};
use field::Field;
use job::Job;
use order::{Monomial, Order};
use polynomials::{JobFault, Polynomials, Term};

// The bytes of a line of one column.
const COUNT_LINE: usize = WIDTH + 1;

// Writes the line of the words at a place that has room for it, and answers the place after it.
fn put_line(out: &mut [u8], at: usize, words: &[u32]) -> usize
    requires { at + line_length (length words.now) ≤ length out.old }
    ensures fit { AllByRecursion Word words.now }
    ensures long { length (line words.now) ≡ line_length (length words.now) }
    ensures place_after { result ≡ at + line_length (length words.now) }
    ensures bytes { out.new ≡ put out.old at (line words.now) }
{
    write_line(out, at, words).unwrap_or(at)
}

// The words of a term's line in all variables; those of its line in fewer come first.
fn words_of(term: Term) -> [u32; 5]
    ensures wide { length result ≡ 5 }
    ensures front { (n : ℕ) → n ≤ variables → take (n + 1) result ≡ term_words n (term.coefficient, term.monomial) }
{
    let Monomial { x1, x2, x3, x4 } = term.monomial;
    [
        term.coefficient,
        u32::from(x1),
        u32::from(x2),
        u32::from(x3),
        u32::from(x4),
    ]
}

// The bytes and the place are no struct: each of these would have to promise that it holds the same bytes.
impl Layout {
    // How many bytes the text of the polynomials has.
    fn text_length(self, polynomials: &Polynomials) -> usize
        ensures { result ≡ text_size self.n (held polynomials.now) }
    {
        let term_line = WIDTH * (self.n + 1) + 1;
        let mut length = HEADER_LINE;
        for terms in polynomials.iter() {
            length += COUNT_LINE + terms.len() * term_line;
        }
        length
    }

    // Writes the lines of the terms at a place that has room for them, and answers the place after them.
    fn put_terms(self, terms: &[Term], out: &mut [u8], at: usize) -> usize
        requires { at + terms_size self.n (terms_of terms.now) ≤ length out.old }
        ensures fit { Words (terms_of terms.now) }
        ensures long { length (flat_map (term_line self.n) (terms_of terms.now)) ≡ terms_size self.n (terms_of terms.now) }
        ensures place_after { result ≡ at + terms_size self.n (terms_of terms.now) }
        ensures bytes { out.new ≡ put out.old at (flat_map (term_line self.n) (terms_of terms.now)) }
    {
        let mut end = at;
        for term in terms {
            let words = words_of(*term);
            end = put_line(out, end, &words[..=self.n]);
        }
        end
    }

    // The same of a polynomial: the line of its number of terms, then theirs.
    fn put_polynomial(self, terms: &[Term], out: &mut [u8], at: usize) -> usize
        requires short { length terms.now ≤ 1024 }
        requires room { at + polynomial_size self.n (terms_of terms.now) ≤ length out.old }
        ensures fit { Words (terms_of terms.now) }
        ensures long { length (polynomial_text self.n (terms_of terms.now)) ≡ polynomial_size self.n (terms_of terms.now) }
        ensures place_after { result ≡ at + polynomial_size self.n (terms_of terms.now) }
        ensures bytes { out.new ≡ put out.old at (polynomial_text self.n (terms_of terms.now)) }
    {
        // At most 1024 terms: `as` keeps their number, and Rust has no `From` there.
        let first = put_line(out, at, &[terms.len() as u32]);
        self.put_terms(terms, out, first)
    }

    // The same of all polynomials.
    fn put_polynomials(self, polynomials: &Polynomials, out: &mut [u8], at: usize) -> usize
        requires { at + sizes (polynomial_size self.n) (held polynomials.now) ≤ length out.old }
        ensures fit { AllWords (held polynomials.now) }
        ensures long { length (flat_map (polynomial_text self.n) (held polynomials.now)) ≡ sizes (polynomial_size self.n) (held polynomials.now) }
        ensures place_after { result ≡ at + sizes (polynomial_size self.n) (held polynomials.now) }
        ensures bytes { out.new ≡ put out.old at (flat_map (polynomial_text self.n) (held polynomials.now)) }
    {
        let mut end = at;
        for terms in polynomials.iter() {
            end = self.put_polynomial(terms, out, end);
        }
        end
    }

    // Writes the text of the polynomials at the front of `out` and answers its length.
    // The codes are numbers and no enum: a caller's own are written as they are, so no kind is known here.
    fn write_text(
        self,
        polynomials: &Polynomials,
        field_code: u32,
        order_code: u32,
        out: &mut [u8],
    ) -> Result<usize, JobFault>
        ensures wrote { Wrote ShortOutput (basis_text field_code order_code self.n (held polynomials.now)) out.old out.new result }
        ensures fit { OnOk result (AllWords (held polynomials.now)) }
    {
        if out.len() < self.text_length(polynomials) {
            return Err(JobFault::ShortOutput);
        }
        let count = polynomials.count();
        // Four variables and 48 polynomials at most: `as` keeps both, and Rust has no `From` there.
        let first = put_line(
            out,
            0,
            &[field_code, order_code, self.n as u32, count as u32],
        );
        Ok(self.put_polynomials(polynomials, out, first))
    }
}

// Writes the basis text of the job's polynomials, with these codes of field and order, at the front of
// `out` and answers its length. Any two codes are written as they are, so that no kind is known here.
pub fn write<F: Field, O: Order>(
    job: &Job<F, O>,
    field_code: u32,
    order_code: u32,
    out: &mut [u8],
) -> Result<usize, TextFault>
    ensures wrote { Wrote (fault.Job ShortOutput 0) (basis_text field_code order_code (state job.now.table).n (state job.now.table).polynomials) out.old out.new result }
    ensures reads_back { IfOk result (λ size. (laws : FieldLaws (F.Field.meaning job.now.field)) → Kept (F.Field.meaning job.now.field) laws (O.Order.meaning job.now.order) job.now.table → ReadsBack (F.Field.meaning job.now.field) laws (O.Order.meaning job.now.order) (state job.now.table) (take size out.new) size) }
{
    let layout = Layout { n: job.variables() };
    let size = layout.write_text(job.polynomials(), field_code, order_code, out)?;
    Ok(size)
}
