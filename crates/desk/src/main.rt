// Desk: makes jobs over two fields and two orders, runs calls on them, accepted and refused, and
// prints what each answered. What it prints is compared with a stored output.
#![tactic(auto)]

use field::{ByteField, Field, Residue};
use job::{Job, JobFault, Term};
use order::{Drl, Lex, Monomial, Order};
use std::io;
use text::{TextFault, fill, write};

// A coefficient and the exponents of x_1 and x_2.
type Plain = (u32, u8, u8);

fn term(plain: &Plain) -> Term {
    let (coefficient, x1, x2) = *plain;
    let monomial = Monomial {
        x1,
        x2,
        ..Monomial::ONE
    };
    Term {
        coefficient,
        monomial,
    }
}

// x_2²+5x_2+6x_1+1, x_1x_2+3x_2+2x_1+4 and x_1²+5x_2+x_1+2, over residues modulo 7.
const TRIPLE: [&[Plain]; 3] = [
    &[(1, 0, 2), (5, 0, 1), (6, 1, 0), (1, 0, 0)],
    &[(1, 1, 1), (3, 0, 1), (2, 1, 0), (4, 0, 0)],
    &[(1, 2, 0), (5, 0, 1), (1, 1, 0), (2, 0, 0)],
];

fn say(rt: &HostRuntime, call: &str, answer: Result<(), JobFault>) -> io::Result<()> {
    match answer {
        Ok(()) => println!(rt; "{call}: accepted"),
        Err(fault) => println!(rt; "{call}: refused by {fault}"),
    }
}

fn say_words(
    rt: &HostRuntime,
    call: &str,
    answer: Result<(), JobFault>,
    words: &[u32],
) -> io::Result<()> {
    if answer.is_err() {
        return say(rt, call, answer);
    }
    print!(rt; "{call}:")?;
    for w in words {
        print!(rt; " {w}")?;
    }
    println!(rt; "")
}

// Enters a polynomial of at most eight terms.
fn enter<F: Field, O: Order>(
    rt: &HostRuntime,
    job: &mut Job<F, O>,
    polynomial: &[Plain],
) -> io::Result<()> {
    let mut terms = [Term::default(); 8];
    let count = polynomial.len().min(terms.len());
    for (slot, plain) in terms.iter_mut().zip(polynomial) {
        *slot = term(plain);
    }
    say(rt, "enter", job.enter(&terms[..count]))
}

fn close<F: Field, O: Order>(rt: &HostRuntime, job: &mut Job<F, O>) -> io::Result<()> {
    match job.close() {
        Ok(size) => println!(rt; "close: {size} staircase monomials"),
        Err(fault) => say(rt, "close", Err(fault)),
    }
}

// Opens a job of two variables, enters the polynomials and closes it.
fn load<F: Field, O: Order>(
    rt: &HostRuntime,
    job: &mut Job<F, O>,
    polynomials: &[&[Plain]],
) -> io::Result<()> {
    say(rt, "open 2", job.open(2))?;
    for p in polynomials {
        enter(rt, job, p)?;
    }
    close(rt, job)
}

// Converts into eight words that hold 9 before.
fn convert<F: Field, O: Order>(
    rt: &HostRuntime,
    job: &Job<F, O>,
    call: &str,
    k: usize,
    r: &[u32],
) -> io::Result<()> {
    let mut out = [9; 8];
    let answer = job.convert(k, r, &mut out);
    say_words(rt, call, answer, &out)
}

fn reduce<F: Field, O: Order>(
    rt: &HostRuntime,
    job: &Job<F, O>,
    call: &str,
    terms: &[Term],
) -> io::Result<()> {
    let mut out = [9; 4];
    let answer = job.reduce(terms, &mut out);
    say_words(rt, call, answer, &out)
}

fn stairs<F: Field, O: Order>(rt: &HostRuntime, job: &Job<F, O>) -> io::Result<()> {
    // Places past the last stair are asked as well, so no list holds what is gone over.
    for place in 0..5 {
        match job.stair(place) {
            Some(m) => {
                let (x1, x2) = (m.x1, m.x2);
                println!(rt; "stair {place}: {x1} {x2}")?;
            }
            None => println!(rt; "stair {place}: none")?,
        }
    }
    Ok(())
}

// What a polynomial is asked before it is entered.
fn questions<F: Field, O: Order>(rt: &HostRuntime, job: &mut Job<F, O>) -> io::Result<()> {
    say(rt, "open 5", job.open(5))?;
    say(rt, "open 2", job.open(2))?;
    enter(rt, job, &[])?;
    enter(rt, job, &[(1, 0, 2), (0, 0, 1)])?;
    enter(rt, job, &[(1, 0, 2), (7, 0, 1)])?;
    enter(rt, job, &[(1, 49, 0)])?;
    enter(rt, job, &[(1, 0, 1), (1, 0, 2)])?;
    enter(rt, job, &[(2, 0, 2)])?;
    convert(rt, job, "convert 1, open", 1, &[0, 0, 1])
}

// The calls to a closed job of the triple, accepted and refused.
fn calls<F: Field, O: Order>(rt: &HostRuntime, job: &mut Job<F, O>) -> io::Result<()> {
    load(rt, job, &TRIPLE)?;
    stairs(rt, job)?;
    convert(rt, job, "convert 1 with 0 0 1", 1, &[0, 0, 1])?;
    convert(rt, job, "convert 2 with 0 0 1", 2, &[0, 0, 1])?;
    convert(rt, job, "convert 1 with 1 0 0", 1, &[1, 0, 0])?;
    convert(rt, job, "convert 3", 3, &[0, 0, 1])?;
    convert(rt, job, "convert 1 with two words", 1, &[0, 1])?;
    convert(rt, job, "convert 1 with 0 7 1", 1, &[0, 7, 1])?;
    let short = job.convert(1, &[0, 0, 1], &mut [0; 5]);
    say(rt, "convert 1 into five words", short)?;
    reduce(rt, job, "reduce x_1^3", &[term(&(1, 3, 0))])?;
    reduce(rt, job, "reduce nothing", &[])?;
    enter(rt, job, TRIPLE[0])?;
    close(rt, job)
}

// Bases that Close refuses, each by a question of its own, and one with the largest staircase.
const DISAGREES: [&[Plain]; 3] = [&[(1, 2, 0)], &[(1, 1, 1), (6, 0, 0)], &[(1, 0, 2)]];

const LED_BY_ONE: [&[Plain]; 1] = [&[(1, 0, 0)]];

const NO_POWER: [&[Plain]; 2] = [&[(1, 1, 1)], &[(1, 0, 2)]];

const DIVIDED: [&[Plain]; 3] = [&[(1, 2, 0)], &[(1, 3, 0)], &[(1, 0, 2)]];

const OUTSIDE: [&[Plain]; 2] = [&[(1, 0, 2), (1, 2, 0)], &[(1, 2, 0)]];

const TOO_LARGE: [&[Plain]; 2] = [&[(1, 7, 0)], &[(1, 0, 7)]];

const LARGEST: [&[Plain]; 2] = [&[(1, 6, 0)], &[(1, 0, 8)]];

// x_1²+6 and x_2+5; and x_1², x_1x_2 and x_2².
const LINE: [&[Plain]; 2] = [&[(1, 2, 0), (6, 0, 0)], &[(1, 0, 1), (5, 0, 0)]];

const POINT: [&[Plain]; 3] = [&[(1, 2, 0)], &[(1, 1, 1)], &[(1, 0, 2)]];

// Bases without a shape in some variable.
fn shapes<F: Field, O: Order>(rt: &HostRuntime, job: &mut Job<F, O>) -> io::Result<()> {
    load(rt, job, &LINE)?;
    convert(rt, job, "convert 1 with 0 1", 1, &[0, 1])?;
    convert(rt, job, "convert 2 with 0 1", 2, &[0, 1])?;
    load(rt, job, &POINT)?;
    convert(rt, job, "convert 1 with 0 0 1", 1, &[0, 0, 1])
}

fn closes<F: Field, O: Order>(rt: &HostRuntime, job: &mut Job<F, O>) -> io::Result<()> {
    load(rt, job, &LED_BY_ONE)?;
    load(rt, job, &NO_POWER)?;
    load(rt, job, &DIVIDED)?;
    load(rt, job, &TOO_LARGE)?;
    load(rt, job, &OUTSIDE)?;
    load(rt, job, &DISAGREES)?;
    load(rt, job, &LARGEST)
}

// x_2+87x_1+131 and x_1²+2x_1+3, over bytes.
const BYTES: [&[Plain]; 2] = [
    &[(1, 0, 1), (87, 1, 0), (131, 0, 0)],
    &[(1, 2, 0), (2, 1, 0), (3, 0, 0)],
];

// The triple as a text, and what follows it.
const TEXT: &[u8] =
    b"          7          1          2          3\n          4\n          1          0          2\n          5          0          1\n          6          1          0\n          1          0          0\n          4\n          1          1          1\n          3          0          1\n          2          1          0\n          4          0          0\n          4\n          1          2          0\n          5          0          1\n          1          1          0\n          2          0          0\nmore";

fn say_text(rt: &HostRuntime, call: &str, answer: Result<usize, TextFault>) -> io::Result<()> {
    match answer {
        Ok(size) => println!(rt; "{call}: {size} bytes"),
        Err(fault) => println!(rt; "{call}: refused by {fault}"),
    }
}

// Fills a job from the text, and from texts that are refused; writes it again.
fn texts<F: Field, O: Order>(rt: &HostRuntime, job: &mut Job<F, O>) -> io::Result<()> {
    say(rt, "open 1", job.open(1))?;
    say_text(rt, "fill, other n", fill(job, TEXT))?;
    say(rt, "open 2", job.open(2))?;
    say_text(rt, "fill, header cut", fill(job, &TEXT[0..20]))?;
    say_text(
        rt,
        "fill, cut in the last polynomial",
        fill(job, &TEXT[0..420]),
    )?;
    let held = job.count();
    println!(rt; "held: {held}")?;
    say_text(rt, "fill", fill(job, TEXT))?;
    say_text(rt, "fill again", fill(job, TEXT))?;
    let mut out = [0; 600];
    say_text(rt, "write", write(job, 7, 1, &mut out))?;
    let same = out[0..489] == TEXT[0..489];
    println!(rt; "the same bytes: {same}")?;
    say_text(
        rt,
        "write into a short output",
        write(job, 7, 1, &mut out[0..488]),
    )
}

fn main(rt: HostRuntime) -> io::Result<()> {
    if let Ok(seven) = Residue::new(7) {
        println!(rt; "residues modulo 7, DRL")?;
        let mut job = Job::new(seven, Drl);
        questions(&rt, &mut job)?;
        calls(&rt, &mut job)?;
        shapes(&rt, &mut job)?;
        closes(&rt, &mut job)?;
        texts(&rt, &mut job)?;
    }
    println!(rt; "bytes, LEX")?;
    let mut job = Job::new(ByteField, Lex);
    load(&rt, &mut job, &BYTES)?;
    convert(&rt, &job, "convert 1 with 0 1", 1, &[0, 1])?;
    convert(&rt, &job, "convert 2 with 0 1", 2, &[0, 1])
}
