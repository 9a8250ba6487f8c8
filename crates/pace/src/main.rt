// Pace: reads a basis text in DRL from standard input and runs Fill, Close and Convert on it as often
// as its three arguments say, so that a clock around it tells what each costs. Prints D and what the
// last Convert answered.
#![tactic(auto)]

use field::{ByteField, Field, Residue};
use job::{Job, JobFault};
use order::Drl;
use std::io::Read;
use std::{env, io};
use text::{fill, header};

// How often to fill, to fill and close, and to convert.
#[derive(Clone, Copy)]
struct Turns {
    fills: u32,
    closes: u32,
    converts: u32,
}

// Words that are elements of every field.
const VECTOR: [u32; 48] = [
    1, 0, 0, 1, 1, 0, 1, 0, 1, 1, 1, 0, 0, 0, 1, 0, 1, 1, 0, 1, 0, 0, 1, 1, 1, 0, 1, 1, 0, 0, 0, 1,
    0, 1, 1, 0, 1, 0, 1, 1, 0, 0, 1, 0, 1, 1, 1, 1,
];

// Fills and closes so often, and answers D of the last.
fn closed<F: Field>(job: &mut Job<F, Drl>, n: usize, text: &[u8], turns: Turns) -> usize {
    let mut size = 0;
    // Over no items, as the loops below: the same call so many times.
    for _i in 0..turns.fills {
        let _ = job.open(n);
        let _ = fill(job, text);
    }
    for _i in 0..turns.closes {
        let _ = job.open(n);
        let _ = fill(job, text);
        size = job.close().unwrap_or(0);
    }
    size
}

// Converts so often, and answers what the last call answered.
fn converted<F: Field>(job: &Job<F, Drl>, r: &[u32], times: u32) -> Result<(), JobFault> {
    let mut out = [0; 192];
    let mut last = Ok(());
    for _i in 0..times {
        last = job.convert(1, r, &mut out);
    }
    last
}

fn run<F: Field + Drop>(
    rt: &HostRuntime,
    field: F,
    n: usize,
    text: &[u8],
    turns: Turns,
) -> io::Result<()> {
    let mut job = Job::new(field, Drl);
    let size = closed(&mut job, n, text, turns);
    let r = &VECTOR[0..size.min(48)];
    // The number of a refusal, 0 where there is none.
    let number = converted(&job, r, turns.converts).map_or_else(|fault| fault.number(), |()| 0);
    println!(rt; "{size} {number}")
}

fn asked(rt: &HostRuntime) -> io::Result<Turns> {
    let mut counts = [1u32; 3];
    for (count, word) in counts.iter_mut().zip(env::args(rt)?.skip(1)) {
        *count = word.parse::<u32>().unwrap_or(1);
    }
    let [fills, closes, converts] = counts;
    Ok(Turns {
        fills,
        closes,
        converts,
    })
}

fn main(rt: HostRuntime) -> io::Result<()> {
    let turns = asked(&rt)?;
    let mut input = Vec::new(rt.alloc());
    rt.stdin().read_to_end(&mut input)?;
    let text = input.as_slice();
    let Ok((code, _, n, _)) = header(text) else {
        return println!(rt; "no header");
    };
    // The code is a word of the text, 0 or any prime: an enum with one case and a number is no plainer.
    // A word fits a usize: `as` keeps it, and Rust has no `From` there.
    if code == 0 {
        return run(&rt, ByteField, n as usize, text, turns);
    }
    match Residue::new(code) {
        Ok(field) => run(&rt, field, n as usize, text, turns),
        Err(_) => println!(rt; "no field"),
    }
}
