// Runs the kernels of linear algebra over three fields on one small matrix each, and prints what they
// answer: Krylov vectors by the matrix step, their sequence by the dot product, its least recurrence,
// where the vectors first depend, and the coordinates of a vector solved from the Hankel table.
#![tactic(auto)]

use field::{ByteField, Field, Residue};
use linear::dot::dot;
use linear::elimination::{Echelon, EliminateFault, Family, SolveFault};
use linear::recurrence::recurrence_length;
use linear::step::{Matrix, Misfit, Place, step};
use std::io;

// The matrix of a variable over a staircase of three monomials 1, x, y: x times 1 is x, the other two
// products lie in the border.
const PLACES: [Place; 3] = [Place::Stair(1), Place::Border(0), Place::Border(1)];

const SIZE: usize = 3;

const STEPS: usize = 6;

// The vectors v, T v, .. one after the other, and the words r . T^j v.
fn walk<F: Field>(
    field: &F,
    columns: &[u32],
    r: &[u32],
    start: [u32; SIZE],
    vectors: &mut [u32; 18],
    words: &mut [u32; STEPS],
) -> Result<(), Misfit> {
    let matrix = Matrix {
        places: &PLACES,
        columns,
        stride: SIZE,
    };
    let mut v = start;
    for (vector, word) in vectors.chunks_exact_mut(SIZE).zip(words) {
        vector.copy_from_slice(&v);
        *word = dot(field, r, &v);
        let mut next = [0; SIZE];
        step(field, SIZE, matrix, &v, &mut next)?;
        v = next;
    }
    Ok(())
}

fn print_words(rt: &HostRuntime, label: &str, words: &[u32]) -> io::Result<()> {
    print!(rt; "{label}:")?;
    for w in words {
        print!(rt; " {w}")?;
    }
    println!(rt; "")
}

// Where three vectors first depend on those before.
fn print_dependence<F: Field>(rt: &HostRuntime, field: &F, vectors: &[u32]) -> io::Result<()> {
    let family = Family {
        words: vectors,
        stride: SIZE,
        places: SIZE,
        count: SIZE,
    };
    let mut echelon: Echelon<SIZE> = Echelon::new();
    match echelon.eliminate(field, family) {
        Ok(()) => println!(rt; "vectors: independent"),
        Err(EliminateFault::Depends(j)) => println!(rt; "vectors: {j} depends"),
        Err(EliminateFault::NoRoom) => println!(rt; "vectors: refused"),
    }
}

// The coefficients that combine the rows of the Hankel table to the words given.
fn print_solution<F: Field>(
    rt: &HostRuntime,
    field: &F,
    words: &[u32],
    right: &[u32],
) -> io::Result<()> {
    let family = Family {
        words,
        stride: 1,
        places: SIZE,
        count: SIZE,
    };
    let mut echelon: Echelon<SIZE> = Echelon::new();
    if let Err(EliminateFault::Depends(j)) = echelon.eliminate(field, family) {
        return println!(rt; "table: row {j} depends");
    }
    let mut out = [0; SIZE];
    match echelon.solve(field, right, &mut out) {
        Ok(()) => print_words(rt, "coordinates", &out),
        Err(SolveFault::Outside) => println!(rt; "table: outside"),
        Err(SolveFault::NoRoom) => println!(rt; "table: refused"),
    }
}

fn print_recurrence<F: Field>(rt: &HostRuntime, field: &F, words: &[u32; STEPS]) -> io::Result<()> {
    let mut c = [0; 7];
    match recurrence_length(field, words, &mut c, &mut [0; 7], &mut [0; 7]) {
        Some(l) => {
            println!(rt; "recurrence: length {l}")?;
            print_words(rt, "polynomial", &c)
        }
        None => println!(rt; "recurrence: refused"),
    }
}

fn show<F: Field>(rt: &HostRuntime, field: &F, columns: &[u32], r: &[u32]) -> io::Result<()> {
    let (zero, one) = (field.zero(), field.one());
    let mut vectors = [0; 18];
    let mut words = [0; STEPS];
    if let Err(Misfit) = walk(
        field,
        columns,
        r,
        [one, zero, zero],
        &mut vectors,
        &mut words,
    ) {
        return println!(rt; "krylov: refused");
    }
    print_words(rt, "krylov", &vectors)?;
    print_words(rt, "sequence", &words)?;
    print_recurrence(rt, field, &words)?;
    print_dependence(rt, field, &vectors)?;
    let mut right = [0; STEPS];
    if let Err(Misfit) = walk(
        field,
        columns,
        r,
        [zero, zero, one],
        &mut vectors,
        &mut right,
    ) {
        return println!(rt; "krylov: refused");
    }
    print_solution(rt, field, &words, &right[0..3])
}

fn main(rt: HostRuntime) -> io::Result<()> {
    if let Ok(seven) = Residue::new(7) {
        println!(rt; "residues modulo 7")?;
        show(&rt, &seven, &[5, 6, 2, 3, 5, 4], &[0, 0, 1])?;
        println!(rt; "residues modulo 7, another vector")?;
        show(&rt, &seven, &[5, 6, 2, 3, 5, 4], &[1, 0, 0])?;
    }
    if let Ok(large) = Residue::new(65521) {
        println!(rt; "residues modulo 65521")?;
        let columns = [12345, 54321, 777, 40000, 1, 65520];
        show(&rt, &large, &columns, &[3, 1, 4])?;
    }
    println!(rt; "bytes")?;
    show(&rt, &ByteField, &[87, 131, 2, 19, 254, 7], &[1, 2, 3])?;
    println!(rt; "bytes, a matrix with a short orbit")?;
    show(&rt, &ByteField, &[9, 0, 0, 19, 254, 7], &[1, 2, 3])
}
