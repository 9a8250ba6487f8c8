// What a job refuses at the wrong stage or for want of room: number, layer and place.
use field::Residue;
use job::{Job, JobFault, Term};
use order::{Drl, Monomial};
use std::test::Fail;

// Number, layer and place of a refusal; zeros where nothing is refused.
fn reported(answer: Result<(), JobFault>) -> (u32, u32, usize) {
    answer.map_or_else(
        |fault| (fault.number(), fault.layer(), fault.place()),
        |()| (0, 0, 0),
    )
}

const SQUARE: [Term; 1] = [Term {
    coefficient: 1,
    monomial: Monomial {
        x1: 2,
        ..Monomial::ONE
    },
}];

#[test]
fn open_jobs(rt: HostRuntime) -> Result<(), Fail> {
    let Ok(field) = Residue::new(7) else {
        return Err(Fail::new("a listed prime"));
    };
    let mut job = Job::new(field, Drl);
    let mut out = [9u32; 2];
    assert_eq!(rt; reported(job.open(5)), (4, 2, 0));
    assert_eq!(rt; reported(job.convert(1, &[0, 1], &mut out)), (19, 2, 0));
    assert_eq!(rt; reported(job.reduce(&SQUARE, &mut out)), (19, 2, 0));
    assert_eq!(rt; out, [9, 9]);
    Ok(())
}

#[test]
fn closed_jobs(rt: HostRuntime) -> Result<(), Fail> {
    let Ok(field) = Residue::new(7) else {
        return Err(Fail::new("a listed prime"));
    };
    let mut job = Job::new(field, Drl);
    let mut out = [9u32; 2];
    assert_eq!(rt; reported(job.enter(&SQUARE)), (0, 0, 0));
    assert_eq!(rt; reported(job.close().map(|_| ())), (0, 0, 0));
    assert_eq!(rt; reported(job.enter(&SQUARE)), (5, 2, 0));
    assert_eq!(rt; reported(job.close().map(|_| ())), (5, 2, 0));
    assert_eq!(rt;
        reported(job.convert(1, &[0, 1], &mut out[..1])),
        (23, 2, 0)
    );
    assert_eq!(rt; reported(job.reduce(&SQUARE, &mut out[..1])), (23, 2, 0));
    assert_eq!(rt; out, [9, 9]);
    Ok(())
}
