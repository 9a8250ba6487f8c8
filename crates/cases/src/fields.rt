// Fields at listed and unlisted moduli, at words that are no elements, and the published bytes.
use field::{ByteField, Field, Residue};
use std::test::Fail;

// The number that refuses a modulus, 0 where it is accepted.
fn refusal(p: u32) -> u32 {
    match Residue::new(p) {
        Ok(_) => 0,
        Err(fault) => fault.number(),
    }
}

#[test]
fn moduli(rt: HostRuntime) {
    for (p, number) in [
        (0, 1),
        (1, 1),
        (2, 0),
        (4, 2),
        (23, 0),
        (65521, 0),
        (2147483646, 2),
        (2147483647, 0),
        (2147483648, 1),
        (4294967295, 1),
    ] {
        assert_eq!(rt; refusal(p), number, "the refusal of a modulus");
    }
}

#[test]
fn residues(rt: HostRuntime) -> Result<(), Fail> {
    let Ok(field) = Residue::new(2147483647) else {
        return Err(Fail::new("the largest prime"));
    };
    assert_eq!(rt; field.add(2147483646, 2), 1);
    assert_eq!(rt; field.mul(2147483646, 2147483646), 1);
    assert_eq!(rt; field.mul(2147483647, 1), 0);
    assert_eq!(rt; field.neg(0), 0);
    assert_eq!(rt; field.inverse(2), Some(1073741824));
    assert_eq!(rt; field.inverse(0), None);
    Ok(())
}

#[test]
fn published_bytes(rt: HostRuntime) {
    assert_eq!(rt; ByteField.add(87, 131), 212);
    assert_eq!(rt; ByteField.mul(87, 131), 193);
    assert_eq!(rt; ByteField.mul(87, 19), 254);
    assert_eq!(rt; ByteField.inverse(2), Some(141));
    assert_eq!(rt; ByteField.inverse(256), None);
    assert_eq!(rt; ByteField.add(256, 1), 0);
}
