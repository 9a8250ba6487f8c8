// What the program probe answers to texts: values over residues and bytes, and its refusals, each
// with number, layer, line and place.
use evaluation::answer_to;
use std::test::Fail;

// A basis of one polynomial, 2 x_1 + 3 over GF(7), at the point 2.
const ONE: &[u8] =
    b"          7          1          1          1\n          2\n          2          1\n          3          0\n          2\n";

const BYTES: &[u8] =
    b"          0          4          2          1\n          1\n         87          1          0\n        131          9\n";

const ANSWERS: [(&[u8], &[u8]); 14] = [
    (ONE, b"          0\n"),
    (BYTES, b"        193\n"),
    (b"", b"         26          3          1          1\n"),
    (
        b"          7         01          1          1\n",
        b"         27          3          1          1\n",
    ),
    (
        b" 2147483648          1          1          1\n",
        b"          1          1          1          0\n",
    ),
    (
        b"          4          1          1          1\n",
        b"          2          1          1          0\n",
    ),
    (
        b"          7          5          9          1\n",
        b"         31          4          1          0\n",
    ),
    (
        b"          7          4          5          1\n",
        b"          4          2          1          0\n",
    ),
    (
        b"          7          1          1          1\n          0\n",
        b"          7          2          2          0\n",
    ),
    (
        b"          7          1          1          1\n          2\n          1         49\n          7          1\n",
        b"          9          2          2          2\n",
    ),
    (
        b"          7          1          1          1\n          2\n          1         49\n          6          1\n",
        b"         10          2          2          1\n",
    ),
    (
        b"          7          1          1          1\n          1\n          1          1\n          7\n",
        b"         22          2          4          1\n",
    ),
    (
        b"          7          1          1          0\n          6\n\n",
        b"         30          4          0          0\n",
    ),
    (
        b"          7          1          1          1\n          1\n          1          1          1\n",
        b"         26          3          3          3\n",
    ),
];

#[test]
fn answers(rt: HostRuntime) -> Result<(), Fail> {
    for (text, answer) in ANSWERS {
        let mut out = [0u8; 8192];
        let Some(length) = answer_to(text, &mut out) else {
            return Err(Fail::new("room for every answer"));
        };
        assert!(rt; length <= 8192);
        assert!(rt; &out[0..length] == answer);
    }
    Ok(())
}

#[test]
fn long_texts(rt: HostRuntime) {
    let mut out = [0u8; 8192];
    assert_eq!(rt; answer_to(&[32; 8193], &mut out), Some(45));
    assert!(rt; &out[0..45] == b"         32          4          0          0\n".as_slice());
    assert_eq!(rt; answer_to(ONE, &mut [0; 8191]), None);
}
