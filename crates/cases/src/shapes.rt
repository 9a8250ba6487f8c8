// What the program shape answers to texts: bases over residues and bytes in all four orders, and its
// refusals, each with number, layer, line and place. Texts and answers stand as numbers, a list a line.
use column::write_line;
use shaping::{LONGEST_ANSWER, answer_to};
use std::test::Fail;

type Lines = &'static [&'static [u32]];

// x_2^2 + 5 x_2 + 6 x_1 + 1, x_1 x_2 + 3 x_2 + 2 x_1 + 4 and x_1^2 + 5 x_2 + x_1 + 2; the request is in line 17.
const TRIPLE: Lines = &[
    &[7, 1, 2, 3],
    &[4],
    &[1, 0, 2],
    &[5, 0, 1],
    &[6, 1, 0],
    &[1, 0, 0],
    &[4],
    &[1, 1, 1],
    &[3, 0, 1],
    &[2, 1, 0],
    &[4, 0, 0],
    &[4],
    &[1, 2, 0],
    &[5, 0, 1],
    &[1, 1, 0],
    &[2, 0, 0],
];

// The same with x_1 and x_2 exchanged.
const EXCHANGED: Lines = &[
    &[7, 3, 2, 3],
    &[4],
    &[1, 2, 0],
    &[5, 1, 0],
    &[6, 0, 1],
    &[1, 0, 0],
    &[4],
    &[1, 1, 1],
    &[3, 1, 0],
    &[2, 0, 1],
    &[4, 0, 0],
    &[4],
    &[1, 0, 2],
    &[5, 1, 0],
    &[1, 0, 1],
    &[2, 0, 0],
];

// The ideal of the triple once more, by the basis that it has in LEX; and that with x_1 and x_2 exchanged.
const LEX: Lines = &[
    &[7, 2, 2, 2],
    &[3],
    &[1, 3, 0],
    &[4, 2, 0],
    &[2, 1, 0],
    &[4],
    &[1, 0, 1],
    &[3, 2, 0],
    &[3, 1, 0],
    &[6, 0, 0],
];

const LEX_EXCHANGED: Lines = &[
    &[7, 4, 2, 2],
    &[3],
    &[1, 0, 3],
    &[4, 0, 2],
    &[2, 0, 1],
    &[4],
    &[1, 1, 0],
    &[3, 0, 2],
    &[3, 0, 1],
    &[6, 0, 0],
];

// x_1^2 + 6 and x_2 + 5; x_1^2, x_1 x_2 and x_2^2; four polynomials over GF(23); two over bytes.
const LINE: Lines = &[
    &[7, 1, 2, 2],
    &[2],
    &[1, 2, 0],
    &[6, 0, 0],
    &[2],
    &[1, 0, 1],
    &[5, 0, 0],
];

const POWERS: Lines = &[
    &[7, 1, 2, 3],
    &[1],
    &[1, 2, 0],
    &[1],
    &[1, 1, 1],
    &[1],
    &[1, 0, 2],
];

const FOUR: Lines = &[
    &[23, 1, 3, 4],
    &[4],
    &[1, 3, 0, 0],
    &[12, 2, 0, 0],
    &[10, 0, 1, 0],
    &[1, 1, 0, 0],
    &[4],
    &[1, 0, 2, 0],
    &[4, 2, 0, 0],
    &[9, 0, 1, 0],
    &[14, 1, 0, 0],
    &[4],
    &[1, 1, 1, 0],
    &[15, 2, 0, 0],
    &[16, 0, 1, 0],
    &[18, 1, 0, 0],
    &[4],
    &[1, 0, 0, 1],
    &[2, 0, 1, 0],
    &[2, 1, 0, 0],
    &[22, 0, 0, 0],
];

const BYTES: Lines = &[
    &[0, 1, 2, 2],
    &[3],
    &[1, 2, 0],
    &[87, 1, 0],
    &[131, 0, 0],
    &[3],
    &[1, 0, 1],
    &[2, 1, 0],
    &[3, 0, 0],
];

// The lines of a basis, those of a request, and those of the answer.
const BASES: [(Lines, Lines, Lines); 12] = [
    (
        TRIPLE,
        &[&[1, 3], &[0], &[0], &[1]],
        &[&[0, 2, 3, 1], &[0, 2, 4], &[1, 4, 4]],
    ),
    (
        TRIPLE,
        &[&[2, 3], &[0], &[0], &[1]],
        &[&[0, 2, 3, 2], &[1, 5, 1], &[6, 0, 0]],
    ),
    (
        EXCHANGED,
        &[&[2, 3], &[0], &[0], &[1]],
        &[&[0, 2, 3, 2], &[1, 4, 4], &[0, 2, 4]],
    ),
    (
        EXCHANGED,
        &[&[1, 3], &[0], &[0], &[1]],
        &[&[0, 2, 3, 1], &[6, 0, 0], &[1, 5, 1]],
    ),
    (
        LEX,
        &[&[1, 3], &[0], &[0], &[1]],
        &[&[0, 2, 3, 1], &[0, 2, 4], &[1, 4, 4]],
    ),
    (
        LEX_EXCHANGED,
        &[&[2, 3], &[0], &[0], &[1]],
        &[&[0, 2, 3, 2], &[1, 4, 4], &[0, 2, 4]],
    ),
    (
        LINE,
        &[&[1, 2], &[0], &[1]],
        &[&[0, 2, 2, 1], &[6, 0], &[2, 0]],
    ),
    (
        FOUR,
        &[&[1, 4], &[16], &[2], &[18], &[22]],
        &[
            &[0, 3, 4, 1],
            &[0, 20, 20, 5],
            &[0, 16, 8, 16],
            &[1, 12, 7, 14],
        ],
    ),
    (
        BYTES,
        &[&[1, 2], &[0], &[1]],
        &[&[0, 2, 2, 1], &[131, 87], &[3, 2]],
    ),
    (
        BYTES,
        &[&[2, 2], &[0], &[1]],
        &[&[0, 2, 2, 2], &[140, 141], &[214, 174]],
    ),
    (
        &[&[0, 4, 1, 1], &[2], &[1, 1], &[255, 0]],
        &[&[1, 1], &[1]],
        &[&[0, 1, 1, 1], &[255]],
    ),
    (
        &[&[2, 2, 1, 1], &[2], &[1, 2], &[1, 1]],
        &[&[1, 2], &[0], &[1]],
        &[&[0, 1, 2, 1], &[0, 1]],
    ),
];

// The lines of a text, the bytes after them, and the number, layer, line and place of its refusal.
const REFUSALS: [(Lines, Lines, &[u8], &[u32]); 36] = [
    (&[&[1, 5, 9, 0]], &[], b"", &[1, 1, 1, 0]),
    (&[&[2147483648, 1, 1, 1]], &[], b"", &[1, 1, 1, 0]),
    (&[&[4, 5, 9, 0]], &[], b"", &[2, 1, 1, 0]),
    (&[&[7, 0, 9, 0]], &[], b"", &[31, 4, 1, 0]),
    (&[&[0, 5, 9, 0]], &[], b"", &[31, 4, 1, 0]),
    (&[&[7, 4, 0, 0]], &[], b"", &[4, 2, 1, 0]),
    (&[&[7, 3, 257, 0]], &[], b"", &[4, 2, 1, 0]),
    (&[&[7, 1, 1, 1], &[0]], &[], b"", &[7, 2, 2, 0]),
    (&[&[7, 1, 1, 1], &[1025]], &[], b"", &[8, 2, 2, 0]),
    (
        &[&[7, 1, 1, 1], &[2], &[1, 49], &[7, 0]],
        &[],
        b"",
        &[9, 2, 2, 2],
    ),
    (
        &[&[7, 1, 1, 2], &[1], &[1, 1], &[1], &[1, 49]],
        &[],
        b"",
        &[10, 2, 4, 1],
    ),
    (
        &[&[7, 1, 1, 1], &[2], &[1, 1], &[1, 1]],
        &[],
        b"",
        &[11, 2, 2, 2],
    ),
    (&[&[7, 1, 1, 1], &[1], &[2, 1]], &[], b"", &[12, 2, 2, 0]),
    (
        &[&[7, 1, 1, 2], &[1], &[1, 1], &[1], &[1, 0]],
        &[],
        b"",
        &[13, 2, 0, 2],
    ),
    (
        &[&[7, 1, 2, 2], &[1], &[1, 1, 1], &[1], &[1, 0, 2]],
        &[],
        b"",
        &[14, 2, 0, 1],
    ),
    (
        &[&[7, 1, 1, 2], &[1], &[1, 2], &[1], &[1, 3]],
        &[],
        b"",
        &[15, 2, 0, 2],
    ),
    (
        &[&[7, 1, 2, 2], &[1], &[1, 7, 0], &[1], &[1, 0, 7]],
        &[],
        b"",
        &[16, 2, 0, 0],
    ),
    (
        &[
            &[7, 1, 2, 2],
            &[2],
            &[1, 0, 2],
            &[1, 2, 0],
            &[1],
            &[1, 2, 0],
        ],
        &[],
        b"",
        &[17, 2, 0, 1],
    ),
    (
        &[
            &[7, 1, 2, 3],
            &[1],
            &[1, 2, 0],
            &[2],
            &[1, 1, 1],
            &[6, 0, 0],
            &[1],
            &[1, 0, 2],
        ],
        &[],
        b"",
        &[18, 2, 0, 0],
    ),
    (TRIPLE, &[&[0, 2]], b"", &[20, 2, 17, 0]),
    (TRIPLE, &[&[3, 3]], b"", &[20, 2, 17, 0]),
    (TRIPLE, &[&[2, 4]], b"", &[21, 2, 17, 0]),
    (TRIPLE, &[&[1, 3], &[0], &[7], &[1]], b"", &[22, 2, 17, 2]),
    (LINE, &[&[2, 2], &[0], &[1]], b"", &[24, 2, 8, 1]),
    (POWERS, &[&[1, 3], &[0], &[0], &[1]], b"", &[24, 2, 8, 2]),
    (TRIPLE, &[&[1, 3], &[1], &[0], &[0]], b"", &[25, 2, 17, 2]),
    (&[], &[], b"", &[26, 3, 1, 1]),
    (&[&[7, 1, 1, 1, 1]], &[], b"", &[26, 3, 1, 1]),
    (TRIPLE, &[], b"", &[26, 3, 17, 17]),
    (TRIPLE, &[&[1, 3], &[0], &[0]], b"", &[26, 3, 20, 20]),
    (
        &[],
        &[],
        b"          7         01          1          1\n",
        &[27, 3, 1, 1],
    ),
    (
        &[&[7, 1, 1, 1], &[1]],
        &[],
        b"          1          x\n",
        &[27, 3, 3, 3],
    ),
    (TRIPLE, &[], b"          0          x\n", &[27, 3, 17, 17]),
    (
        TRIPLE,
        &[&[1, 3], &[0]],
        b"          x\n          1\n",
        &[27, 3, 19, 19],
    ),
    (TRIPLE, &[&[1, 3], &[0], &[7], &[1]], b"\n", &[30, 4, 0, 0]),
    (
        TRIPLE,
        &[&[1, 3], &[1], &[0], &[0], &[0]],
        b"",
        &[30, 4, 0, 0],
    ),
];

// Writes lines from a byte on, and answers where they end.
fn put_lines(lines: &[&[u32]], at: usize, out: &mut [u8]) -> usize {
    let mut end = at;
    for line in lines {
        end = write_line(out, end, line).unwrap_or(end);
    }
    end
}

// Writes bytes from a byte on, and answers where they end.
fn put_bytes(bytes: &[u8], at: usize, out: &mut [u8]) -> usize {
    for (place, byte) in out.iter_mut().skip(at).zip(bytes) {
        *place = *byte;
    }
    at.saturating_add(bytes.len())
}

// Whether the answer to the text in front of a buffer is as wanted.
fn is_answered(text: &[u8], end: usize, wanted: &[&[u32]]) -> bool {
    let mut out = [0u8; LONGEST_ANSWER];
    let length = answer_to(text.get(..end).unwrap_or(text), &mut out);
    let mut answer = [0u8; LONGEST_ANSWER];
    let size = put_lines(wanted, 0, &mut answer);
    length == Some(size) && out == answer
}

#[test]
fn bases(rt: HostRuntime) {
    for (lines, request, answer) in BASES {
        let mut text = [0u8; 8192];
        let end = put_lines(lines, 0, &mut text);
        let end = put_lines(request, end, &mut text);
        assert!(rt; is_answered(&text, end, answer));
    }
}

#[test]
fn refusals(rt: HostRuntime) {
    for (lines, request, rest, answer) in REFUSALS {
        let mut text = [0u8; 8192];
        let end = put_lines(lines, 0, &mut text);
        let end = put_lines(request, end, &mut text);
        let end = put_bytes(rest, end, &mut text);
        assert!(rt; is_answered(&text, end, &[answer]));
    }
}

const PRIMES: [u32; 10] = [2, 3, 5, 7, 23, 251, 257, 32003, 65521, 2147483647];

// x_1^2 - 1 over each of them.
#[test]
fn every_field(rt: HostRuntime) {
    for p in PRIMES {
        let mut text = [0u8; 8192];
        let head: [&[u32]; 4] = [&[p, 2, 1, 1], &[2], &[1, 2], &[p - 1, 0]];
        let end = put_lines(&head, 0, &mut text);
        let end = put_lines(&[&[1, 2], &[0], &[1]], end, &mut text);
        assert!(rt; is_answered(&text, end, &[&[0, 1, 2, 1], &[p - 1, 0]]));
    }
}

// Writes a basis of so many polynomials of one variable, each a power of it.
fn put_powers(count: u32, out: &mut [u8]) -> usize {
    let mut end = put_lines(&[&[7, 1, 1, count]], 0, out);
    for e in 0..count {
        end = put_lines(&[&[1], &[1, e % 49]], end, out);
    }
    end
}

// The count line of the 49th polynomial is line 98; the first of 48 polynomials here is 1.
#[test]
fn full_jobs(rt: HostRuntime) {
    let mut text = [0u8; 8192];
    let end = put_powers(49, &mut text);
    assert!(rt; is_answered(&text, end, &[&[6, 2, 98, 0]]));
    let end = put_powers(48, &mut text);
    assert!(rt; is_answered(&text, end, &[&[13, 2, 0, 1]]));
}

#[test]
fn long_texts(rt: HostRuntime) {
    assert!(rt; is_answered(&[32; 8193], 8193, &[&[32, 4, 0, 0]]));
    assert!(rt; is_answered(&[32; 8192], 8192, &[&[26, 3, 1, 1]]));
}

// x_1^48, x_2, x_3 and x_4 have 48 staircase monomials, and so four rows of 48 words.
#[test]
fn longest_answer(rt: HostRuntime) {
    let mut text = [0u8; 8192];
    let head: [&[u32]; 9] = [
        &[7, 1, 4, 4],
        &[1],
        &[1, 48, 0, 0, 0],
        &[1],
        &[1, 0, 1, 0, 0],
        &[1],
        &[1, 0, 0, 1, 0],
        &[1],
        &[1, 0, 0, 0, 1],
    ];
    let end = put_lines(&head, 0, &mut text);
    let mut end = put_lines(&[&[1, 48]], end, &mut text);
    for word in 1..=48 {
        end = put_lines(&[&[word / 48]], end, &mut text);
    }
    let row = [0u32; 48];
    assert!(rt; is_answered(&text, end, &[&[0, 4, 48, 1], &row, &row, &row, &row]));
    assert_eq!(rt; answer_to(&text, &mut [0; LONGEST_ANSWER - 1]), None);
}
