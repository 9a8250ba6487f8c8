// Tables of comparisons: both orders, reversals, and a cycle that differs from its inverse.
use order::{Drl, Lex, Monomial, Order, Rearrangement, Renumbered};
use std::cmp::Ordering;
use std::cmp::Ordering::{Equal, Greater, Less};
use std::test::Fail;

// The places, two monomials, and how they compare in DRL and in LEX once they are moved.
const CASES: [([u8; 4], [u8; 4], [u8; 4], Ordering, Ordering); 16] = [
    ([1, 2, 3, 4], [0, 0, 0, 0], [0, 0, 0, 0], Equal, Equal),
    ([1, 2, 3, 4], [3, 0, 0, 0], [0, 1, 0, 0], Greater, Less),
    ([1, 2, 3, 4], [2, 0, 0, 0], [1, 1, 0, 0], Less, Less),
    ([1, 2, 3, 4], [1, 0, 1, 0], [0, 2, 0, 0], Less, Greater),
    ([1, 2, 3, 4], [0, 1, 0, 1], [0, 0, 2, 0], Less, Greater),
    (
        [1, 2, 3, 4],
        [255, 0, 0, 9],
        [255, 0, 0, 8],
        Greater,
        Greater,
    ),
    ([2, 1, 3, 4], [1, 0, 0, 0], [0, 1, 0, 0], Greater, Greater),
    ([2, 1, 3, 4], [2, 0, 0, 0], [1, 1, 0, 0], Greater, Greater),
    ([2, 1, 3, 4], [5, 5, 0, 0], [0, 0, 1, 0], Greater, Less),
    ([3, 2, 1, 4], [1, 0, 0, 0], [0, 0, 1, 0], Greater, Greater),
    ([3, 2, 1, 4], [1, 0, 1, 0], [0, 2, 0, 0], Less, Greater),
    ([3, 2, 1, 4], [0, 1, 0, 0], [0, 0, 0, 1], Less, Less),
    ([4, 3, 2, 1], [1, 0, 0, 0], [0, 0, 0, 1], Greater, Greater),
    ([4, 3, 2, 1], [0, 0, 1, 1], [0, 1, 0, 1], Less, Less),
    ([2, 3, 1, 4], [1, 0, 0, 0], [0, 1, 0, 0], Less, Less),
    ([2, 3, 1, 4], [1, 0, 0, 0], [0, 0, 1, 0], Greater, Greater),
];

fn monomial(e: [u8; 4]) -> Monomial {
    Monomial {
        x1: e[0],
        x2: e[1],
        x3: e[2],
        x4: e[3],
    }
}

fn rearrangement(p: [u8; 4]) -> Rearrangement {
    Rearrangement {
        first: p[0],
        second: p[1],
        third: p[2],
        fourth: p[3],
    }
}

#[test]
fn comparisons(rt: HostRuntime) -> Result<(), Fail> {
    for (places, a, b, drl, lex) in CASES {
        let s = rearrangement(places);
        let (a, b) = (monomial(a), monomial(b));
        assert_eq!(rt; Renumbered::new(Drl, s)?.compare(a, b), drl);
        assert_eq!(rt; Renumbered::new(Lex, s)?.compare(a, b), lex);
    }
    Ok(())
}

#[test]
fn reversals(rt: HostRuntime) -> Result<(), Fail> {
    assert_eq!(rt; Rearrangement::reversal(0), None);
    assert_eq!(rt;
        Rearrangement::reversal(2),
        Some(rearrangement([2, 1, 3, 4]))
    );
    assert_eq!(rt;
        Rearrangement::reversal(3),
        Some(rearrangement([3, 2, 1, 4]))
    );
    assert_eq!(rt;
        Rearrangement::reversal(4),
        Some(rearrangement([4, 3, 2, 1]))
    );
    match Renumbered::new(Lex, rearrangement([1, 2, 2, 4])) {
        Ok(_) => Err(Fail::new("made of no rearrangement")),
        Err(fault) => {
            assert_eq!(rt; (fault.number(), fault.layer(), fault.place()), (3, 2, 0));
            Ok(())
        },
    }
}
