//! Right sides for scalars, and integrals.

use exec_names::Extent;
use exec_sides::{Seen, Shape, Side, Term, integrals, number};
use sial_syntax::Bin;

// What the indices n and l lie on; their numbers are 1 and 2.
const N: Extent = Extent { start: 1, len: 2 };

const L: Extent = Extent { start: 3, len: 3 };

// s = a(n,l) * b(l,n)
#[test]
fn two_blocks_are_contracted_to_a_number(rt: HostRuntime) {
    let left = Seen {
        shape: Shape {
            at: &[1, 2],
            extents: &[N, L],
        },
        words: &[1, 2, 3, 4, 5, 6],
    };
    let right = Seen {
        shape: Shape {
            at: &[2, 1],
            extents: &[L, N],
        },
        words: &[1, 2, 3, 4, 5, 6],
    };
    let sum = number(&Side::Joined(Term::Block(left), Bin::Times, Term::Block(right)));
    assert_eq!(rt; sum, 86);
}

// s = 3 - 5
#[test]
fn differences_of_numbers_wrap(rt: HostRuntime) {
    let difference = number(&Side::Joined(Term::Number(3), Bin::Minus, Term::Number(5)));
    assert_eq!(rt; difference, 18446744073709551614);
}

// compute_integrals t(n,l)
#[test]
fn integrals_weigh_whole_positions(rt: HostRuntime) {
    let to = Shape {
        at: &[1, 2],
        extents: &[N, L],
    };
    let mut into = [0u64; 6];
    integrals(&to, &mut into);
    assert_eq!(rt; into, [10, 13, 16, 11, 14, 17]);
}
