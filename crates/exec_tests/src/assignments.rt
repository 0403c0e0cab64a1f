//! Assignments to blocks, each form of right side once.

use exec_names::Extent;
use exec_sides::{Seen, Shape, Side, Term, assign};
use sial_syntax::{Bin, Op};

// What the indices m, n, l and mm lie on; their numbers are 0, 1, 2 and 3.
const M: Extent = Extent { start: 6, len: 4 };

const N: Extent = Extent { start: 1, len: 2 };

const L: Extent = Extent { start: 3, len: 3 };

const MM: Extent = Extent { start: 8, len: 2 };

// t(n,l) += 5
#[test]
fn a_number_is_added(rt: HostRuntime) {
    let to = Shape {
        at: &[1, 2],
        extents: &[N, L],
    };
    let mut into = [1u64, 2, 3, 4, 5, 18446744073709551615];
    assign(Op::Add, &to, &Side::Alone(Term::Number(5)), &mut into);
    assert_eq!(rt; into, [6, 7, 8, 9, 10, 4]);
}

// t(n,l) *= 3
#[test]
fn a_number_multiplies(rt: HostRuntime) {
    let to = Shape {
        at: &[1, 2],
        extents: &[N, L],
    };
    let mut into = [1u64, 2, 3, 4, 5, 18446744073709551615];
    assign(Op::Scale, &to, &Side::Alone(Term::Number(3)), &mut into);
    assert_eq!(rt; into, [3, 6, 9, 12, 15, 18446744073709551613]);
}

// t(n,l) += s(l,n)
#[test]
fn a_copy_goes_by_names(rt: HostRuntime) {
    let to = Shape {
        at: &[1, 2],
        extents: &[N, L],
    };
    let from = Seen {
        shape: Shape {
            at: &[2, 1],
            extents: &[L, N],
        },
        words: &[1, 2, 3, 4, 5, 6],
    };
    let mut into = [10u64, 20, 30, 40, 50, 60];
    assign(Op::Add, &to, &Side::Alone(Term::Block(from)), &mut into);
    assert_eq!(rt; into, [11, 23, 35, 42, 54, 66]);
}

// t(mm,n) -= s(m,n)
#[test]
fn a_slice_begins_where_its_piece_does(rt: HostRuntime) {
    let to = Shape {
        at: &[3, 1],
        extents: &[MM, N],
    };
    let from = Seen {
        shape: Shape {
            at: &[0, 1],
            extents: &[M, N],
        },
        words: &[1, 2, 3, 4, 5, 6, 7, 8],
    };
    let mut into = [100u64, 100, 100, 100];
    assign(
        Op::Subtract,
        &to,
        &Side::Alone(Term::Block(from)),
        &mut into,
    );
    assert_eq!(rt; into, [95, 94, 93, 92]);
}

// t(m,n) = s(mm,n)
#[test]
fn an_insertion_leaves_the_rest(rt: HostRuntime) {
    let to = Shape {
        at: &[0, 1],
        extents: &[M, N],
    };
    let from = Seen {
        shape: Shape {
            at: &[3, 1],
            extents: &[MM, N],
        },
        words: &[1, 2, 3, 4],
    };
    let mut into = [90u64, 90, 90, 90, 90, 90, 90, 90];
    assign(Op::Set, &to, &Side::Alone(Term::Block(from)), &mut into);
    assert_eq!(rt; into, [90, 90, 90, 90, 1, 2, 3, 4]);
}

// t(n,l) -= a(l,n) - b(n,l)
#[test]
fn a_difference_is_taken_away(rt: HostRuntime) {
    let to = Shape {
        at: &[1, 2],
        extents: &[N, L],
    };
    let left = Seen {
        shape: Shape {
            at: &[2, 1],
            extents: &[L, N],
        },
        words: &[1, 2, 3, 4, 5, 6],
    };
    let right = Seen {
        shape: Shape {
            at: &[1, 2],
            extents: &[N, L],
        },
        words: &[10, 20, 30, 40, 50, 60],
    };
    let mut into = [100u64, 100, 100, 100, 100, 100];
    assign(
        Op::Subtract,
        &to,
        &Side::Joined(Term::Block(left), Bin::Minus, Term::Block(right)),
        &mut into,
    );
    assert_eq!(rt; into, [109, 117, 125, 138, 146, 154]);
}

// t(n,l) = a(l,n) + b(n,l)
#[test]
fn a_sum_replaces(rt: HostRuntime) {
    let to = Shape {
        at: &[1, 2],
        extents: &[N, L],
    };
    let left = Seen {
        shape: Shape {
            at: &[2, 1],
            extents: &[L, N],
        },
        words: &[1, 2, 3, 4, 5, 6],
    };
    let right = Seen {
        shape: Shape {
            at: &[1, 2],
            extents: &[N, L],
        },
        words: &[10, 20, 30, 40, 50, 60],
    };
    let mut into = [7u64, 7, 7, 7, 7, 7];
    assign(
        Op::Set,
        &to,
        &Side::Joined(Term::Block(left), Bin::Plus, Term::Block(right)),
        &mut into,
    );
    assert_eq!(rt; into, [11, 23, 35, 42, 54, 66]);
}

// t(n,l) += 3 * a(l,n)
#[test]
fn a_block_is_scaled(rt: HostRuntime) {
    let to = Shape {
        at: &[1, 2],
        extents: &[N, L],
    };
    let left = Seen {
        shape: Shape {
            at: &[2, 1],
            extents: &[L, N],
        },
        words: &[1, 2, 3, 4, 5, 6],
    };
    let mut into = [100u64, 100, 100, 100, 100, 100];
    assign(
        Op::Add,
        &to,
        &Side::Joined(Term::Number(3), Bin::Times, Term::Block(left)),
        &mut into,
    );
    assert_eq!(rt; into, [103, 109, 115, 106, 112, 118]);
}

// t(l,n) = a(n,m) * b(m,l)
#[test]
fn a_contraction_sums_over_what_both_have(rt: HostRuntime) {
    let to = Shape {
        at: &[2, 1],
        extents: &[L, N],
    };
    let left = Seen {
        shape: Shape {
            at: &[1, 0],
            extents: &[N, M],
        },
        words: &[1, 2, 3, 4, 5, 6, 7, 8],
    };
    let right = Seen {
        shape: Shape {
            at: &[0, 2],
            extents: &[M, L],
        },
        words: &[1, 2, 3, 4, 5, 6, 7, 8, 9, 10, 11, 12],
    };
    let mut into = [9u64, 9, 9, 9, 9, 9];
    assign(
        Op::Set,
        &to,
        &Side::Joined(Term::Block(left), Bin::Times, Term::Block(right)),
        &mut into,
    );
    assert_eq!(rt; into, [70, 158, 80, 184, 90, 210]);
}

// t(l,n) += a(n) ^ b(l)
#[test]
fn an_outer_product_sums_over_nothing(rt: HostRuntime) {
    let to = Shape {
        at: &[2, 1],
        extents: &[L, N],
    };
    let left = Seen {
        shape: Shape {
            at: &[1],
            extents: &[N],
        },
        words: &[2, 3],
    };
    let right = Seen {
        shape: Shape {
            at: &[2],
            extents: &[L],
        },
        words: &[5, 7, 11],
    };
    let mut into = [1u64, 1, 1, 1, 1, 1];
    assign(
        Op::Add,
        &to,
        &Side::Joined(Term::Block(left), Bin::Outer, Term::Block(right)),
        &mut into,
    );
    assert_eq!(rt; into, [11, 16, 15, 22, 23, 34]);
}
