//! Small contractions and tiles beside values worked out by hand, and tiles beside the plain loop.

use crate::numbers::{HOWS, numbers};
use kernel_contract::laws::contract_plain;
use kernel_contract::{Axis, contract, contract_any, is_by_rows, tile, tile_any};
use kernel_permute::How;
use std::test::Fail;

fn axis(len: u32, a: u32, b: u32, to: u32) -> Axis {
    Axis { len, a, b, to }
}

#[test]
fn two_by_two(rt: HostRuntime) -> Result<(), Fail> {
    let free_a = [axis(2, 2, 0, 2)];
    let free_b = [axis(2, 0, 1, 1)];
    let shared = [axis(2, 1, 2, 0)];
    let cases = [
        (How::Set, 7u64, [19u64, 22, 43, 50]),
        (How::Add, 1, [20, 23, 44, 51]),
        (
            How::Subtract,
            0,
            [
                0u64.wrapping_sub(19),
                0u64.wrapping_sub(22),
                0u64.wrapping_sub(43),
                0u64.wrapping_sub(50),
            ],
        ),
    ];
    for (how, old, new) in cases {
        let mut to = [old; 4];
        assert!(rt; is_by_rows(4, 4, 4, &free_a, &free_b, &shared));
        contract(
            &[1, 2, 3, 4],
            &[5, 6, 7, 8],
            &mut to,
            &free_a,
            &free_b,
            &shared,
            how,
        );
        assert_eq!(rt; to, new);
        let mut any = [old; 4];
        contract_any(
            &[1, 2, 3, 4],
            &[5, 6, 7, 8],
            &mut any,
            &free_a,
            &free_b,
            &shared,
            how,
        );
        assert_eq!(rt; any, new);
    }
    Ok(())
}

// `p(m,i) = v(m,l) * t(l,i)` with 2, 4 and 3 elements along m, i and l.
#[test]
fn the_axes_of_a_product_of_matrices(rt: HostRuntime) {
    let (m, i, l) = (2, 4, 3);
    let free_a = [axis(m, l, 0, i)];
    let free_b = [axis(i, 0, 1, 1)];
    let shared = [axis(l, 1, i, 0)];
    let v = [1, 2, 3, 4, 5, 6];
    let t = [1, 2, 3, 4, 5, 6, 7, 8, 9, 10, 11, 12];
    let mut p = [0u64; 8];
    assert!(rt; is_by_rows(6, 12, 8, &free_a, &free_b, &shared));
    contract(&v, &t, &mut p, &free_a, &free_b, &shared, How::Set);
    assert_eq!(rt; p, [38, 44, 50, 56, 83, 98, 113, 128]);
}

#[test]
fn lists_that_are_short_and_targets_that_overlap_do_not_fit(rt: HostRuntime) {
    let cases = [
        (4, 4, 4, 2, 1, true),
        (4, 4, 4, 1, 2, true),
        (3, 4, 4, 2, 1, false),
        (4, 3, 4, 2, 1, false),
        (4, 4, 3, 2, 1, false),
        (4, 4, 4, 1, 1, false),
    ];
    for (a, b, to, row, column, fits) in cases {
        let free_a = [axis(2, 2, 0, row)];
        let free_b = [axis(2, 0, 1, column)];
        let shared = [axis(2, 1, 2, 0)];
        assert_eq!(rt; is_by_rows(a, b, to, &free_a, &free_b, &shared), fits);
    }
}

#[test]
fn tiles(rt: HostRuntime) -> Result<(), Fail> {
    let mut small = [[0u64; 2]; 2];
    tile(&[[1, 2], [3, 4]], &[[5, 6], [7, 8]], &mut small);
    assert_eq!(rt; small, [[19, 22], [43, 50]]);
    let a = [
        [1, 2, 3, 90],
        [4, 5, 6, 91],
        [92, 93, 94, 95],
        [96, 97, 98, 99],
    ];
    let b = [
        [7, 80, 81, 82],
        [8, 83, 84, 85],
        [9, 86, 87, 88],
        [89, 90, 91, 92],
    ];
    let mut to = [
        [1, 2, 3, 4],
        [5, 6, 7, 8],
        [9, 10, 11, 12],
        [13, 14, 15, 16],
    ];
    tile_any(2, 1, 3, &a, &b, &mut to);
    assert_eq!(rt;
        to,
        [
            [51, 2, 3, 4],
            [127, 6, 7, 8],
            [9, 10, 11, 12],
            [13, 14, 15, 16]
        ]
    );
    Ok(())
}

// lengths 1, 4, 5 and 9 of each kind
#[test]
fn short_runs_as_the_plain_loop(rt: HostRuntime) -> Result<(), Fail> {
    let a = numbers(rt.alloc(), 100, 0x9e37_79b9_7f4a_7c15, 1)?;
    let b = numbers(rt.alloc(), 100, 0xbf58_476d_1ce4_e5b9, 3)?;
    for rows in [1, 4, 5, 9] {
        for columns in [1, 4, 5, 9] {
            for places in [1, 4, 5, 9] {
                let free_a = [axis(rows, 10, 0, 11)];
                let free_b = [axis(columns, 0, 1, 1)];
                let shared = [axis(places, 1, 10, 0)];
                for how in HOWS {
                    let mut tiled = numbers(rt.alloc(), 100, 0x94d0_49bb_1331_11eb, 5)?;
                    let mut plain = numbers(rt.alloc(), 100, 0x94d0_49bb_1331_11eb, 5)?;
                    assert!(rt;
                        is_by_rows(a.len(), b.len(), tiled.len(), &free_a, &free_b, &shared)
                    );
                    assert!(rt;
                        is_by_rows(a.len(), b.len(), plain.len(), &free_a, &free_b, &shared)
                    );
                    contract(
                        a.as_slice(),
                        b.as_slice(),
                        tiled.as_mut_slice(),
                        &free_a,
                        &free_b,
                        &shared,
                        how,
                    );
                    contract_plain(
                        a.as_slice(),
                        b.as_slice(),
                        plain.as_mut_slice(),
                        &free_a,
                        &free_b,
                        &shared,
                        how,
                    );
                    assert_eq!(rt; tiled.as_slice(), plain.as_slice());
                }
            }
        }
    }
    Ok(())
}
