//! Each call on numbers that are all different, beside results worked by hand.

use block_math::{add, all_equal, dot, fill, greatest, scale, subtract};

const LAST: u64 = u64::MAX;

#[test]
fn pairs_meet_at_their_places(rt: HostRuntime) {
    let other = [5, LAST, 7];
    let mut to = [1, 2, 30];
    add(&mut to, &other);
    assert_eq!(rt; to, [6, 1, 37]);
    subtract(&mut to, &other);
    assert_eq!(rt; to, [1, 2, 30]);
    subtract(&mut to, &[3, 2, 1]);
    assert_eq!(rt; to, [LAST - 1, 0, 29]);
    greatest(&mut to, &[4, 6, 8]);
    assert_eq!(rt; to, [LAST - 1, 6, 29]);
}

#[test]
fn one_number_meets_every_element(rt: HostRuntime) {
    let mut to = [1, 1 << 63, 30, LAST];
    scale(&mut to, 2);
    assert_eq!(rt; to, [2, 0, 60, LAST - 1]);
    fill(&mut to, 9);
    assert_eq!(rt; to, [9, 9, 9, 9]);
}

#[test]
fn products_are_added_up_modulo_two_to_the_64th(rt: HostRuntime) {
    assert_eq!(rt; dot(&[1, 2, 3], &[4, 5, 6]), 32);
    assert_eq!(rt; dot(&[1 << 63, 3], &[2, LAST]), LAST - 2);
    assert_eq!(rt; dot(&[], &[]), 0);
}

#[test]
fn one_other_number_is_seen_at_each_place(rt: HostRuntime) {
    let block = [1, 2, 3];
    assert_eq!(rt; all_equal(&block, &[1, 2, 3]), true);
    for other in [[0, 2, 3], [1, 0, 3], [1, 2, 0]] {
        assert_eq!(rt; all_equal(&block, &other), false);
    }
}
