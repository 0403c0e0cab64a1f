//! The calls at small blocks of different numbers, beside results worked out from positions.

use kernel_permute::{How, gather, permute, put_in, slice_out};

#[test]
fn a_block_of_two_rows_is_turned_cut_and_patched(rt: HostRuntime) {
    let block = [1, 2, 3, 4, 5, 6];
    let (dims, at, size) = ([2, 3], [0, 1], [2, 2]);
    let mut turned = [0; 6];
    permute(&block, &dims, &[1, 0], &mut turned, How::Set);
    assert_eq!(rt; turned, [1, 4, 2, 5, 3, 6]);
    let mut part = [0; 4];
    slice_out(&block, &dims, &at, &size, &mut part, How::Set);
    assert_eq!(rt; part, [2, 3, 5, 6]);
    let mut patched = block;
    put_in(&[9; 4], &size, &mut patched, &dims, &at, How::Set);
    assert_eq!(rt; patched, [1, 9, 9, 4, 9, 9]);
}

#[test]
fn what_is_there_is_added_to_or_taken_from(rt: HostRuntime) {
    let block = [1, 2, 3, 4, 5, 6];
    let (dims, at, size) = ([2, 3], [0, 1], [2, 2]);
    let mut turned = [10, 20, 30, 40, 50, 60];
    permute(&block, &dims, &[1, 0], &mut turned, How::Add);
    assert_eq!(rt; turned, [11, 24, 32, 45, 53, 66]);
    let mut part = [9, 4, 7, 1];
    slice_out(&block, &dims, &at, &size, &mut part, How::Subtract);
    assert_eq!(rt; part, [7, 1, 2, u64::MAX - 4]);
    let mut patched = block;
    put_in(&[7, 8, 9, 10], &size, &mut patched, &dims, &at, How::Add);
    assert_eq!(rt; patched, [1, 9, 11, 4, 14, 16]);
}

#[test]
fn numbers_are_gathered_in_the_order_of_the_places(rt: HostRuntime) {
    let mut to = [0; 4];
    gather(&[10, 20, 30], &[2, 0, 2, 1], &mut to);
    assert_eq!(rt; to, [30, 10, 30, 20]);
}
