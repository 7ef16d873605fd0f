use super::*;
use crate::{
    item_counts_are_pairs, item_counts_are_read_again, no_two_item_counts_are_spelled_alike,
};
use std::test::*;

// One of the item `x`, and a byte more.
const X_ONCE: [u8; 14] = [1, 0, 0, 0, 120, 1, 0, 0, 0, 0, 0, 0, 0, 0];

#[test]
fn an_item_is_encoded_before_its_count(rt: HostRuntime) -> Result<(), Fail> {
    let body = item_count_body(rt.alloc(), b"x", 1)?;
    assert_eq!(rt; body.as_slice(), &X_ONCE[..13]);
    Ok(())
}

#[test]
fn a_whole_body_is_read(rt: HostRuntime) {
    let read = [
        read_item_count(&X_ONCE[..12]),
        read_item_count(&X_ONCE[..13]),
        read_item_count(&X_ONCE),
    ];
    let wanted: [Option<(&[u8], u64)>; 3] = [None, Some((b"x", 1)), None];
    assert_eq!(rt; read, wanted);
}

#[test]
fn the_laws_of_items_and_counts_can_be_cited() {
    item_counts_are_pairs();
    item_counts_are_read_again();
    no_two_item_counts_are_spelled_alike();
}
