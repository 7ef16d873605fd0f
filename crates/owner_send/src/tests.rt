use super::*;
use std::test::*;

#[test]
fn an_item_is_its_length_and_its_bytes(rt: HostRuntime) -> Result<(), Fail> {
    let body = key_body(rt.alloc(), b"xy", 0)?;
    assert_eq!(rt; body.as_slice(), [2, 0, 0, 0, 120, 121].as_slice());
    Ok(())
}

#[test]
fn only_a_whole_body_is_an_item(rt: HostRuntime) {
    assert_eq!(rt; read_item(&[1, 0, 0, 0, 120]), Some(b"x".as_slice()));
    assert_eq!(rt; read_item(&[2, 0, 0, 0, 120]), None);
    assert_eq!(rt; read_item(&[1, 0, 0, 0, 120, 0]), None);
}

#[test]
fn the_laws_can_be_cited() {
    items_are_bodies();
    items_are_read_again();
    no_two_items_are_encoded_alike();
}
