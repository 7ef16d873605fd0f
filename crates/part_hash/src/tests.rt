use super::*;
use std::test::*;

#[test]
fn hashes_are_the_published_ones(rt: HostRuntime) {
    assert_eq!(rt; fnv(b""), 0xcbf2_9ce4_8422_2325);
    assert_eq!(rt; fnv(b"a"), 0xaf63_dc4c_8601_ec8c);
    assert_eq!(rt; fnv(b"foobar"), 0x8594_4171_f739_67e8);
}

#[test]
fn owners_of_keys(rt: HostRuntime) {
    assert_eq!(rt; owner_of_key(b"a", 4), 0);
    assert_eq!(rt; owner_of_key(b"", 2), 1);
    assert_eq!(rt; owner_of_key(b"foobar", 1), 0);
}

#[test]
fn the_laws_can_be_cited() {
    a_hash_grows_by_a_byte();
    keys_have_owners();
    the_published_values();
}
