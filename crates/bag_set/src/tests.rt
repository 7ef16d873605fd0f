use super::*;
use std::fmt::Debug;
use std::process::Abort;
use std::test::*;

mod bags;
mod sets;

// Fails the test unless both are equal. The macro would be proved anew wherever it stands.
fn same<T: PartialEq + Debug + Drop>(rt: &impl Abort, found: T, wanted: T) {
    assert_eq!(rt; found, wanted);
}

#[test]
fn the_laws_can_be_cited() {
    a_bag_holds_what_was_inserted();
    a_bag_insert_inserts();
    bags_send_nothing();
    items_go_round();
    no_item_is_there_twice();
    other_letters_leave_a_bag_unchanged();
    other_letters_leave_a_set_unchanged();
    set_calls_send_what_they_say();
    sets_keep_their_order();
    sets_send_nothing();
    the_last_letter_decides();
}

fn can_be_sent<T: Send>(value: T) -> T {
    value
}

#[test]
fn shards_can_go_to_another_thread(rt: HostRuntime) -> Result<(), Fail> {
    let bag = can_be_sent(Bag::new(rt.alloc())?);
    let set = can_be_sent(Set::new(rt.alloc())?);
    same(&rt, (bag.count_here(), set.count_here()), (0, 0));
    Ok(())
}
