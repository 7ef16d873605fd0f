use super::*;
use std::alloc::{AllocError, Global};
use std::test::*;

// Two letters of rank 0, and between them one of rank 3 without bytes.
fn give_three<T: Tap>(tap: &mut T) -> Result<(), AllocError> {
    tap.ran(0, 1, b"ab")?;
    tap.ran(3, 16, b"")?;
    tap.ran(0, 1, b"cde")?;
    Ok(())
}

// The letter with that number, if the tap keeps it.
fn entry<T: Tap>(tap: &T, k: u64) -> Option<Told<'_>> {
    if k < tap.len() {
        Some(tap.entry(k))
    } else {
        None
    }
}

// A tap that was given three letters after it was started so.
fn list_of_three(alloc: Global, keep: bool) -> Result<ListTap, AllocError> {
    let mut tap = ListTap::new(alloc);
    tap.start(keep);
    give_three(&mut tap)?;
    Ok(tap)
}

#[test]
fn a_list_has_the_letters_in_order(rt: HostRuntime) -> Result<(), Fail> {
    let tap = list_of_three(rt.alloc(), true)?;
    let ran = [
        (0, 0, 1, b"ab".as_slice()),
        (1, 3, 16, b"".as_slice()),
        (2, 0, 1, b"cde".as_slice()),
    ];
    for (k, from, tag, body) in ran {
        assert_eq!(rt;
            entry(&tap, k),
            Some(Told { from, tag, body }),
            "letter {k}"
        );
    }
    Ok(())
}

#[test]
fn a_list_that_is_started_again_is_empty(rt: HostRuntime) -> Result<(), Fail> {
    let mut tap = list_of_three(rt.alloc(), true)?;
    tap.start(true);
    assert_eq!(rt; tap.len(), 0);
    Ok(())
}

#[test]
fn a_list_may_be_started_to_keep_nothing(rt: HostRuntime) -> Result<(), Fail> {
    let tap = list_of_three(rt.alloc(), false)?;
    assert_eq!(rt; tap.len(), 0);
    Ok(())
}

#[test]
fn a_quiet_tap_keeps_nothing(rt: HostRuntime) -> Result<(), Fail> {
    let mut tap = QuietTap;
    tap.start(true);
    give_three(&mut tap)?;
    assert_eq!(rt; entry(&tap, 0), None);
    Ok(())
}

#[test]
fn a_boxed_tap_hears_a_letter(rt: HostRuntime) -> Result<(), Fail> {
    let mut tap: Box<dyn Tap + Send> = Box::new(rt.alloc(), ListTap::new(rt.alloc()))?;
    tap.start(true);
    tap.ran(2, 5, b"x")?;
    assert_eq!(rt; tap.len(), 1);
    Ok(())
}

#[test]
fn the_laws_can_be_cited() {
    what_was_heard_is_what_ran();
}
