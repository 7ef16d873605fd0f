//! Buffers of rank 0 of 8 ranks on nodes of 4 cores. By `Scheme::Nlnr` it reaches the other node over rank 1.
ghost use Rattle.std.specs.Prelude.{◌≡◌, ◌<◌, ◌≤◌, IfOk};

use super::*;
use crate::laws::*;
use msg_codec::{Batch, LetterRef};
use std::alloc::{AllocError, Global};
use std::fmt::Debug;
use std::process::Abort;
use std::test::*;
use ygm_route::{Layout, Scheme};

const BODY: [u8; 99] = [7; 99];

// Fails the test unless both are equal. The macro would be proved anew wherever it stands.
fn same<T: PartialEq + Debug + Drop>(rt: &impl Abort, found: T, wanted: T) {
    assert_eq!(rt; found, wanted);
}

fn buffers_of(alloc: Global) -> Result<Buffers, Fail>
    ensures { IfOk result (λ held. held.layout.ranks ≡ 8) }
{
    let layout = Layout::new(8, 4)?;
    Ok(Buffers::new(alloc, layout, Scheme::Nlnr, 0, MIN_BUFFER)?)
}

// Adds a letter from rank 3, whose encoding has 13 bytes and so many more.
fn add(held: &mut Buffers, to: u32, tag: u8, more: usize) -> Result<(), AllocError>
    requires ranks { held.old.layout.ranks ≡ 8 }
    requires within { to < 8 }
    requires short { more ≤ 99 }
    ensures { held.new.layout.ranks ≡ 8 }
{
    held.add(LetterRef {
        to,
        from: 3,
        tag,
        body: &BODY[..more],
    })
}

// Appends the tags of a batch and a bar.
fn show(batch: &Batch, shown: &mut Vec<u8>) -> Result<(), AllocError> {
    for k in 0..batch.count() {
        shown.push(batch.letter_at(k).tag)?;
    }
    shown.push(b'|')?;
    Ok(())
}

// Hands out all closed batches for a next hop, and shows their tags.
fn handed_out(alloc: Global, held: &mut Buffers, next: u32) -> Result<Vec<u8>, AllocError>
    requires ranks { held.old.layout.ranks ≡ 8 }
    requires within { next < 8 }
    ensures { held.new.layout.ranks ≡ 8 }
{
    let mut shown = Vec::new(alloc);
    for _ in 0..held.closed_count(next) {
        if let Some(batch) = held.next_out(next) {
            show(&batch, &mut shown)?;
        }
    }
    Ok(shown)
}

fn gathered(rt: &impl Abort, alloc: Global, held: &mut Buffers) -> Result<(), Fail>
    requires { held.old.layout.ranks ≡ 8 }
{
    let nothing = held.is_empty();
    add(held, 6, b'a', 0)?;
    add(held, 2, b'b', 0)?;
    add(held, 5, b'c', 0)?;
    same(
        rt,
        (nothing, held.is_empty(), held.closed_count(1)),
        (true, false, 0),
    );
    held.flush_all()?;
    add(held, 6, b'd', 0)?;
    let far = handed_out(alloc, held, 1)?;
    let near = handed_out(alloc, held, 2)?;
    same(
        rt,
        (
            far.as_slice(),
            near.as_slice(),
            held.holds_any(1),
            held.holds_any(2),
        ),
        (b"ac|".as_slice(), b"b|".as_slice(), true, false),
    );
    Ok(())
}

#[test]
fn letters_gather_by_next_hop(rt: HostRuntime) -> Result<(), Fail> {
    gathered(&rt, rt.alloc(), &mut buffers_of(rt.alloc())?)
}

// Letters of 32 bytes: two fill a batch. Then one of 112 bytes, and one that could have shared its batch.
fn limited(rt: &impl Abort, alloc: Global, held: &mut Buffers) -> Result<(), Fail>
    requires { held.old.layout.ranks ≡ 8 }
{
    add(held, 1, b'a', 19)?;
    add(held, 1, b'b', 19)?;
    add(held, 1, b'c', 19)?;
    add(held, 1, b'd', 20)?;
    add(held, 1, b'e', 99)?;
    add(held, 1, b'f', 0)?;
    held.flush_all()?;
    same(
        rt,
        handed_out(alloc, held, 1)?.as_slice(),
        b"ab|c|d|e|f|".as_slice(),
    );
    Ok(())
}

#[test]
fn batches_stay_within_the_limit(rt: HostRuntime) -> Result<(), Fail> {
    limited(&rt, rt.alloc(), &mut buffers_of(rt.alloc())?)
}

fn refused(rt: &impl Abort, alloc: Global, held: &mut Buffers) -> Result<(), Fail>
    requires { held.old.layout.ranks ≡ 8 }
{
    add(held, 3, b'a', 0)?;
    held.flush_all()?;
    add(held, 3, b'b', 0)?;
    held.flush_all()?;
    let first = held.next_out(3).ok_or("a batch is closed")?;
    held.step_back(3, first);
    held.holds();
    same(
        rt,
        handed_out(alloc, held, 3)?.as_slice(),
        b"a|b|".as_slice(),
    );
    Ok(())
}

#[test]
fn a_batch_that_steps_back_is_the_next_one(rt: HostRuntime) -> Result<(), Fail> {
    refused(&rt, rt.alloc(), &mut buffers_of(rt.alloc())?)
}

#[test]
fn the_laws_can_be_cited() {
    the_limits_are_these_numbers();
    letters_for_one_destination_are_in_one_queue();
    an_added_letter_comes_last();
    a_batch_handed_out_came_first();
    a_flush_changes_no_letters();
    a_batch_steps_back_to_its_place();
}
