ghost use Rattle.std.specs.Prelude.{◌≡◌, ◌≤◌, length, IfOk};
ghost use Rattle.msg_codec.specs.Limits.{max_body};

use super::*;
use std::alloc::{AllocError, Global};
use std::test::*;

const AB: [u8; 15] = [2, 0, 0, 0, 0, 0, 0, 0, 1, 2, 0, 0, 0, 97, 98];

const X_ONCE: [u8; 13] = [1, 0, 0, 0, 120, 1, 0, 0, 0, 0, 0, 0, 0];

const COUNT_OF_RANK_3: [u8; 37] = [
    0, 0, 0, 0, 3, 0, 0, 0, 240, 24, 0, 0, 0, 1, 0, 0, 0, 0, 0, 0, 0, 2, 1, 0, 0, 0, 0, 0, 0, 0, 0,
    1, 0, 0, 0, 0, 0,
];

const TOTAL_TO_RANK_2: [u8; 37] = [
    2, 0, 0, 0, 0, 0, 0, 0, 241, 24, 0, 0, 0, 0, 0, 0, 0, 0, 0, 0, 0, 5, 0, 0, 0, 0, 0, 0, 0, 4, 0,
    0, 0, 0, 0, 0, 0,
];

#[test]
fn a_batch_is_the_spelling_of_its_letters(rt: HostRuntime) -> Result<(), Fail> {
    let mut batch = Batch::empty(rt.alloc());
    assert_eq!(rt; batch.count(), 0);
    assert!(rt; batch.as_bytes().is_empty());
    let letter = Letter {
        to: 2,
        from: 0,
        tag: 1,
        body: Body::of(rt.alloc(), b"ab")?,
    };
    assert_eq!(rt; letter.as_ref().spelled_len(), 15);
    batch.push(letter.as_ref())?;
    batch.reserve(13)?;
    assert_eq!(rt; batch.as_bytes(), AB.as_slice());
    batch.push(LetterRef {
        to: 258,
        from: 65_536,
        tag: 255,
        body: &[],
    })?;
    assert_eq!(rt; batch.count(), 2);
    assert_eq!(rt; batch.bytes_len(), 28);
    let second_spelled = [2, 1, 0, 0, 0, 0, 1, 0, 255, 0, 0, 0, 0];
    assert_eq!(rt; &batch.as_bytes()[15..], second_spelled.as_slice());
    let first = batch.letter_at(0);
    assert_eq!(rt; (first.to, first.from, first.tag), (2, 0, 1));
    assert_eq!(rt; first.body, b"ab".as_slice());
    let second = batch.letter_at(1);
    assert_eq!(rt; (second.to, second.from, second.tag), (258, 65_536, 255));
    assert!(rt; second.body.is_empty());
    Ok(())
}

#[test]
fn letters_are_those_of_their_batch(rt: HostRuntime) -> Result<(), Fail> {
    let mut batch = Batch::empty(rt.alloc());
    assert_eq!(rt; Letters::of(rt.alloc(), &batch)?.count(), 0);
    batch.push(LetterRef {
        to: 2,
        from: 0,
        tag: 1,
        body: b"ab",
    })?;
    batch.push(LetterRef {
        to: 0,
        from: 2,
        tag: 239,
        body: &[],
    })?;
    let letters = Letters::of(rt.alloc(), &batch)?;
    batch.push(letters.letter_at(0))?;
    assert_eq!(rt; letters.count(), 2);
    let copied = letters.copy()?;
    assert_eq!(rt; copied.count(), 2);
    let first = copied.letter_at(0);
    assert_eq!(rt; (first.to, first.from, first.tag), (2, 0, 1));
    assert_eq!(rt; first.body, b"ab".as_slice());
    let second = copied.letter_at(1);
    assert_eq!(rt; (second.to, second.from, second.tag), (0, 2, 239));
    assert!(rt; second.body.is_empty());
    Ok(())
}

#[test]
fn a_batch_of_a_control_holds_its_letter_alone(rt: HostRuntime) -> Result<(), Fail> {
    let count = Control::Count {
        rank: 3,
        q: 1,
        s: 258,
        r: 65_536,
    };
    let mut batch = Batch::of_control(rt.alloc(), count);
    assert_eq!(rt; batch.as_bytes(), COUNT_OF_RANK_3.as_slice());
    assert!(rt; control_of(batch.letter_at(0)) == Some(count));
    let total = Control::Total {
        to: 2,
        q: 0,
        s: 5,
        r: 4,
    };
    let other = Batch::of_control(rt.alloc(), total);
    assert_eq!(rt; other.as_bytes(), TOTAL_TO_RANK_2.as_slice());
    batch.push(other.letter_at(0))?;
    assert_eq!(rt; &batch.as_bytes()[37..], TOTAL_TO_RANK_2.as_slice());
    assert!(rt; control_of(batch.letter_at(1)) == Some(total));
    Ok(())
}

fn is_control(to: u32, from: u32, tag: u8, body: &[u8]) -> bool
    requires { length body.now ≤ max_body }
{
    let letter = LetterRef {
        to,
        from,
        tag,
        body,
    };
    control_of(letter).is_some()
}

#[test]
fn other_letters_are_no_control_letters(rt: HostRuntime) {
    let body = &COUNT_OF_RANK_3[13..];
    assert!(rt; is_control(0, 3, 240, body));
    assert!(rt; !is_control(1, 3, 240, body));
    assert!(rt; !is_control(0, 3, 241, body));
    assert!(rt; !is_control(0, 0, 242, body));
    assert!(rt; !is_control(0, 3, 240, &body[1..]));
}

#[test]
fn a_pair_is_read_as_it_was_put(rt: HostRuntime) -> Result<(), Fail> {
    let mut bytes = Vec::new(rt.alloc());
    let pair = (Body::of(rt.alloc(), b"x")?, 1u64);
    pair.put(&mut bytes)?;
    assert_eq!(rt; bytes.as_slice(), X_ONCE.as_slice());
    bytes.push(9)?;
    let (read, len) = <(Body, u64)>::get(rt.alloc(), &bytes)?;
    assert_eq!(rt; read.0.as_slice(), b"x".as_slice());
    assert_eq!(rt; read.1, 1);
    assert_eq!(rt; len, 13);
    Ok(())
}

#[test]
fn the_first_fault_is_answered(rt: HostRuntime) {
    let alloc = rt.alloc();
    let long = [1, 0, 16, 0];
    assert!(rt; matches!(u64::get(alloc, &X_ONCE[..7]), Err(WireFault::Short)));
    assert!(rt; matches!(Body::get(alloc, &X_ONCE[..3]), Err(WireFault::Short)));
    assert!(rt; matches!(Body::get(alloc, &long), Err(WireFault::TooLong)));
    assert!(rt; matches!(Body::get(alloc, &[2, 0, 0, 0, 7]), Err(WireFault::Short)));
    assert!(rt; matches!(<(Body, u64)>::get(alloc, &long), Err(WireFault::TooLong)));
    assert!(rt;
        matches!(
            <(Body, u64)>::get(alloc, &X_ONCE[..12]),
            Err(WireFault::Short)
        )
    );
}

#[test]
fn values_are_read_without_a_copy(rt: HostRuntime) -> Result<(), Fail> {
    assert_eq!(rt; length_field(b"x"), [1, 0, 0, 0]);
    let (body, len) = body_at(&X_ONCE)?;
    assert_eq!(rt; body, b"x".as_slice());
    assert_eq!(rt; len, 5);
    let (number, more) = number_at(&X_ONCE[5..])?;
    assert_eq!(rt; (number, more), (1, 8));
    Ok(())
}

#[test]
fn all_of_a_body(rt: HostRuntime) -> Result<(), Fail> {
    let number = read_whole::<u64>(rt.alloc(), &[1, 2, 0, 0, 0, 0, 0, 0])?;
    assert_eq!(rt; number, Some(513));
    let more = read_whole::<u64>(rt.alloc(), &X_ONCE)?;
    assert_eq!(rt; more, None);
    Ok(())
}

#[test]
fn a_counter_stops_at_its_limit(rt: HostRuntime) -> Result<(), Fail> {
    let mut counter = Counter::new(3);
    counter.raise(2)?;
    let at = counter.raise(2).err().ok_or("4 is above 3")?;
    assert_eq!(rt; at.limit(), 3);
    assert_eq!(rt; counter.count(), 2);
    Ok(())
}

#[test]
fn a_text_keeps_its_bytes(rt: HostRuntime) -> Result<(), Fail> {
    let text = Body2::from_vec(b"ab".to_vec(rt.alloc())?);
    assert_eq!(rt; text.as_slice(), b"ab".as_slice());
    assert_eq!(rt; text.into_vec().as_slice(), b"ab".as_slice());
    Ok(())
}

// So many bytes, which repeat after 251.
fn bytes_of(alloc: Global, len: usize) -> Result<Vec<u8>, AllocError>
    ensures { IfOk result (λ bytes. length bytes.items ≡ len) }
{
    let mut bytes = Vec::new(alloc);
    bytes.resize(len, 0)?;
    for (index, byte) in bytes.iter_mut().enumerate() {
        *byte = (index % 251) as u8;
    }
    Ok(bytes)
}

// Whether a body of so many bytes exposes them, copied, appended and moved.
fn is_kept(alloc: Global, len: usize) -> Result<bool, AllocError>
    requires { len ≤ max_body }
{
    let bytes = bytes_of(alloc, len)?;
    let copied = Body::of(alloc, &bytes)?;
    let mut body = Body::with_capacity(alloc, 1)?;
    body.append(copied.as_slice())?;
    let moved = Body::from_vec(body.into_vec()?);
    Ok(moved.as_slice() == bytes.as_slice())
}

#[test]
fn bodies_in_place_and_in_memory_keep_their_bytes(rt: HostRuntime) -> Result<(), Fail> {
    let alloc = rt.alloc();
    let short = (is_kept(alloc, 0)?, is_kept(alloc, 1)?, is_kept(alloc, 96)?);
    let long = (is_kept(alloc, 97)?, is_kept(alloc, 1_000_000)?);
    assert_eq!(rt; (short, long), ((true, true, true), (true, true)));
    Ok(())
}

#[test]
fn faults_are_told_apart(rt: HostRuntime) -> Result<(), Fail> {
    let text = format!(in rt.alloc(); "{}", WireFault::from(AllocError))?;
    assert_eq!(rt; text.as_str(), "out of memory");
    Ok(())
}

#[test]
fn the_laws_hold_at_the_types_of_bodies() {
    no_spelling_begins_another::<(Body, u64)>();
    what_was_put_is_read_again::<(Body, u64)>();
    no_two_lists_are_spelled_alike();
    controls_have_letters_of_their_own();
    control_letters_are_these();
}
