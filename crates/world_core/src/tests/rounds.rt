//! Rounds of counts: scripts of events, what they are refused for, and the barriers that they end.
use super::{Short, batch_of, take};
use crate::{Event, ReplayFault, Why, World, replay};
use msg_codec::{Batch, Control, LetterRef, Letters};
use std::alloc::{AllocError, Global};
use std::process::Abort;
use std::test::*;
use ygm_route::{Layout, Scheme};

/// What is put.
#[derive(Clone, Copy)]
enum Put {
    /// One data letter, from a rank to a rank.
    Data(u32, u32),
    /// One control letter.
    Control(Control),
    /// A Count of this rank, and a letter of its own to rank 0, in one batch.
    Mixed(u32),
    /// A letter of this rank to rank 0 with this tag, and with a body of as many bytes.
    Other(u32, u8, u8),
}

/// One event.
#[derive(Clone, Copy)]
enum Step {
    /// A rank puts over the link to a rank.
    Puts(u32, u32, Put),
    /// A rank takes from a rank.
    Takes(u32, u32),
}

/// A rank's own letter goes to its destination at once.
fn data(from: u32, to: u32) -> Step {
    Step::Puts(from, to, Put::Data(from, to))
}

fn count_of(rank: u32, q: u64, s: u64, r: u64) -> Control {
    Control::Count { rank, q, s, r }
}

fn total_of(to: u32, q: u64, s: u64, r: u64) -> Control {
    Control::Total { to, q, s, r }
}

/// A control letter goes over the link from a rank to a rank.
fn over(from: u32, to: u32, control: Control) -> Step {
    Step::Puts(from, to, Put::Control(control))
}

fn count(rank: u32, q: u64, s: u64, r: u64) -> Step {
    over(rank, 0, count_of(rank, q, s, r))
}

fn total(to: u32, q: u64, s: u64, r: u64) -> Step {
    over(0, to, total_of(to, q, s, r))
}

fn takes(at: u32, from: u32) -> Step {
    Step::Takes(at, from)
}

/// A letter's body is this many zeros, at most 24.
fn batch_with(alloc: Global, from: u32, tag: u8, len: u8) -> Result<Batch, AllocError> {
    let mut batch = Batch::empty(alloc);
    batch.push(LetterRef {
        to: 0,
        from,
        tag,
        body: &[0; 24][..len.min(24) as usize],
    })?;
    Ok(batch)
}

fn batch_put(alloc: Global, what: Put) -> Result<Batch, AllocError> {
    match what {
        Put::Data(from, to) => batch_of(alloc, &[(to, from, 16, 0)]),
        Put::Control(control) => Ok(Batch::of_control(alloc, control)),
        Put::Mixed(rank) => {
            let mut batch = batch_with(alloc, rank, 240, 24)?;
            batch.push(LetterRef {
                to: 0,
                from: rank,
                tag: 16,
                body: &[],
            })?;
            Ok(batch)
        }
        Put::Other(rank, tag, len) => batch_with(alloc, rank, tag, len),
    }
}

fn event_of(alloc: Global, step: Step) -> Result<Event, AllocError> {
    match step {
        Step::Puts(from, to, what) => Ok(Event::Put {
            from,
            to,
            letters: Letters::of(alloc, &batch_put(alloc, what)?)?,
        }),
        Step::Takes(at, from) => Ok(take(at, from)),
    }
}

fn events_of(alloc: Global, steps: &[Step]) -> Result<Vec<Event>, AllocError> {
    let mut events = Vec::new(alloc);
    for step in steps {
        events.push(event_of(alloc, *step)?)?;
    }
    Ok(events)
}

/// Which event of a script is refused, and why; or how many barriers ended, and the round of the last.
type Outcome = Result<(u64, Option<u64>), (u64, Why)>;

fn ended_in(world: &World) -> (u64, Option<u64>) {
    let ended = world.ended_count();
    match ended.checked_sub(1) {
        Some(last) => (ended, Some(world.ended_round(last))),
        None => (ended, None),
    }
}

/// The rounds that ended the barriers.
pub(super) fn rounds_ended(alloc: Global, world: &World) -> Result<Vec<u64>, AllocError> {
    let mut rounds = Vec::new(alloc);
    for k in 0..world.ended_count() {
        rounds.push(world.ended_round(k))?;
    }
    Ok(rounds)
}

fn outcome_of(
    alloc: Global,
    layout: Layout,
    scheme: Scheme,
    steps: &[Step],
) -> Result<Outcome, AllocError> {
    match replay(alloc, layout, scheme, &events_of(alloc, steps)?) {
        Ok(world) => Ok(Ok(ended_in(&world))),
        Err(ReplayFault::Refused { at, why }) => Ok(Err((at, why))),
        Err(ReplayFault::NoMemory) => Err(AllocError),
    }
}

/// A letter of rank 0 to rank 2 is in transit while the sums of round 0 agree.
fn first_round(alloc: Global) -> Result<Vec<Step>, AllocError> {
    let steps = [
        data(1, 0),
        count(0, 0, 0, 0),
        takes(0, 1),
        data(0, 1),
        data(0, 2),
        takes(1, 0),
        count(1, 0, 1, 1),
        count(2, 0, 0, 0),
        takes(0, 0),
        takes(0, 1),
        takes(0, 2),
        total(1, 0, 1, 1),
        total(2, 0, 1, 1),
        total(0, 0, 1, 1),
        takes(0, 0),
        takes(1, 0),
        takes(2, 0),
        takes(2, 0),
    ];
    Ok(Vec::from_array(alloc, steps)?)
}

/// Round 1 agrees in itself and differs from round 0, and round 2 agrees with round 1.
fn later_rounds(alloc: Global) -> Result<Vec<Step>, AllocError> {
    let steps = [
        count(0, 1, 2, 1),
        count(1, 1, 1, 1),
        count(2, 1, 0, 1),
        takes(0, 0),
        takes(0, 1),
        takes(0, 2),
        total(1, 1, 3, 3),
        total(2, 1, 3, 3),
        total(0, 1, 3, 3),
        takes(0, 0),
        takes(1, 0),
        takes(2, 0),
        count(0, 2, 2, 1),
        count(1, 2, 1, 1),
        count(2, 2, 0, 1),
        takes(0, 0),
        takes(0, 1),
        takes(0, 2),
        total(1, 2, 3, 3),
        total(2, 2, 3, 3),
        total(0, 2, 3, 3),
    ];
    Ok(Vec::from_array(alloc, steps)?)
}

/// Three ranks, and three rounds.
fn a_letter_in_transit(alloc: Global) -> Result<Vec<Step>, AllocError> {
    let mut steps = first_round(alloc)?;
    for step in later_rounds(alloc)? {
        steps.push(step)?;
    }
    Ok(steps)
}

#[test]
fn two_rounds_that_agree_end_a_barrier(rt: HostRuntime) -> Result<(), Fail> {
    let alloc = rt.alloc();
    let layout = Layout::new(3, 1)?;
    let steps = a_letter_in_transit(alloc)?;
    for (len, ended) in [
        (18, (0, None)),
        (30, (0, None)),
        (32, (0, None)),
        (33, (1, Some(2))),
        (39, (1, Some(2))),
    ] {
        let part = steps.get(..len).ok_or("the script has 39 events")?;
        assert_eq!(rt;
            outcome_of(alloc, layout, Scheme::Direct, part)?,
            Ok(ended),
            "{len} events"
        );
    }
    Ok(())
}

/// These events are refused at the last one, for this rule. The ranks are on nodes of two, or there is one rank.
fn refuses(
    rt: &impl Abort,
    alloc: Global,
    ranks: u32,
    why: Why,
    steps: &[Step],
) -> Result<(), Fail> {
    let last = steps.len().checked_sub(1).ok_or("a script has an event")? as u64;
    let layout = Layout::new(ranks, ranks.min(2))?;
    assert_eq!(rt;
        outcome_of(alloc, layout, Scheme::Nr, steps)?,
        Err((last, why))
    );
    Ok(())
}

#[test]
fn each_rule_of_control_letters_refuses(rt: HostRuntime) -> Result<(), Fail> {
    let alloc = rt.alloc();
    let rows: [(Why, &[Step]); 9] = [
        (Why::BadTag, &[Step::Puts(1, 0, Put::Other(1, 242, 24))]),
        (Why::BadTag, &[Step::Puts(1, 0, Put::Other(1, 240, 23))]),
        (Why::MixedControl, &[Step::Puts(1, 0, Put::Mixed(1))]),
        (Why::SentWhileCounted, &[count(1, 0, 0, 0), data(1, 0)]),
        (Why::WrongControl, &[over(1, 1, count_of(1, 0, 0, 0))]),
        (Why::WrongControl, &[over(1, 0, count_of(2, 0, 0, 0))]),
        (Why::WrongControl, &[over(0, 1, total_of(2, 0, 0, 0))]),
        (Why::WrongControl, &[over(1, 1, total_of(1, 0, 0, 0))]),
        (
            Why::CountUnforwarded,
            &[
                Step::Puts(0, 2, Put::Data(0, 3)),
                takes(2, 0),
                count(2, 0, 0, 0),
            ],
        ),
    ];
    for (why, steps) in rows {
        refuses(&rt, alloc, 4, why, steps)?;
    }
    Ok(())
}

#[test]
fn each_rule_of_counts_refuses(rt: HostRuntime) -> Result<(), Fail> {
    let alloc = rt.alloc();
    let rows: [(Why, &[Step]); 5] = [
        (Why::CountEarly, &[count(1, 1, 0, 0)]),
        (Why::CountEarly, &[count(1, 0, 0, 0), count(1, 0, 0, 0)]),
        (Why::CountEarly, &[count(1, 0, 0, 0), count(1, 1, 0, 0)]),
        (Why::CountWrong, &[data(1, 0), count(1, 0, 0, 0)]),
        (
            Why::CountWrong,
            &[data(1, 0), takes(0, 1), count(0, 0, 0, 0)],
        ),
    ];
    for (why, steps) in rows {
        refuses(&rt, alloc, 4, why, steps)?;
    }
    Ok(())
}

#[test]
fn each_rule_of_totals_refuses(rt: HostRuntime) -> Result<(), Fail> {
    let alloc = rt.alloc();
    let counted = count(0, 0, 0, 0);
    let took = takes(0, 0);
    let rows: [(u32, Why, &[Step]); 6] = [
        (1, Why::TotalEarly, &[counted, total(0, 0, 0, 0)]),
        (1, Why::TotalEarly, &[counted, took, total(0, 1, 0, 0)]),
        (2, Why::TotalEarly, &[counted, took, total(0, 0, 0, 0)]),
        (
            1,
            Why::TotalEarly,
            &[counted, took, total(0, 0, 0, 0), total(0, 0, 0, 0)],
        ),
        (1, Why::TotalWrong, &[counted, took, total(0, 0, 1, 0)]),
        (1, Why::TotalWrong, &[counted, took, total(0, 0, 0, 1)]),
    ];
    for (ranks, why, steps) in rows {
        refuses(&rt, alloc, ranks, why, steps)?;
    }
    Ok(())
}

#[test]
fn the_first_rule_that_is_broken_is_named(rt: HostRuntime) -> Result<(), Fail> {
    let alloc = rt.alloc();
    let rows: [(Why, &[Step]); 6] = [
        (Why::NoSuchRank, &[over(1, 0, count_of(4, 0, 0, 0))]),
        (
            Why::BadTag,
            &[count(1, 0, 0, 0), Step::Puts(1, 0, Put::Other(1, 241, 0))],
        ),
        (
            Why::WrongHop,
            &[count(1, 0, 0, 0), Step::Puts(1, 0, Put::Data(1, 3))],
        ),
        (Why::WrongControl, &[over(1, 1, total_of(1, 9, 9, 9))]),
        (
            Why::CountEarly,
            &[
                Step::Puts(0, 2, Put::Data(0, 3)),
                takes(2, 0),
                count(2, 7, 7, 7),
            ],
        ),
        (
            Why::CountUnforwarded,
            &[
                Step::Puts(0, 2, Put::Data(0, 3)),
                takes(2, 0),
                count(2, 0, 7, 7),
            ],
        ),
    ];
    for (why, steps) in rows {
        refuses(&rt, alloc, 4, why, steps)?;
    }
    Ok(())
}

#[test]
fn a_letter_in_transit_may_not_be_answered_late(rt: HostRuntime) -> Result<(), Fail> {
    let alloc = rt.alloc();
    let layout = Layout::new(3, 1)?;
    let mut steps = a_letter_in_transit(alloc)?;
    // Rank 2 took the letter before its Count of round 1, and none since.
    if let Some(step) = steps.get_mut(21) {
        *step = data(2, 1);
    }
    assert_eq!(rt;
        outcome_of(alloc, layout, Scheme::Direct, &steps)?,
        Err((21, Why::SentWhileCounted))
    );
    Ok(())
}

#[test]
fn one_rank_ends_a_barrier_with_each_second_round(rt: HostRuntime) -> Result<(), Fail> {
    let alloc = rt.alloc();
    let mut steps = Vec::new(alloc);
    for q in 0..4 {
        for step in [
            count(0, q, 0, 0),
            takes(0, 0),
            total(0, q, 0, 0),
            takes(0, 0),
        ] {
            steps.push(step)?;
        }
    }
    let events = events_of(alloc, &steps)?;
    let world = replay(alloc, Layout::new(1, 1)?, Scheme::Direct, &events)?;
    assert_eq!(rt; rounds_ended(alloc, &world)?.as_slice(), [1, 3].as_slice());
    Ok(())
}
