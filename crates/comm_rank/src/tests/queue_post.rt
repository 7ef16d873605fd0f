//! A post of one rank alone: what it puts comes back to it out of a queue.
ghost use Rattle.std.specs.Prelude.{◌≡◌, ◌^◌, IfOk};
ghost use Rattle.world_core.specs.Plain.{fresh_links};
ghost use Rattle.ygm_route.specs.declared.scheme.Scheme.TheVariants.{Direct};

use super::{ASK, Echo, LONG, NOTE, TWO_LETTERS, boxed, flush_by, rank_of, same, send_by, turn_of};
use crate::{Comm, CommFault, Finished, Handler, Turn};
use msg_codec::{Batch, Letters};
use std::alloc::Global;
use std::collections::VecDeque;
use std::marker::Model;
use std::process::Abort;
use std::test::*;
use world_core::laws::{
    a_fresh_world_is_sound, an_honest_put_keeps_a_sound_world,
    taking_the_next_batch_keeps_a_sound_world,
};
use world_core::{Entry, Limits, Post, PutBack};
use ygm_route::{Layout, Scheme};
use ygm_taps::{QuietTap, Tap};

// A batch in the queue, and its letters, for the log once it is taken.
#[derive(Drop)]
struct Parcel {
    batch: Batch,
    letters: Letters,
}

// The rank's log, which has room for what is in the queue, and the queue, which holds two batches at most.
#[derive(Drop)]
pub(super) struct QueuePost {
    alloc: Global,
    layout: Layout,
    log: Vec<Entry>,
    queue: VecDeque<Parcel>,
    raised: bool,
    fulls: u64,
    misses: u64,
    halts: u64,
}

impl Model for QueuePost {
    ghost use Rattle.std.specs.Prelude.{◌≡◌, ◌≤◌, ◌+◌, ◌^◌, [], ◌∷◌, map, vec_len};
    ghost use Rattle.std.specs.Vec.{vec_capacity};
    ghost use Rattle.std.specs.VecDeque.{deque_len};
    ghost use Rattle.ygm_route.specs.declared.scheme.Scheme.TheVariants.{Direct};
    ghost use Rattle.world_core.specs.Modest.{IsWorld};
    ghost use Rattle.world_core.specs.Plain.{Plain};
    ghost use Rattle.world_core.specs.World.{link};

    ghost Value = { Plain };

    ghost view = { λ post. record {
      world = record { layout = post.layout; scheme = Direct; logs = post.log.items ∷ [] };
      ring = 2;
      batches = 2 ^ 64;
      raised = post.raised ∷ [];
      fulls = post.fulls ∷ [];
      misses = post.misses ∷ [];
      halts = post.halts;
    } };

    ghost invariant = { λ post. (post.layout.ranks ≡ 1)
        × IsWorld (record { layout = post.layout; scheme = Direct; logs = post.log.items ∷ [] })
        × (map (λ parcel. parcel.batch) post.queue.items ≡ link (record { layout = post.layout; scheme = Direct; logs = post.log.items ∷ [] }) 0 0)
        × (map (λ parcel. parcel.letters) post.queue.items ≡ map (λ parcel. parcel.batch) post.queue.items)
        × (vec_len post.log + deque_len post.queue ≤ vec_capacity post.log) };
}

impl QueuePost {
    fn new(alloc: Global) -> Result<QueuePost, Fail>
        ensures { IfOk result (λ post. post ≡ fresh_links (record { ranks = 1; cores = 1 }) Direct 2 (2 ^ 64)) }
    {
        a_fresh_world_is_sound();
        let layout = Layout::new(1, 1)?;
        Ok(QueuePost {
            alloc,
            layout,
            log: Vec::new(alloc),
            queue: VecDeque::new(alloc),
            raised: false,
            fulls: 0,
            misses: 0,
            halts: 0,
        })
    }

    fn layout(&self) -> Layout
        ensures { result ≡ self.now.world.layout }
    {
        self.layout
    }

    // The lengths of its log and its queue, and its counts of fulls, misses and halts.
    fn counts(&self) -> (usize, usize, u64, u64, u64) {
        (
            self.log.len(),
            self.queue.len(),
            self.fulls,
            self.misses,
            self.halts,
        )
    }
}

impl Post for QueuePost {
    ghost use Rattle.world_core.specs.Plain.{state_of};

    ghost state = { state_of };

    fn put(&mut self, _here: u32, to: u32, batch: Batch) -> Result<(), PutBack> {
        if self.queue.len() >= 2 {
            self.fulls = self.fulls.saturating_add(1);
            return Err(PutBack::Full(batch));
        }
        // For what is in the queue, for this batch, and for the put of it.
        if self.log.reserve(4).is_err() || self.queue.reserve(1).is_err() {
            return Err(PutBack::NoMemory(batch));
        }
        let Ok(letters) = Letters::of(self.alloc, &batch) else {
            return Err(PutBack::NoMemory(batch));
        };
        let Ok(copied) = letters.copy() else {
            return Err(PutBack::NoMemory(batch));
        };
        an_honest_put_keeps_a_sound_world();
        self.log.push_reserved(Entry::Put {
            to,
            letters: copied,
        });
        self.queue.push_back_reserved(Parcel { batch, letters });
        Ok(())
    }

    fn take(&mut self, _here: u32, from: u32) -> Option<Batch> {
        let Some(Parcel { batch, letters }) = self.queue.pop_front() else {
            self.misses = self.misses.saturating_add(1);
            return None;
        };
        taking_the_next_batch_keeps_a_sound_world();
        self.log.push_reserved(Entry::Took { from, letters });
        Some(batch)
    }

    fn raise_stop(&mut self, _here: u32) {
        self.raised = true;
    }

    fn stopped(&mut self, _here: u32) -> bool {
        if self.raised {
            self.halts = self.halts.saturating_add(1);
        }
        self.raised
    }
}

// One rank, and its post.
#[derive(Drop)]
pub(super) struct Lone<H: Handler, T: Tap, P: Post + Drop> {
    alloc: Global,
    pub(super) comm: Box<Comm<H, T>>,
    post: Box<P>,
}

impl<H: Handler, T: Tap, P: Post + Drop> Model for Lone<H, T, P> {
    ghost use Rattle.std.specs.Prelude.{◌≡◌, false};
    ghost use Rattle.comm_rank.specs.Agrees.{Belongs, PutsData};
    ghost use Rattle.comm_rank.specs.Rank.{Rank};

    ghost Value = { Rank H };

    ghost view = { λ lone. lone.comm.value };

    ghost invariant = { λ lone. lone.comm.value.stopped ≡ false → Belongs H.apply H.start lone.comm.value (P.state lone.post.value) × PutsData ((P.state lone.post.value).log lone.comm.value.here) };
}

// A rank that has a queue for its post, and a tap.
pub(super) fn lone_of<T: Tap>(
    alloc: Global,
    limits: Limits,
    tap: T,
) -> Result<Lone<Echo, T, QueuePost>, Fail> {
    let post = boxed(alloc, QueuePost::new(alloc)?)?;
    let comm = rank_of(alloc, post.layout(), Scheme::Direct, 0, limits, tap)?;
    Ok(Lone {
        alloc,
        comm: boxed(alloc, comm)?,
        post,
    })
}

impl<H: Handler, T: Tap, P: Post + Drop> Lone<H, T, P> {
    // It sends itself a letter, in a batch of its own.
    pub(super) fn send(&mut self, tag: u8, first: u8) -> Result<(), Fail> {
        let here = self.comm.here();
        send_by(self.alloc, &mut *self.comm, here, tag, &[first; LONG])??;
        Ok(())
    }

    pub(super) fn try_turn(&mut self) -> Result<Result<Turn, CommFault>, Fail> {
        if self.comm.is_stopped() {
            return Err("a rank that isn't stopped takes a turn".into());
        }
        Ok(turn_of(&mut *self.comm, &mut *self.post))
    }

    fn flush(&mut self) -> Result<(), Fail> {
        flush_by(&mut *self.comm)
    }

    // A turn that puts all that the rank held before.
    pub(super) fn turn(&mut self) -> Result<Turn, Fail> {
        self.flush()?;
        Ok(self.try_turn()??)
    }

    pub(super) fn finish(self) -> Finished<H, T> {
        let Lone { comm, .. } = self;
        Box::into_inner(comm).finish()
    }
}

// Three letters, of which the queue holds two.
fn through_a_queue(
    rt: &impl Abort,
    lone: &mut Lone<Echo, QuietTap, QueuePost>,
) -> Result<(), Fail> {
    lone.send(NOTE, b'a')?;
    lone.send(NOTE, b'b')?;
    lone.send(NOTE, b'c')?;
    let first = lone.turn()?;
    let second = lone.turn()?;
    lone.turn()?;
    lone.turn()?;
    let full = Turn {
        took: 0,
        put: 2,
        full: Some(0),
    };
    let rest = Turn {
        took: 1,
        put: 1,
        full: None,
    };
    same(
        rt,
        (first, second, lone.comm.sent_count(), lone.comm.run_count()),
        (full, rest, 3, 3),
    );
    same(rt, lone.post.counts(), (6, 0, 1, 1, 0));
    Ok(())
}

#[test]
fn a_rank_alone_sends_itself_letters_through_a_queue(rt: HostRuntime) -> Result<(), Fail> {
    let mut lone = lone_of(rt.alloc(), Limits::FULL, QuietTap)?;
    through_a_queue(&rt, &mut lone)?;
    same(
        &rt,
        lone.finish().handler.seen.as_slice(),
        b"abc".as_slice(),
    );
    Ok(())
}

// The rank may send one letter more, and is asked for two.
fn asked_too_much(rt: &impl Abort, lone: &mut Lone<Echo, QuietTap, QueuePost>) -> Result<(), Fail> {
    lone.send(ASK, b'q')?;
    lone.turn()?;
    let full = matches!(lone.try_turn()?, Err(CommFault::CountFull(_)));
    same(
        rt,
        (full, lone.comm.is_stopped(), lone.post.raised),
        (true, true, true),
    );
    Ok(())
}

#[test]
fn a_rank_alone_raises_the_stop_of_its_queue(rt: HostRuntime) -> Result<(), Fail> {
    asked_too_much(&rt, &mut lone_of(rt.alloc(), TWO_LETTERS, QuietTap)?)
}
