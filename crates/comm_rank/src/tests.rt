ghost use Rattle.std.specs.Prelude.{◌≡◌, ◌<◌, ◌≤◌, ◌+◌, ◌++◌, List, [], ◌∷◌, false, length, IfOk, IsTrue, OnOk, OnErr};
ghost use Rattle.world_core.specs.declared.entry.Entry.{Entry};
ghost use Rattle.world_core.specs.Plain.{state_of};
ghost use Rattle.world_core.specs.Post.{SamePost};
ghost use Rattle.comm_rank.specs.Agrees.{Agrees, Belongs, PutsData};
ghost use Rattle.comm_rank.specs.Rank.{IsSameRank, fresh_rank};

mod paths;
mod queue_post;
mod rounds;
mod taps;

use super::*;
use msg_codec::{Body, Counter, LetterRef};
use std::alloc::{AllocError, Global};
use std::fmt::Debug;
use std::marker::Model;
use std::process::Abort;
use std::test::*;
use world_core::{Entry, Limits, PlainLinks, Post};
use ygm_route::{Layout, Scheme};
use ygm_taps::{QuietTap, Tap};

// The tags of a letter that changes nothing else, of one that asks for two answers, and of an answer.
const NOTE: u8 = 0;

const ASK: u8 = 1;

const ANSWER: u8 = 2;

// A batch has at most so many bytes. Two letters with bodies so long don't share one.
const BUFFER: u32 = 64;

const LONG: usize = 40;

// Keeps the first byte of each letter's body, and answers one that asks twice, to its sender: by its body, and by
// an empty one.
#[derive(Drop)]
struct Echo {
    alloc: Global,
    seen: Vec<u8>,
}

impl Model for Echo {
    ghost use Rattle.std.specs.Prelude.{ℕ, List};

    ghost Value = { List ℕ };

    ghost view = { λ echo. echo.seen.items };
}

impl Handler for Echo {
    ghost use Rattle.std.specs.Prelude.{[], ◌∷◌, ◌++◌, ◌&&◌, ◌==◌, nat_lt, if◌then◌else◌, slice_index_or, refl};

    ghost apply = { λ contents here ranks l. (
      contents ++ slice_index_or l.body 0 0 ∷ [],
      if (l.tag == 1) && (nat_lt l.from ranks) then record { to = l.from; tag = 2; body = l.body } ∷ record { to = l.from; tag = 2; body = [] } ∷ [] else [],
    ) };

    ghost start = { λ _. [] };

    fn run(
        &mut self,
        _here: u32,
        letter: LetterRef<'_>,
        out: &mut Outgoing,
    ) -> Result<(), AllocError> {
        let first = letter.body.first().copied().unwrap_or(0);
        self.seen.reserve(1)?;
        if letter.tag == ASK && letter.from < out.ranks() {
            answer(self.alloc, letter, out)?;
        }
        self.seen.push_reserved(first);
        Ok(())
    }

    ghost keeps_start = { λ _ _ _ _. refl };
}

// Sends both answers, or none.
fn answer(alloc: Global, letter: LetterRef<'_>, out: &mut Outgoing) -> Result<(), AllocError>
    requires { letter.from < out.old.ranks }
    ensures answers { OnOk result (out.new.letters ≡ out.old.letters ++ record { to = letter.entry.from; tag = 2; body = letter.entry.body.now } ∷ record { to = letter.entry.from; tag = 2; body = [] } ∷ []) }
    ensures none { OnErr result (out.new.letters ≡ out.old.letters) }
    ensures ranks { out.new.ranks ≡ out.old.ranks }
{
    let before = out.count();
    out.send(letter.from, ANSWER, Body::of(alloc, letter.body)?)?;
    let second = match Body::of(alloc, b"") {
        Ok(body) => out.send(letter.from, ANSWER, body),
        Err(refused) => Err(refused),
    };
    if second.is_err() {
        out.cut(before);
    }
    second
}

// A value in a box. Its owner drops it by one call, whatever it holds.
fn boxed<T: Drop>(alloc: Global, value: T) -> Result<Box<T>, Fail>
    ensures { IfOk result (λ boxed. boxed.value ≡ value) }
{
    Ok(
        Box::new(alloc, value)
            .ok()
            .ok_or("there is memory for a box")?,
    )
}

// Fails the test unless both are equal. The macro would be proved anew wherever it stands.
fn same<T: PartialEq + Debug + Drop>(rt: &impl Abort, found: T, wanted: T) {
    assert_eq!(rt; found, wanted);
}

// A rank that has sent and run nothing, with a tap.
fn rank_of<T: Tap>(
    alloc: Global,
    layout: Layout,
    scheme: Scheme,
    here: u32,
    limits: Limits,
    tap: T,
) -> Result<Comm<Echo, T>, Fail>
    requires below { here < layout.ranks }
    ensures made { IfOk result (λ comm. comm ≡ fresh_rank layout scheme here limits.letters [] (T.heard tap)) }
{
    let echo = Echo {
        alloc,
        seen: Vec::new(alloc),
    };
    let made = Comm::new(alloc, layout, scheme, here, BUFFER, limits, echo, tap);
    Ok(made.ok().ok_or("there is memory for a rank")?)
}

// A rank sends a body of at most `LONG` bytes, if it isn't stopped.
fn send_by<H: Handler, T: Tap>(
    alloc: Global,
    comm: &mut Comm<H, T>,
    to: u32,
    tag: u8,
    body: &[u8],
) -> Result<Result<(), CommFault>, Fail>
    ensures agrees { (log : List Entry) → Agrees H.apply H.start comm.old log → Agrees H.apply H.start comm.new log }
    ensures stopped { comm.new.stopped ≡ comm.old.stopped }
    ensures same { IsSameRank comm.old comm.new }
{
    if comm.is_stopped() || to >= comm.ranks() || tag >= 240 || body.len() > LONG {
        return Err("a rank that isn't stopped sends to a rank of its world".into());
    }
    Ok(comm.send(to, tag, Body::of(alloc, body)?))
}

// A rank closes its batches, if it isn't stopped.
fn flush_by<H: Handler, T: Tap>(comm: &mut Comm<H, T>) -> Result<(), Fail>
    ensures agrees { (log : List Entry) → Agrees H.apply H.start comm.old log → Agrees H.apply H.start comm.new log }
    ensures stopped { comm.new.stopped ≡ comm.old.stopped }
    ensures same { IsSameRank comm.old comm.new }
{
    if comm.is_stopped() {
        return Err("a rank that isn't stopped closes its batches".into());
    }
    comm.flush()?;
    Ok(())
}

// A turn. Of what it promises this is enough here: a rank that isn't stopped still belongs to the post,
// and has put data letters alone.
fn turn_of<H: Handler, T: Tap, P: Post>(
    comm: &mut Comm<H, T>,
    post: &mut P,
) -> Result<Turn, CommFault>
    requires going { comm.old.stopped ≡ false }
    requires belongs { Belongs H.apply H.start comm.old (P.state post.old) }
    requires data_alone { PutsData ((P.state post.old).log comm.old.here) }
    ensures data_alone { comm.new.stopped ≡ false → PutsData ((P.state post.new).log comm.old.here) }
    ensures belongs { comm.new.stopped ≡ false → Belongs H.apply H.start comm.new (P.state post.new) }
    ensures same_rank { IsSameRank comm.old comm.new }
    ensures same_post { SamePost comm.old.here (P.state post.old) (P.state post.new) }
{
    comm.turn(post)
}

// All ranks of a world, with quiet taps, and its links. What is large is in a `Vec` and a `Box`. A rank that isn't
// stopped belongs to the links, and has put data letters alone.
#[derive(Drop)]
struct Ranks<H: Handler> {
    alloc: Global,
    layout: Layout,
    comms: Vec<Comm<H, QuietTap>>,
    links: Box<PlainLinks>,
}

impl<H: Handler> Model for Ranks<H> {
    ghost use Rattle.std.specs.Prelude.{◌≡◌, ℕ, Some, false, length, slice_get};
    ghost use Rattle.world_core.specs.Plain.{Plain, state_of};
    ghost use Rattle.world_core.specs.World.{log_of};
    ghost use Rattle.comm_rank.specs.Agrees.{Belongs, PutsData};
    ghost use Rattle.comm_rank.specs.Rank.{Rank};

    ghost Value = { Plain };

    ghost view = { λ ranks. ranks.links.value };

    ghost invariant = { λ ranks. (ranks.links.value.world.layout ≡ ranks.layout) × (length ranks.comms.items ≡ ranks.layout.ranks)
        × ((rank : ℕ) (me : Rank H) → slice_get ranks.comms.items rank ≡ Some me → (me.here ≡ rank) × (me.stopped ≡ false →
        Belongs H.apply H.start me (state_of ranks.links.value) × PutsData (log_of ranks.links.value.world me.here))) };
}

// The ranks of a world with a layout and a scheme, links that hold so many batches, and limits.
fn world_of(
    alloc: Global,
    layout: Layout,
    scheme: Scheme,
    ring: u32,
    limits: Limits,
) -> Result<Ranks<Echo>, Fail>
    requires { 1 ≤ ring }
{
    let links = PlainLinks::new(alloc, layout, scheme, ring, limits)?;
    let links = boxed(alloc, links)?;
    let mut comms = Vec::new(alloc);
    for here in 0..layout.ranks() {
        comms.push(rank_of(alloc, layout, scheme, here, limits, QuietTap)?)?;
    }
    Ok(Ranks {
        alloc,
        layout,
        comms,
        links,
    })
}

// So many ranks, whose letters go straight to their destinations.
fn ranks_of(alloc: Global, ranks: u32, ring: u32, limits: Limits) -> Result<Ranks<Echo>, Fail>
    requires { 1 ≤ ring }
{
    world_of(alloc, Layout::new(ranks, 1)?, Scheme::Direct, ring, limits)
}

impl<H: Handler> Ranks<H> {
    fn rank(&self, rank: u32) -> Result<&Comm<H, QuietTap>, Fail> {
        Ok(self.comms.get(rank as usize).ok_or("there is such a rank")?)
    }

    fn try_send(
        &mut self,
        from: u32,
        to: u32,
        tag: u8,
        body: &[u8],
    ) -> Result<Result<(), CommFault>, Fail> {
        let rank = from as usize;
        if rank >= self.comms.len() {
            return Err("a rank of the world sends".into());
        }
        send_by(self.alloc, &mut self.comms[rank], to, tag, body)
    }

    // Sends a letter for each byte of a text, each in a batch of its own.
    fn send(&mut self, from: u32, to: u32, tag: u8, text: &[u8]) -> Result<(), Fail> {
        for first in text {
            self.try_send(from, to, tag, &[*first; LONG])??;
        }
        Ok(())
    }

    fn try_turn(&mut self, rank: u32) -> Result<Result<Turn, CommFault>, Fail> {
        let rank = rank as usize;
        if rank >= self.comms.len() || self.comms[rank].is_stopped() {
            return Err("a rank that isn't stopped takes a turn".into());
        }
        Ok(turn_of(&mut self.comms[rank], &mut *self.links))
    }

    fn flush(&mut self, rank: u32) -> Result<(), Fail> {
        let rank = rank as usize;
        if rank >= self.comms.len() {
            return Err("a rank of the world closes its batches".into());
        }
        flush_by(&mut self.comms[rank])
    }

    // A turn that puts all that the rank held before.
    fn turn(&mut self, rank: u32) -> Result<Turn, Fail> {
        self.flush(rank)?;
        Ok(self.try_turn(rank)??)
    }

    // Turns of ranks, one after another.
    fn turns(&mut self, ranks: &[u32]) -> Result<(), Fail> {
        for rank in ranks {
            self.turn(*rank)?;
        }
        Ok(())
    }

    // the ranks to which a rank put its batches, and how many letters each has
    fn put_by(&self, rank: u32) -> Result<Vec<(u32, u64)>, Fail> {
        if rank >= self.layout.ranks() {
            return Err("a rank of the world puts".into());
        }
        let mut puts = Vec::new(self.alloc);
        for entry in self.links.world().log(rank) {
            if let Entry::Put { to, letters } = entry {
                puts.push((*to, letters.count()))?;
            }
        }
        Ok(puts)
    }

    // the number of batches in a link
    fn link_len(&self, from: u32, to: u32) -> Result<usize, Fail> {
        if from >= self.layout.ranks() || to >= self.layout.ranks() {
            return Err("a link is between ranks of the world".into());
        }
        Ok(self.links.world().link_len(from, to))
    }
}

// The first bytes of the letters that ran at a rank, and how many letters it sent and ran.
type State<'a> = (&'a [u8], u64, u64);

impl Ranks<Echo> {
    fn state(&self, rank: u32) -> Result<State<'_>, Fail> {
        let comm = self.rank(rank)?;
        let seen = comm.contents().seen.as_slice();
        Ok((seen, comm.sent_count(), comm.run_count()))
    }
}

fn straight(rt: &impl Abort, ranks: &mut Ranks<Echo>) -> Result<(), Fail> {
    ranks.send(1, 6, NOTE, b"a")?;
    let put = ranks.turn(1)?.put;
    let waiting = ranks.link_len(1, 6)?;
    let took = ranks.turn(6)?.took;
    same(
        rt,
        (put, waiting, took, ranks.state(6)?),
        (1, 1, 1, (b"a".as_slice(), 0, 1)),
    );
    Ok(())
}

#[test]
fn letters_go_straight_to_their_ranks(rt: HostRuntime) -> Result<(), Fail> {
    straight(&rt, &mut ranks_of(rt.alloc(), 8, 1, Limits::FULL)?)
}

// Rank 0 asks, rank 1 answers twice, and rank 0 takes both answers.
fn asked(rt: &impl Abort, ranks: &mut Ranks<Echo>) -> Result<(), Fail> {
    ranks.send(0, 1, ASK, b"q")?;
    ranks.turns(&[0, 1, 1, 0, 0])?;
    let (near, far) = (ranks.state(0)?, ranks.state(1)?);
    let put = ranks.put_by(1)?;
    same(
        rt,
        (put.as_slice(), near, far),
        (
            [(0, 1), (0, 1)].as_slice(),
            (b"q\0".as_slice(), 1, 2),
            (b"q".as_slice(), 2, 1),
        ),
    );
    Ok(())
}

#[test]
fn both_answers_of_a_handler_are_sent_in_order(rt: HostRuntime) -> Result<(), Fail> {
    asked(&rt, &mut ranks_of(rt.alloc(), 2, 4, Limits::FULL)?)
}

// Two letters over a link that holds one batch.
fn through_a_full_link(rt: &impl Abort, ranks: &mut Ranks<Echo>) -> Result<(), Fail> {
    ranks.send(0, 1, NOTE, b"ab")?;
    let first = ranks.turn(0)?;
    ranks.turn(1)?;
    let second = ranks.turn(0)?;
    ranks.turn(1)?;
    same(
        rt,
        (
            first.put,
            first.full,
            second.put,
            second.full,
            ranks.state(1)?,
        ),
        (1, Some(1), 1, None, (b"ab".as_slice(), 0, 2)),
    );
    Ok(())
}

#[test]
fn a_full_link_loses_no_batch(rt: HostRuntime) -> Result<(), Fail> {
    through_a_full_link(&rt, &mut ranks_of(rt.alloc(), 2, 1, Limits::FULL)?)
}

const TWO_LETTERS: Limits = Limits {
    letters: 2,
    rounds: 1,
    batches: 2,
};

fn sent_too_much(rt: &impl Abort, ranks: &mut Ranks<Echo>) -> Result<(), Fail> {
    ranks.send(0, 1, NOTE, b"a")?;
    ranks.send(0, 0, NOTE, b"b")?;
    let full = matches!(
        ranks.try_send(0, 1, NOTE, b"c")?,
        Err(CommFault::CountFull(_))
    );
    same(rt, (full, ranks.rank(0)?.sent_count()), (true, 2));
    Ok(())
}

#[test]
fn a_rank_sends_as_many_letters_as_it_may(rt: HostRuntime) -> Result<(), Fail> {
    sent_too_much(&rt, &mut ranks_of(rt.alloc(), 2, 4, TWO_LETTERS)?)
}

// A rank that may send one letter more is asked for two: its turn, and then that of the other, fail.
fn asked_too_much(rt: &impl Abort, ranks: &mut Ranks<Echo>) -> Result<(), Fail> {
    ranks.send(0, 1, ASK, b"q")?;
    ranks.send(1, 0, NOTE, b"n")?;
    ranks.turn(0)?;
    let full = matches!(ranks.try_turn(1)?, Err(CommFault::CountFull(_)));
    let stopped = matches!(ranks.try_turn(0)?, Err(CommFault::Stopped));
    let (near, far) = (ranks.rank(0)?, ranks.rank(1)?);
    same(
        rt,
        (
            full,
            stopped,
            near.is_stopped(),
            far.is_stopped(),
            far.run_count(),
        ),
        (true, true, true, true, 0),
    );
    Ok(())
}

#[test]
fn a_rank_whose_handler_sends_too_many_stops_all(rt: HostRuntime) -> Result<(), Fail> {
    asked_too_much(&rt, &mut ranks_of(rt.alloc(), 2, 4, TWO_LETTERS)?)
}

// A rank that sends is no longer idle, and one that halts has raised the stop.
fn sends_and_halts(
    rt: &impl Abort,
    comm: &mut Comm<Echo, QuietTap>,
    links: &mut PlainLinks,
) -> Result<(), Fail>
    requires { IsTrue ((state_of links.old).serves comm.old.here) }
{
    let before = (comm.is_idle(), comm.next_control().is_none());
    send_by(comm.alloc, comm, 0, NOTE, b"a")??;
    let here = comm.here();
    comm.halt(links);
    same(
        rt,
        (before, comm.is_idle(), comm.is_stopped()),
        ((true, true), false, true),
    );
    same(rt, links.stopped(here), true);
    Ok(())
}

#[test]
fn a_rank_halts_by_itself(rt: HostRuntime) -> Result<(), Fail> {
    let layout = Layout::new(1, 1)?;
    let mut comm = rank_of(
        rt.alloc(),
        layout,
        Scheme::Direct,
        0,
        Limits::FULL,
        QuietTap,
    )?;
    let mut links = PlainLinks::new(rt.alloc(), layout, Scheme::Direct, 1, Limits::FULL)?;
    sends_and_halts(&rt, &mut comm, &mut links)
}

fn two_sent(alloc: Global, out: &mut Outgoing) -> Result<(), Fail>
    requires { out.old.ranks ≡ 3 }
    ensures { OnOk result (length out.new.letters ≡ length out.old.letters + 2) }
{
    out.send(2, ASK, Body::of(alloc, b"a")?)?;
    out.send(0, ASK, Body::of(alloc, b"b")?)?;
    Ok(())
}

#[test]
fn a_handler_takes_back_what_it_sent(rt: HostRuntime) -> Result<(), Fail> {
    let mut out = Outgoing::new(rt.alloc(), 3);
    two_sent(rt.alloc(), &mut out)?;
    same(&rt, (out.count(), out.ranks()), (2, 3));
    out.cut(1);
    let kept = out.letter(1, 0);
    same(
        &rt,
        (out.count(), kept.to, kept.from, kept.tag, kept.body),
        (1, 2, 1, ASK, b"a".as_slice()),
    );
    Ok(())
}

fn reads_as(rt: &impl Abort, alloc: Global, fault: CommFault, text: &str) -> Result<(), Fail> {
    let shown = format!(in alloc; "{fault}")?;
    same(rt, shown.as_str(), text);
    Ok(())
}

#[test]
fn faults_are_told_apart(rt: HostRuntime) -> Result<(), Fail> {
    let alloc = rt.alloc();
    let full = CommFault::from(Counter::new(0).raise(1).err().ok_or("1 is above 0")?);
    reads_as(&rt, alloc, CommFault::from(AllocError), "out of memory")?;
    reads_as(&rt, alloc, full, "the rank is at its limit of letters")?;
    reads_as(&rt, alloc, CommFault::Stopped, "a rank has stopped")
}

#[test]
fn the_law_holds_at_a_handler() {
    what_ran_is_the_beginning_of_what_was_sent::<Echo>();
}
