//! One rank of a world.
ghost use Rattle.std.specs.Prelude.{◌≡◌, ◌<◌, ◌≤◌, ◌+◌, ℕ, List, [], ◌∷◌, false, true, length, Err, IfOk, IfErr, OnOk, OnErr, IfSome, IsNone, IsOk, IsTrue};
ghost use Rattle.msg_codec.specs.Control.{letter_of_control};
ghost use Rattle.msg_codec.specs.Letter.{letter_of};
ghost use Rattle.world_core.specs.declared.entry.Entry.{Entry};
ghost use Rattle.list_facts.specs.Sums.{sum_upto};
ghost use Rattle.world_core.specs.Limits.{data_tags, most_letters};
ghost use Rattle.world_core.specs.Post.{RaiseKeeps, StopRaised};
ghost use Rattle.world_core.specs.Rules.{IsHonest};
ghost use Rattle.send_buffers.specs.Limits.{max_buffer, min_buffer};
ghost use Rattle.comm_rank.specs.Agrees.{Agrees};
ghost use Rattle.comm_rank.specs.Fault.{IsFullAt, NeverStopped};
ghost use Rattle.comm_rank.specs.declared.fault.CommFault.TheVariants.{CountFull, NoMemory};
ghost use Rattle.comm_rank.specs.Rank.{HasFlushed, HasSent, IsIdle, fresh_rank, halted, local_of, sent_to};
ghost use Rattle.comm_rank.specs.Store.{Holds, IsSameStore};

use crate::waiting::Waiting;
use crate::{CommFault, Handler, Outgoing};
use msg_codec::{Body, Control, Counter, LetterRef};
use send_buffers::Buffers;
use std::alloc::Global;
use std::collections::VecDeque;
use std::marker::Model;
use world_core::{Limits, Post};
use ygm_route::{Layout, Scheme};
use ygm_taps::Tap;

/// One rank of a world: its handler, the letters that it holds until its links take them, and a tap that it gives each
/// letter that ran. Each turn is given the post through which the rank reaches its links. A turn puts data letters
/// alone. The control letters that it takes reach no handler and no tap, and wait for `next_control`. After a turn that
/// failed the rank is stopped for good.
#[derive(Drop)]
pub struct Comm<H, T: Tap> {
    pub(crate) alloc: Global,
    pub(crate) layout: Layout,
    pub(crate) scheme: Scheme,
    pub(crate) here: u32,
    pub(crate) limits: Limits,
    pub(crate) sent: Counter,
    pub(crate) ran: u64,
    pub(crate) held: Buffers,
    pub(crate) waiting: Waiting,
    pub(crate) controls: VecDeque<Control>,
    pub(crate) out: Outgoing,
    pub(crate) handler: H,
    pub(crate) tap: T,
    pub(crate) stopped: bool,
}

impl<H, T: Tap> Model for Comm<H, T> {
    ghost use Rattle.std.specs.Prelude.{◌≡◌, ◌<◌, [], map};
    ghost use Rattle.msg_codec.specs.Control.{letter_of_control};
    ghost use Rattle.comm_rank.specs.Rank.{Rank};
    ghost use Rattle.comm_rank.specs.Store.{AreOf};

    ghost Value = { Rank H };

    ghost view = { λ comm. record {
      layout = comm.layout;
      scheme = comm.scheme;
      here = comm.here;
      most = comm.limits.letters;
      contents = comm.handler;
      sent_count = comm.sent.count;
      run_count = comm.ran;
      held = comm.held.queues;
      waiting = comm.waiting;
      controls = map letter_of_control comm.controls.items;
      stopped = comm.stopped;
      heard = T.heard comm.tap;
    } };

    ghost invariant = { λ comm. (comm.here < comm.layout.ranks) × (comm.sent.limit ≡ comm.limits.letters)
        × (comm.out.ranks ≡ comm.layout.ranks) × (comm.out.letters ≡ []) × AreOf comm.layout comm.scheme comm.here comm.held };
}

/// A rank that couldn't be made, for lack of memory: its handler and its tap.
#[derive(Debug, Drop)]
pub struct NotMade<H, T> {
    pub handler: H,
    pub tap: T,
}

/// A rank that is done: its handler and its tap.
#[derive(Debug, Drop)]
pub struct Finished<H, T> {
    pub handler: H,
    pub tap: T,
}

/// Counts a letter as sent, and holds it. A letter that is refused is neither counted nor held.
pub(crate) fn hold(
    sent: &mut Counter,
    most: u64,
    held: &mut Buffers,
    letter: LetterRef<'_>,
) -> Result<(), CommFault>
    requires limit { sent.old.limit ≡ most }
    requires destination { letter.to < held.old.layout.ranks }
    requires sender { letter.from < held.old.layout.ranks }
    requires tag { letter.tag < data_tags }
    ensures held { OnOk result (Holds held.old held.new (letter_of letter.entry)) }
    ensures counted { OnOk result (sent.new ≡ record sent.old { count = sent.old.count + 1 }) }
    ensures not_held { OnErr result (held.new.queues ≡ held.old.queues) }
    ensures not_counted { OnErr result (sent.new ≡ sent.old) }
    ensures same { IsSameStore held.old held.new }
    ensures cause { IfErr result (IsFullAt sent.old.count most) }
    ensures full { most ≤ sent.old.count → result ≡ Err (CountFull most) }
    ensures never_stopped { IfErr result NeverStopped }
{
    held.holds();
    if sent.count() < most {
        held.add(letter)?;
    }
    sent.raise(1)?;
    Ok(())
}

impl<H: Handler, T: Tap> Comm<H, T> {
    /// Rank number `here`, which has sent and run nothing, with a handler that keeps what it starts with. It takes
    /// memory from `alloc`, also as it sends and as letters run. Its batches have at most `buffer` bytes, or one letter
    /// alone. The tap keeps what it heard before. Out of memory, it hands the handler and the tap back.
    pub fn new(
        alloc: Global,
        layout: Layout,
        scheme: Scheme,
        here: u32,
        buffer: u32,
        limits: Limits,
        handler: H,
        tap: T,
    ) -> Result<Comm<H, T>, NotMade<H, T>>
        requires below { here < layout.ranks }
        requires least { min_buffer ≤ buffer }
        requires greatest { buffer ≤ max_buffer }
        requires fresh { H.start handler ≡ handler }
        ensures made { IfOk result (λ comm. comm ≡ fresh_rank layout scheme here limits.letters handler (T.heard tap)) }
        ensures agrees { IfOk result (λ comm. Agrees H.apply H.start comm []) }
        ensures handed_back { IfErr result (λ refused. (refused.handler ≡ handler) × (refused.tap ≡ tap)) }
    {
        let Ok(held) = Buffers::new(alloc, layout, scheme, here, buffer) else {
            return Err(NotMade { handler, tap });
        };
        Ok(Comm {
            alloc,
            layout,
            scheme,
            here,
            limits,
            sent: Counter::new(limits.letters),
            ran: 0,
            held,
            waiting: Waiting::none(alloc),
            controls: VecDeque::new(alloc),
            out: Outgoing::new(alloc, layout.ranks()),
            handler,
            tap,
            stopped: false,
        })
    }

    /// Sends a letter to a rank, perhaps to itself. The rank holds it until a turn puts it into its link. If the rank
    /// has sent as many letters as it may, or out of memory, the letter is refused: the rank is unchanged, and the
    /// body is lost.
    pub fn send(&mut self, to: u32, tag: u8, body: Body) -> Result<(), CommFault>
        requires destination { to < self.old.layout.ranks }
        requires data { tag < data_tags }
        requires going { self.old.stopped ≡ false }
        ensures sent { OnOk result
            (HasSent self.old self.new (record { to = to; from = self.old.here; tag = tag; body = body })) }
        ensures unchanged { OnErr result (self.new ≡ self.old) }
        ensures cause { IfErr result (IsFullAt self.old.sent_count self.old.most) }
        ensures full { self.old.most ≤ self.old.sent_count → result ≡ Err (CountFull self.old.most) }
        ensures never_stopped { IfErr result NeverStopped }
        ensures agrees { (log : List Entry) → Agrees H.apply H.start self.old log → Agrees H.apply H.start self.new log }
    {
        let letter = LetterRef {
            to,
            from: self.here,
            tag,
            body: body.as_slice(),
        };
        hold(&mut self.sent, self.limits.letters, &mut self.held, letter)
    }

    /// Closes its batches: the next turns put them, though they might hold more letters. It takes no memory and never fails;
    /// its result is that of the other calls that send.
    pub fn flush(&mut self) -> Result<(), CommFault>
        requires going { self.old.stopped ≡ false }
        ensures closed { HasFlushed self.old self.new }
        ensures never_fails { IsOk result }
        ensures agrees { (log : List Entry) → Agrees H.apply H.start self.old log → Agrees H.apply H.start self.new log }
    {
        let Ok(()) = self.held.flush_all() else {
            unreachable!();
        };
        Ok(())
    }

    /// The number of ranks of its world.
    pub fn ranks(&self) -> u32
        ensures value { result ≡ self.now.layout.ranks }
        ensures some { 0 < result }
    {
        self.layout.ranks()
    }

    /// Its number, from 0.
    pub fn here(&self) -> u32
        ensures value { result ≡ self.now.here }
        ensures below { result < self.now.layout.ranks }
    {
        self.here
    }

    /// The number of letters that it has sent, by `send` and by its handler, whether they ran or not. Where the rank
    /// agrees with an honest log, this is the sum of what it has sent to each rank.
    pub fn sent_count(&self) -> u64
        ensures value { result ≡ self.now.sent_count }
        ensures within { result ≤ self.now.most }
        ensures bound { self.now.most ≤ most_letters }
        ensures sum { (log : List Entry) → Agrees H.apply H.start self.now log → IsHonest (local_of self.now log) →
            result ≡ sum_upto (λ to. length (sent_to self.now log to)) self.now.layout.ranks }
    {
        self.held.holds();
        self.sent.count()
    }

    /// The number of letters that ran here.
    pub fn run_count(&self) -> u64
        ensures { result ≡ self.now.run_count }
    {
        self.ran
    }

    /// Hands over the control letter that turns took first, of those that it hasn't handed over. Without one, it changes
    /// nothing. It takes no memory, and a stopped rank hands them over too.
    pub fn next_control(&mut self) -> Option<Control>
        ensures some { IfSome result (λ control.
            self.old ≡ record self.new { controls = letter_of_control control ∷ self.new.controls }) }
        ensures none { IsNone result → (self.old.controls ≡ []) × (self.new ≡ self.old) }
        ensures agrees { (log : List Entry) → Agrees H.apply H.start self.old log → Agrees H.apply H.start self.new log }
    {
        self.controls.pop_front()
    }

    /// Whether it has nothing to put and nothing to run: it holds no letter, of its own or to forward, and none waits to
    /// run. Only then may it put a Count.
    pub fn is_idle(&self) -> bool
        ensures idle { result ≡ true → IsIdle self.now }
        ensures busy { IsIdle self.now → result ≡ true }
    {
        self.held.is_empty() && self.waiting.count() == 0
    }

    /// Raises the stop, as a turn that failed does, so that the turns of the other ranks return `Stopped`. This rank is
    /// stopped at once. Every log is unchanged.
    pub fn halt<P: Post>(&mut self, post: &mut P)
        requires serves { IsTrue ((P.state post.old).serves self.old.here) }
        ensures stopped { self.new ≡ halted self.old }
        ensures raised { StopRaised self.old.here (P.state post.old) (P.state post.new) }
        ensures keeps { RaiseKeeps self.old.here (P.state post.old) (P.state post.new) }
        ensures logs { (rank : ℕ) → (P.state post.new).log rank ≡ (P.state post.old).log rank }
    {
        post.raise_stop(self.here);
        self.stopped = true;
    }

    /// What its handler keeps.
    pub fn contents(&self) -> &H
        ensures { result.now ≡ self.now.contents }
    {
        &self.handler
    }

    /// Whether a turn failed, or `halt` was called. A stopped rank takes no turn and sends nothing.
    pub fn is_stopped(&self) -> bool
        ensures { result ≡ self.now.stopped }
    {
        self.stopped
    }

    /// Returns its handler and its tap. It takes no memory.
    pub fn finish(self) -> Finished<H, T>
        ensures handler { result.handler ≡ self.contents }
        ensures tap { T.heard result.tap ≡ self.heard }
    {
        Finished {
            handler: self.handler,
            tap: self.tap,
        }
    }
}
