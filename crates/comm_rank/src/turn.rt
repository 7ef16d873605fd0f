//! A rank's turn: it runs what came, and puts what it holds into its links.
ghost use Rattle.std.specs.Prelude.{◌≡◌, ◌<◌, ◌≤◌, ◌+◌, [], ◌∷◌, ℕ, List, Err, true, false, is_err, length, map, take, IsTrue, IfOk, IfErr, OnOk, OnErr};
ghost use Rattle.std.specs.List.{AllByRecursion};
ghost use Rattle.msg_codec.specs.Control.{letter_of_control};
ghost use Rattle.world_core.specs.Limits.{most_arrived};
ghost use Rattle.world_core.specs.Pairs.{for_rank};
ghost use Rattle.send_buffers.specs.Buffers.{queued};
ghost use Rattle.comm_rank.specs.Agrees.{Belongs, MayTurn};
ghost use Rattle.comm_rank.specs.Fault.{IfCountFull, IfStopped, IsFullAt, NeverStopped, UnlessStopped};
ghost use Rattle.comm_rank.specs.declared.fault.CommFault.TheVariants.{Stopped};
ghost use Rattle.comm_rank.specs.Fold.{letter_by};
ghost use Rattle.comm_rank.specs.Held.{Gains};
ghost use Rattle.comm_rank.specs.Rank.{OnlyRan, Worked};
ghost use Rattle.comm_rank.specs.Store.{IsSameStore};
ghost use Rattle.comm_rank.specs.Running.{HasTakenAll, HasTakenFrom, IsControl, IsFirstFor, IsTaken, PassedFirst, PassedWaiting, StuckIn, TakesKeep, WasCutFrom, WorkKeeps, begins_with_control};
ghost use Rattle.comm_rank.specs.Turns.{HasEnded, HasFailed, HasHalted, KeepsPost, WasCut};

use crate::comm::hold;
use crate::waiting::Waiting;
use crate::{Comm, CommFault, Handler, Outgoing};
use msg_codec::{Batch, Control, Counter, control_of};
use send_buffers::Buffers;
use world_core::{DATA_TAGS, Post};
use ygm_taps::Tap;

/// What a turn did.
#[derive(Clone, Copy, Debug, PartialEq, Eq)]
pub struct Turn {
    /// How many batches it took.
    pub took: u32,
    /// How many batches it put, at most `u64::MAX`.
    pub put: u64,
    /// The lowest rank to which it found the link full.
    pub full: Option<u32>,
}

/// Counts and holds what a handler gave, in order. Where a letter is refused, those before it are counted and held.
fn send_out(
    here: u32,
    sent: &mut Counter,
    most: u64,
    held: &mut Buffers,
    out: &Outgoing,
) -> Result<(), CommFault>
    requires limit { sent.old.limit ≡ most }
    requires ranks { held.old.layout.ranks ≡ out.now.ranks }
    requires here { here < out.now.ranks }
    ensures held { OnOk result
        (Gains (queued held.old.queues) (queued held.new.queues) (map (letter_by here) out.now.letters)) }
    ensures counted { OnOk result (sent.new ≡ record sent.old { count = sent.old.count + length out.now.letters }) }
    ensures part { OnErr result ((k : ℕ) × (k < length out.now.letters)
        × Gains (queued held.old.queues) (queued held.new.queues) (take k (map (letter_by here) out.now.letters))
        × (sent.new ≡ record sent.old { count = sent.old.count + k })) }
    ensures same { IsSameStore held.old held.new }
    ensures cause { IfErr result (IsFullAt sent.new.count most) }
    ensures one_too_many { IfErr result (λ fault. IfCountFull fault (λ _. most < sent.old.count + length out.now.letters)) }
    ensures never_stopped { IfErr result NeverStopped }
{
    for k in 0..out.count() {
        hold(sent, most, held, out.letter(here, k))?;
    }
    Ok(())
}

/// The control in a batch that is one control letter.
fn control_in(batch: &Batch) -> Control
    requires control { IsControl batch.now }
    ensures { batch.now ≡ letter_of_control result ∷ [] }
{
    let Some(control) = control_of(batch.letter_at(0)) else {
        unreachable!();
    };
    control
}

/// Whether a batch begins with a control letter, which is alone in it where the batch broke no rule.
fn begins_with_control(batch: &Batch) -> bool
    ensures { result ≡ begins_with_control batch.now }
{
    batch.count() > 0 && batch.letter_at(0).tag >= DATA_TAGS
}

impl<H: Handler, T: Tap> Comm<H, T> {
    /// A turn. It looks whether the stop is raised. Then it takes at most one batch from each link, in the order of
    /// ranks. It runs the letters for this rank in order, gives each to the tap once it ran, and holds the others for
    /// their next hop; a control letter runs nowhere, and waits for `next_control`. Last it puts the closed batches, next
    /// hop by next hop, until none remains or the link is full.
    ///
    /// In a barrier, a rank that took no letter for itself since its last Count may take a turn only while it holds no
    /// letter of its own.
    ///
    /// Where the stop is raised, it returns `Stopped` and does nothing. Where a letter can't be taken, run, held or put,
    /// for lack of memory or because the handler gave a letter too many, this rank raises the stop. So it does where the
    /// tap has no memory for a letter that ran, which the tap then lacks. The letters that the rank took and that haven't
    /// run wait for ever; its control letters still wait for `next_control`. After either fault the rank is stopped.
    pub fn turn<P: Post>(&mut self, post: &mut P) -> Result<Turn, CommFault>
        requires going { self.old.stopped ≡ false }
        requires belongs { Belongs H.apply H.start self.old (P.state post.old) }
        requires may_turn { MayTurn self.old ((P.state post.old).log self.old.here) }
        ensures ended { IfOk result (HasEnded H.apply H.start self.old self.new (P.state post.old) (P.state post.new)) }
        ensures halted { IfErr result (λ fault. IfStopped fault
            (HasHalted self.old self.new (P.state post.old) (P.state post.new))) }
        ensures failed { IfErr result (λ fault. UnlessStopped fault
            (HasFailed H.apply self.old self.new (P.state post.old) (P.state post.new) fault)) }
        ensures sees_the_stop { (rank : ℕ) → IsTrue ((P.state post.old).serves rank) →
            (P.state post.old).raised rank ≡ true → result ≡ Err Stopped }
        ensures rank { Worked (record self.old { stopped = is_err result }) self.new }
        ensures post { KeepsPost self.old (P.state post.old) (P.state post.new) }
    {
        if post.stopped(self.here) {
            self.stopped = true;
            return Err(CommFault::Stopped);
        }
        let ended = self.work(post);
        if ended.is_err() {
            post.raise_stop(self.here);
            self.stopped = true;
        }
        ended
    }

    /// The turn itself, once no stop was seen.
    fn work<P: Post>(&mut self, post: &mut P) -> Result<Turn, CommFault>
        requires belongs { Belongs H.apply H.start self.old (P.state post.old) }
        requires may_turn { MayTurn self.old ((P.state post.old).log self.old.here) }
        ensures ended { IfOk result (HasEnded H.apply H.start self.old self.new (P.state post.old) (P.state post.new)) }
        ensures cut { IfErr result (WasCut H.apply self.old self.new
            ((P.state post.old).log self.old.here) ((P.state post.new).log self.old.here)) }
        ensures rank { Worked self.old self.new }
        ensures keeps { WorkKeeps self.old (P.state post.old) (P.state post.new) }
    {
        let took = self.take_all(post)?;
        let (put, full) = self.put_all(post)?;
        Ok(Turn { took, put, full })
    }

    /// Takes a batch from each link that isn't empty, and runs or holds its letters, or keeps its control letter. It
    /// returns how many it took.
    fn take_all<P: Post>(&mut self, post: &mut P) -> Result<u32, CommFault>
        requires belongs { Belongs H.apply H.start self.old (P.state post.old) }
        requires may_turn { MayTurn self.old ((P.state post.old).log self.old.here) }
        ensures took { IfOk result (HasTakenAll H.apply H.start self.old self.new (P.state post.old) (P.state post.new)) }
        ensures cut { IfErr result (WasCut H.apply self.old self.new
            ((P.state post.old).log self.old.here) ((P.state post.new).log self.old.here)) }
        ensures rank { Worked self.old self.new }
        ensures keeps { TakesKeep self.old (P.state post.old) (P.state post.new) }
    {
        let mut took = 0;
        for from in 0..self.ranks() {
            took += self.take_from(post, from)?;
        }
        Ok(took)
    }

    /// Takes a batch from the link of one rank, if it isn't empty, and runs or holds its letters, or keeps its control
    /// letter. It returns how many it took.
    fn take_from<P: Post>(&mut self, post: &mut P, from: u32) -> Result<u32, CommFault>
        requires belongs { Belongs H.apply H.start self.old (P.state post.old) }
        requires may_turn { MayTurn self.old ((P.state post.old).log self.old.here) }
        requires sender { from < self.old.layout.ranks }
        ensures took { IfOk result
            (HasTakenFrom from H.apply H.start self.old self.new (P.state post.old) (P.state post.new)) }
        ensures cut { IfErr result (WasCutFrom from H.apply self.old self.new
            ((P.state post.old).log self.old.here) ((P.state post.new).log self.old.here)) }
        ensures rank { Worked self.old self.new }
        ensures keeps { TakesKeep self.old (P.state post.old) (P.state post.new) }
    {
        self.held.holds();
        // A control letter that comes can be kept.
        self.controls.reserve(1)?;
        let Some(batch) = post.take(self.here, from) else {
            return Ok(0);
        };
        if begins_with_control(&batch) {
            self.controls.push_back_reserved(control_in(&batch));
            return Ok(1);
        }
        self.waiting = Waiting::of(batch);
        self.pass_waiting()?;
        Ok(1)
    }

    /// Runs or holds the letters that wait.
    fn pass_waiting(&mut self) -> Result<(), CommFault>
        requires taken { AllByRecursion (IsTaken self.old.layout.ranks self.old.here) self.old.waiting }
        requires few { self.old.run_count + length (for_rank self.old.here self.old.waiting) ≤ most_arrived }
        ensures passed { OnOk result (PassedWaiting H.apply self.old self.new) }
        ensures stuck { IfErr result (StuckIn H.apply self.old self.new self.old.waiting) }
        ensures rank { OnlyRan self.old self.new }
    {
        for _ in 0..self.waiting.count() {
            self.pass_first()?;
        }
        Ok(())
    }

    /// Runs the letter that waits first where it is for this rank, and otherwise holds it for its next hop.
    fn pass_first(&mut self) -> Result<(), CommFault>
        requires some { 0 < length self.old.waiting }
        requires taken { AllByRecursion (IsTaken self.old.layout.ranks self.old.here) self.old.waiting }
        requires few { self.old.run_count + length (for_rank self.old.here self.old.waiting) ≤ most_arrived }
        ensures passed { OnOk result (PassedFirst H.apply self.old self.new) }
        ensures stuck { IfErr result (StuckIn H.apply self.old self.new self.old.waiting) }
        ensures rank { OnlyRan self.old self.new }
    {
        self.held.holds();
        let letter = self.waiting.first();
        if letter.to == self.here {
            return self.run_first();
        }
        self.held.add(letter)?;
        self.waiting.drop_first();
        Ok(())
    }

    /// Runs the letter that waits first, and gives it to the tap. Where the handler refuses it, the rank is unchanged.
    /// Where one of the letters that the handler gave can't be sent, those before it are, and the letter that ran still
    /// waits. Where the tap refuses it, it ran and is counted.
    fn run_first(&mut self) -> Result<(), CommFault>
        requires some { 0 < length self.old.waiting }
        requires for_here { IsFirstFor self.old.here self.old.waiting }
        requires few { self.old.run_count < most_arrived }
        ensures passed { OnOk result (PassedFirst H.apply self.old self.new) }
        ensures stuck { IfErr result (StuckIn H.apply self.old self.new self.old.waiting) }
        ensures rank { OnlyRan self.old self.new }
    {
        let letter = self.waiting.first();
        self.handler.run(self.here, letter, &mut self.out)?;
        let most = self.limits.letters;
        let sent = send_out(self.here, &mut self.sent, most, &mut self.held, &self.out);
        self.out.cut(0);
        sent?;
        self.ran += 1;
        let told = self.tap.ran(letter.from, letter.tag, letter.body);
        self.waiting.drop_first();
        told?;
        Ok(())
    }
}
