//! The job `tally` of one rank, turn by turn.
ghost use Rattle.std.specs.Prelude.{◌≡◌, List, [], true, false, IfOk, IfErr, OnOk};
ghost use Rattle.std.specs.Option.{option_copied_mut};
ghost use Rattle.ygm_io.specs.Content.{ExposedBytes};
ghost use Rattle.world_core.specs.declared.entry.Entry.{Entry};
ghost use Rattle.comm_rank.specs.Agrees.{Agrees};
ghost use Rattle.comm_rank.specs.Fault.{IfCountFull, NeverStopped};
ghost use Rattle.comm_rank.specs.Rank.{IsSameRank};
ghost use Rattle.comm_rank.specs.Turns.{KeepsPost};
ghost use Rattle.term_barrier.specs.Polls.{Stands};
ghost use Rattle.counting_set.specs.Counting.{counting_apply};
ghost use Rattle.ygm_run.specs.Inputs.{IsRest};
ghost use Rattle.ygm_run.specs.RankJobs.{FullAtLine, HasGoneOn, HasPolledOnce, HasReadOn, InJob, JobState, JobTurned, KeepsJob, fresh_job, left_in, source_after};

use crate::status::InputFault;
use comm_rank::{Comm, CommFault};
use counting_set::{Counting, count_insert};
use line_input::{Got, LineFault, LineReader, LineWhy};
use std::alloc::{AllocError, Global};
use std::marker::Model;
use term_barrier::{Barrier, Polled};
use world_core::Post;
use ygm_io::Source;
use ygm_taps::Tap;

/// What a turn of a job came to.
#[derive(Clone, Copy, Debug, PartialEq, Eq)]
pub(crate) enum Step {
    /// The job goes on.
    Going,
    /// The rank left the job's barrier.
    Finished,
}

/// The job of one rank. It reads the rank's file and sends a letter for each line to the rank that owns the line. At the
/// file's end, or at its first fault, it enters a barrier, and it is finished once it has left that.
#[derive(Drop)]
pub(crate) struct Job {
    alloc: Global,
    reader: LineReader,
    fault: Option<InputFault>,
}

impl Model for Job {
    ghost use Rattle.ygm_run.specs.RankJobs.{JobState};

    ghost Value = { JobState };

    ghost view = { λ job. record { reader = job.reader; fault = job.fault } };
}

impl Job {
    /// A job that has read nothing.
    pub(crate) fn new(alloc: Global) -> Result<Job, AllocError>
        ensures { IfOk result (λ job. job ≡ fresh_job) }
    {
        Ok(Job {
            alloc,
            reader: LineReader::new(alloc)?,
            fault: None,
        })
    }

    /// The fault of the rank's input, if it met one. The rank reads no further after it.
    pub(crate) fn input_fault(&self) -> Option<InputFault>
        ensures { result ≡ self.now.fault }
    {
        self.fault
    }

    /// A turn: the reader's, whose line is sent, and then the rank's; or inside the barrier a poll. A rank without a file
    /// has nothing to read.
    ///
    /// It fails as `Comm::turn` and `Comm::send` do, and with `NoMemory` where the reader has none.
    pub(crate) fn turn<T: Tap, S: Source, P: Post>(
        &mut self,
        comm: &mut Comm<Counting, T>,
        barrier: &mut Barrier,
        post: &mut P,
        src: Option<&mut S>,
    ) -> Result<Step, CommFault>
        requires in_job { (content : ExposedBytes) × InJob S.left S.faults content self.old comm.old barrier.old (P.state post.old) (option_copied_mut src) }
        ensures turned { (content : ExposedBytes) → InJob S.left S.faults content self.old comm.old barrier.old (P.state post.old) (option_copied_mut src.entry)
            → JobTurned S.left S.faults content result self.new comm.new barrier.new (P.state post.new) (source_after src.exit) }
        ensures same_rank { IsSameRank comm.old comm.new }
        ensures post { KeepsPost comm.old (P.state post.old) (P.state post.new) }
        ensures rest { IsRest (left_in S.left (option_copied_mut src.entry)) (left_in S.left (source_after src.exit)) }
    {
        if barrier.inside() {
            return wait(comm, barrier, post);
        }
        let Some(source) = src else {
            return go_on(comm, barrier, post, true);
        };
        self.read_on(comm, source)?;
        go_on(comm, barrier, post, self.reader.done())
    }

    // A turn of the reader. The line that it returns is sent to its owner.
    fn read_on<T: Tap, S: Source>(
        &mut self,
        comm: &mut Comm<Counting, T>,
        source: &mut S,
    ) -> Result<(), CommFault>
        requires open { self.old.reader.done ≡ false }
        requires going { comm.old.stopped ≡ false }
        ensures read { OnOk result (HasReadOn self.old self.new comm.old comm.new (S.left source.old) (S.left source.new) (S.faults source.old) (S.faults source.new)) }
        ensures full { IfErr result (λ fault. IfCountFull fault (FullAtLine comm.old self.old.reader (S.left source.old))) }
        ensures never_stopped { IfErr result NeverStopped }
        ensures agrees { (log : List Entry) → Agrees counting_apply (λ _. []) comm.old log → Agrees counting_apply (λ _. []) comm.new log }
        ensures same_rank { IsSameRank comm.old comm.new }
        ensures rest { IsRest (S.left source.old) (S.left source.new) }
    {
        match self.reader.turn(source) {
            Ok(Got::Line(line)) => count_insert(self.alloc, comm, line.as_slice())?,
            Ok(Got::More) => {}
            Ok(Got::End) => {}
            Err(LineFault::ReadFault) => self.fault = Some(InputFault::Read),
            Err(LineFault::LineTooLong { line }) => {
                self.fault = Some(InputFault::Bad {
                    line,
                    why: LineWhy::TooLong,
                });
            }
            Err(LineFault::NoMemory) => return Err(CommFault::NoMemory),
        }
        Ok(())
    }
}

// A turn outside the job's barrier, which the rank enters first where its reading has ended. No count of letters stops the
// turn, since counting sends none.
fn go_on<T: Tap, P: Post>(
    comm: &mut Comm<Counting, T>,
    barrier: &mut Barrier,
    post: &mut P,
    ended: bool,
) -> Result<Step, CommFault>
    requires going { comm.old.stopped ≡ false }
    requires stands { Stands counting_apply (λ _. []) barrier.old comm.old (P.state post.old) }
    requires outside { barrier.old.inside ≡ false }
    ensures kept { (content : ExposedBytes) (job : JobState) (left : ExposedBytes) → KeepsJob content job comm.old barrier.old (P.state post.old) left
        → OnOk result (KeepsJob content job comm.new barrier.new (P.state post.new) left) }
    ensures step { IfOk result (λ step. HasGoneOn ended step barrier.old barrier.new comm.new) }
    ensures never_full { IfErr result (λ fault. IfCountFull fault (λ _. ⊥)) }
    ensures same_rank { IsSameRank comm.old comm.new }
    ensures post { KeepsPost comm.old (P.state post.old) (P.state post.new) }
{
    if ended {
        barrier.enter(comm);
    }
    comm.turn(post)?;
    Ok(Step::Going)
}

// A poll of the job's barrier, which no count of letters stops, since counting sends none.
fn wait<T: Tap, P: Post>(
    comm: &mut Comm<Counting, T>,
    barrier: &mut Barrier,
    post: &mut P,
) -> Result<Step, CommFault>
    requires going { comm.old.stopped ≡ false }
    requires stands { Stands counting_apply (λ _. []) barrier.old comm.old (P.state post.old) }
    requires inside { barrier.old.inside ≡ true }
    ensures kept { (content : ExposedBytes) (job : JobState) (left : ExposedBytes) → KeepsJob content job comm.old barrier.old (P.state post.old) left
        → OnOk result (KeepsJob content job comm.new barrier.new (P.state post.new) left) }
    ensures step { IfOk result (λ step. HasPolledOnce step barrier.old barrier.new comm.new) }
    ensures never_full { IfErr result (λ fault. IfCountFull fault (λ _. ⊥)) }
    ensures same_rank { IsSameRank comm.old comm.new }
    ensures post { KeepsPost comm.old (P.state post.old) (P.state post.new) }
{
    match barrier.poll(comm, post)? {
        Polled::Left { .. } => Ok(Step::Finished),
        Polled::Waiting(_) => Ok(Step::Going),
    }
}
