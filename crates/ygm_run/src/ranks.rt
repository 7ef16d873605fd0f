//! The jobs of all ranks on one thread, over links between them.
ghost use Rattle.std.specs.Prelude.{◌≡◌, ◌<◌, ◌≤◌, ℕ, List, Some, None, true, length, map, slice_get, IfOk, IfErr, OnOk, IfNone, IfSome, IsSome, IsTrue};
ghost use Rattle.std.specs.Option.{option_copied_mut};
ghost use Rattle.ygm_io.specs.Content.{ExposedBytes};
ghost use Rattle.ygm_route.specs.Layout.{Shape, max_ranks};
ghost use Rattle.world_core.specs.Post.{PostState, SamePost};
ghost use Rattle.send_buffers.specs.Limits.{max_buffer, min_buffer};
ghost use Rattle.comm_rank.specs.Rank.{IsSameRank};
ghost use Rattle.ygm_run.specs.BadLines.{tally_wrong};
ghost use Rattle.ygm_run.specs.Inputs.{AreRests, IsRest};
ghost use Rattle.ygm_run.specs.JobEnds.{HasRun, JobStops};
ghost use Rattle.ygm_run.specs.RankJobs.{InJob, left_in, source_after};
ghost use Rattle.ygm_run.specs.RankRuns.{AllWell, AreFresh, AreRuns, EndsBy, IsByEnd, IsFreshRun, IsLowestInput, IsStop, NoFaults, NoneStopped, ended_by};

use crate::job::{Job, Step};
use crate::run_job::JobFault;
use crate::status::InputFault;
use comm_rank::{Comm, CommFault};
use counting_set::Counting;
use std::alloc::{AllocError, Global};
use std::sync::Wait;
use term_barrier::Barrier;
use world_core::{Limits, PlainLinks, Post};
use ygm_io::{CalmSource, Source};
use ygm_route::{Layout, Scheme};
use ygm_taps::QuietTap;

/// How many batches a link holds.
const RING: u32 = 4;

/// The job of one rank, with the rank and its barrier.
#[derive(Drop)]
pub(crate) struct RankRun {
    pub(crate) job: Job,
    pub(crate) comm: Comm<Counting, QuietTap>,
    pub(crate) barrier: Barrier,
    /// How the job ended, if it has: it finished, or this fault stopped it.
    pub(crate) ended: Option<Result<(), CommFault>>,
}

impl RankRun {
    fn new(
        alloc: Global,
        layout: Layout,
        scheme: Scheme,
        here: u32,
        buffer: u32,
    ) -> Result<RankRun, AllocError>
        requires below { here < layout.ranks }
        requires least { min_buffer ≤ buffer }
        requires greatest { buffer ≤ max_buffer }
        ensures fresh { IfOk result (IsFreshRun layout scheme here) }
    {
        let Ok(comm) = Comm::new(
            alloc,
            layout,
            scheme,
            here,
            buffer,
            Limits::FULL,
            Counting::new(alloc)?,
            QuietTap,
        ) else {
            return Err(AllocError);
        };
        Ok(RankRun {
            job: Job::new(alloc)?,
            comm,
            barrier: Barrier::new(alloc, layout, here, Limits::FULL)?,
            ended: None,
        })
    }

    // A turn of the job, over the rank's source, if it has one.
    fn turn<S: Source, P: Post>(&mut self, post: &mut P, src: Option<&mut S>)
        requires going { self.old.ended ≡ None }
        requires in_job { (content : ExposedBytes) × InJob S.left S.faults content self.old.job self.old.comm self.old.barrier (P.state post.old) (option_copied_mut src) }
        ensures turned { (content : ExposedBytes) → InJob S.left S.faults content self.old.job self.old.comm self.old.barrier (P.state post.old) (option_copied_mut src.entry)
            → IsByEnd S.left S.faults content self.new.ended self.new.job self.new.comm self.new.barrier (P.state post.new) (source_after src.exit) }
        ensures same_rank { IsSameRank self.old.comm self.new.comm }
        ensures post { SamePost self.old.comm.here (P.state post.old) (P.state post.new) }
        ensures rest { IsRest (left_in S.left (option_copied_mut src.entry)) (left_in S.left (source_after src.exit)) }
    {
        match src {
            Some(source) => {
                let turned = self
                    .job
                    .turn(&mut self.comm, &mut self.barrier, post, Some(source));
                self.take_in(post, turned);
            }
            // Where there is no source, its type doesn't matter.
            None => {
                let nothing = None::<&mut CalmSource>;
                let turned = self
                    .job
                    .turn(&mut self.comm, &mut self.barrier, post, nothing);
                self.take_in(post, turned);
            }
        }
    }

    // Takes in what a turn of the job came to. After a fault the rank is halted, so that the others stop too.
    fn take_in<P: Post>(&mut self, post: &mut P, turned: Result<Step, CommFault>)
        requires serves { IsTrue ((P.state post.old).serves self.old.comm.here) }
        ensures ended { self.new ≡ record self.old { comm = self.new.comm; ended = ended_by self.old.ended turned } }
        ensures unchanged { OnOk turned ((self.new.comm ≡ self.old.comm) × (P.state post.new ≡ P.state post.old)) }
        ensures same_rank { IsSameRank self.old.comm self.new.comm }
        ensures post { SamePost self.old.comm.here (P.state post.old) (P.state post.new) }
    {
        match turned {
            Ok(Step::Going) => {}
            Ok(Step::Finished) => self.ended = Some(Ok(())),
            Err(fault) => {
                if !self.comm.is_stopped() {
                    self.comm.halt(post);
                }
                self.ended = Some(Err(fault));
            }
        }
    }
}

/// The jobs of all ranks, and the links between the ranks.
#[derive(Drop)]
pub(crate) struct Ranks {
    pub(crate) runs: Vec<RankRun>,
    pub(crate) links: PlainLinks,
}

impl Ranks {
    /// Jobs that have read nothing, over empty links. The ranks gather letters into batches of at most `buffer` bytes, or
    /// of one letter.
    pub(crate) fn new(
        alloc: Global,
        layout: Layout,
        scheme: Scheme,
        buffer: u32,
    ) -> Result<Ranks, AllocError>
        requires least { min_buffer ≤ buffer }
        requires greatest { buffer ≤ max_buffer }
        ensures fresh { IfOk result (λ ranks. AreFresh layout ranks.runs.items ranks.links) }
    {
        let mut runs = Vec::new(alloc);
        for here in 0..layout.ranks() {
            runs.push(RankRun::new(alloc, layout, scheme, here, buffer)?)?;
        }
        Ok(Ranks {
            runs,
            links: PlainLinks::new(alloc, layout, scheme, RING, Limits::FULL)?,
        })
    }

    /// Runs the jobs over the sources, of which nothing was read yet. The source of a rank is that of its number.
    pub(crate) fn run<R: Wait, S: Source>(
        mut self,
        rt: &R,
        alloc: Global,
        sources: &mut [S],
    ) -> Result<Vec<Counting>, JobFault>
        requires new { (layout : Shape) × AreFresh layout self.runs.items self.links }
        requires few { length sources.old ≤ length self.runs.items }
        requires fresh { (rank : ℕ) (source : S) → slice_get sources.old rank ≡ Some source → S.faults source ≡ 0 }
        ensures ran { IfOk result (λ shards. HasRun S.left S.faults (length self.runs.items) sources.old sources.new shards.items) }
        ensures stopped { IfErr result
            (JobStops tally_wrong S.left S.faults (length self.runs.items) (map S.left sources.old) sources.new) }
        ensures rests { AreRests S.left (map S.left sources.old) sources.new }
        ensures all { length sources.new ≡ length sources.old }
    {
        self.run_all(rt, sources);
        let _ = self.links.world();
        self.outcome(alloc)
    }

    // Gives the ranks turns, round by round, until the jobs of all have ended.
    fn run_all<R: Wait, S: Source>(&mut self, rt: &R, sources: &mut [S])
        requires runs { (layout : Shape) × (start : List S) × AreRuns S.left S.faults layout start self.old.runs.items self.old.links sources.old }
        ensures runs { (layout : Shape) (start : List S) → AreRuns S.left S.faults layout start self.old.runs.items self.old.links sources.old
            → AreRuns S.left S.faults layout start self.new.runs.items self.new.links sources.new }
        ensures ended { (rank : ℕ) (run : RankRun) → slice_get self.new.runs.items rank ≡ Some run → IsSome run.ended }
        ensures rests { AreRests S.left (map S.left sources.old) sources.new }
        ensures same_sources { length sources.new ≡ length sources.old }
    {
        for _ in rt.forever() {
            if self.have_ended() {
                return;
            }
            self.round(sources);
        }
    }

    // Whether the jobs of all ranks have ended.
    fn have_ended(&self) -> bool
        ensures all { result ≡ true → (rank : ℕ) (run : RankRun) → slice_get self.now.runs.items rank ≡ Some run → IsSome run.ended }
    {
        self.runs.iter().all(|run| run.ended.is_some())
    }

    // Gives each rank whose job goes on a turn, in the order of ranks.
    fn round<S: Source>(&mut self, sources: &mut [S])
        requires runs { (layout : Shape) × (start : List S) × AreRuns S.left S.faults layout start self.old.runs.items self.old.links sources.old }
        ensures runs { (layout : Shape) (start : List S) → AreRuns S.left S.faults layout start self.old.runs.items self.old.links sources.old
            → AreRuns S.left S.faults layout start self.new.runs.items self.new.links sources.new }
        ensures rests { AreRests S.left (map S.left sources.old) sources.new }
        ensures same_sources { length sources.new ≡ length sources.old }
    {
        for rank in 0..self.runs.len() {
            if self.runs[rank].ended.is_some() {
                continue;
            }
            if rank < sources.len() {
                self.runs[rank].turn(&mut self.links, Some(&mut sources[rank]));
            } else {
                self.runs[rank].turn(&mut self.links, None::<&mut CalmSource>);
            }
        }
    }

    // Why ranks stopped, if one did: the lowest whose count is full, or else lack of memory. A rank that met the stop was
    // stopped by another.
    fn stop(&self) -> Option<JobFault>
        requires few { length self.now.runs.items ≤ max_ranks }
        ensures stopped { IfSome result (IsStop self.now.runs.items) }
        ensures none { IfNone result (NoneStopped self.now.runs.items) }
    {
        let mut stop = None;
        for (rank, run) in self.runs.iter().enumerate() {
            match run.ended {
                Some(Err(CommFault::CountFull(at))) => {
                    return Some(JobFault::CountFull {
                        rank: rank as u32,
                        at,
                    });
                }
                Some(Err(_)) => stop = Some(JobFault::NoMemory),
                Some(Ok(())) => {}
                None => {}
            }
        }
        stop
    }

    // The fault of the lowest rank whose input has one, with the rank.
    fn input_fault(&self) -> Option<(u32, InputFault)>
        requires few { length self.now.runs.items ≤ max_ranks }
        ensures lowest { IfSome result (λ found. IsLowestInput self.now.runs.items found.0 found.1) }
        ensures none { IfNone result (NoFaults self.now.runs.items) }
    {
        for (rank, run) in self.runs.iter().enumerate() {
            if let Some(fault) = run.job.input_fault() {
                return Some((rank as u32, fault));
            }
        }
        None
    }

    // What each rank keeps, in the order of ranks.
    fn into_shards(self, alloc: Global) -> Result<Vec<Counting>, AllocError>
        ensures { IfOk result (λ shards. shards.items ≡ map (λ (run : RankRun). run.comm.contents) self.runs.items) }
    {
        self.runs
            .into_iter()
            .map(|run| run.comm.finish().handler)
            .collect(alloc)
    }

    // What the jobs came to, once all have ended: what each rank keeps; or a rank that stopped, before any fault of an input;
    // or the fault of the lowest rank whose input has one.
    fn outcome(self, alloc: Global) -> Result<Vec<Counting>, JobFault>
        requires few { length self.runs.items ≤ max_ranks }
        ensures ok { IfOk result (λ shards. AllWell self.runs.items shards.items) }
        ensures fault { IfErr result (EndsBy self.runs.items) }
    {
        if let Some(fault) = self.stop() {
            return Err(fault);
        }
        if let Some((rank, fault)) = self.input_fault() {
            return Err(JobFault::of_input(rank, fault));
        }
        Ok(self.into_shards(alloc)?)
    }
}
