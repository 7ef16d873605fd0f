//! A job over the files of all ranks.
ghost use Rattle.std.specs.Prelude.{◌≡◌, ◌≤◌, ℕ, Some, length, map, slice_get, IfErr, IfOk};
ghost use Rattle.send_buffers.specs.Limits.{max_buffer, min_buffer};
ghost use Rattle.ygm_run.specs.BadLines.{tally_wrong};
ghost use Rattle.ygm_run.specs.Inputs.{AreRests};
ghost use Rattle.ygm_run.specs.JobEnds.{HasRun, JobStops, fault_of};

use crate::ranks::Ranks;
use crate::status::InputFault;
use counting_set::Counting;
use line_input::LineWhy;
use msg_codec::AtLimit;
use std::alloc::{AllocError, Global};
use std::sync::Wait;
use ygm_io::Source;
use ygm_route::{Layout, Scheme};

/// Which job.
#[derive(Clone, Copy, Debug, PartialEq, Eq)]
pub enum JobKind {
    /// How often each line occurs in the files.
    Tally,
}

/// Which job, and the world of ranks that it runs in.
#[derive(Clone, Copy, Debug)]
pub struct Settings {
    pub kind: JobKind,
    pub layout: Layout,
    pub scheme: Scheme,
    /// The most bytes of a batch of letters. A batch of one letter may have more.
    pub buffer: u32,
}

/// Why a job has no shards. A full count comes before the fault of an input, since a rank that stops leaves files unread.
#[derive(Clone, Copy, Debug, PartialEq, Eq)]
pub enum JobFault {
    /// The rank had sent as many letters as it may, and was to send one more.
    CountFull { rank: u32, at: AtLimit },
    /// A read of the rank's file failed. No rank below has a fault.
    Read { rank: u32 },
    /// The first bad line, counted from 1, of the rank's file. No rank below has a fault.
    Bad { rank: u32, line: u64, why: LineWhy },
    /// Memory ran out.
    NoMemory,
}

impl From<AllocError> for JobFault {
    ghost use Rattle.std.specs.Prelude.{◌≡◌};
    ghost use Rattle.ygm_run.specs.declared.run_job.JobFault.TheVariants.{NoMemory};

    ghost from_gives = { λ _ e. e ≡ NoMemory };

    fn from(_: AllocError) -> Self {
        JobFault::NoMemory
    }
}

impl JobFault {
    // The fault of a rank's input as one of the job.
    pub(crate) fn of_input(rank: u32, fault: InputFault) -> JobFault
        ensures { result ≡ fault_of rank fault }
    {
        match fault {
            InputFault::Read => JobFault::Read { rank },
            InputFault::Bad { line, why } => JobFault::Bad { rank, line, why },
        }
    }
}

/// A job that ended: what each rank keeps, in the order of ranks, or why there is nothing, and the sources.
#[derive(Drop)]
pub struct Ran<S> {
    pub outcome: Result<Vec<Counting>, JobFault>,
    pub sources: Vec<S>,
}

/// Runs the job over the sources: rank k reads source k, and a rank without one reads nothing. All ranks run on this thread,
/// one turn after another, until each has left the job's barrier.
///
/// A rank whose input fails reads no further and passes the barrier all the same. A rank that stops, at a full count or
/// without memory, stops the others, and there may be more to read of each source.
pub fn run_job<R: Wait, S: Source>(
    rt: &R,
    alloc: Global,
    settings: &Settings,
    sources: Vec<S>,
) -> Ran<S>
    requires few { length sources.items ≤ settings.now.layout.ranks }
    requires least { min_buffer ≤ settings.now.buffer }
    requires greatest { settings.now.buffer ≤ max_buffer }
    requires fresh { (rank : ℕ) (source : S) → slice_get sources.items rank ≡ Some source → S.faults source ≡ 0 }
    ensures ran { IfOk result.outcome (λ shards.
        HasRun S.left S.faults settings.now.layout.ranks sources.items result.sources.items shards.items) }
    ensures stopped { IfErr result.outcome
        (JobStops tally_wrong S.left S.faults settings.now.layout.ranks (map S.left sources.items) result.sources.items) }
    ensures rests { AreRests S.left (map S.left sources.items) result.sources.items }
    ensures all { length result.sources.items ≡ length sources.items }
{
    let mut sources = sources;
    let outcome = match Ranks::new(alloc, settings.layout, settings.scheme, settings.buffer) {
        Ok(ranks) => ranks.run(rt, alloc, &mut sources),
        Err(_) => Err(JobFault::NoMemory),
    };
    Ran { outcome, sources }
}
