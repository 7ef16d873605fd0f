//! What a rank keeps for its job.
ghost use Rattle.std.specs.Prelude.{◌≡◌, ◌<◌, IfOk};
ghost use Rattle.ygm_jobs.specs.Jobs.{job_of};

use crate::JobKind;
use bag_set::{Bag, Set};
use comm_rank::{Handler, Outgoing};
use counting_set::Counting;
use msg_codec::LetterRef;
use std::alloc::{AllocError, Global};
use ygm_route::Layout;

/// What a rank keeps for its job: its shard of the job's container. It runs the letters of that container, and no others.
#[derive(Drop)]
pub enum JobShard {
    /// The distinct lines that the rank owns, with their counts.
    Tally(Counting),
    /// The distinct lines that the rank owns.
    Distinct(Set),
    /// The lines that the rank got.
    Balance(Bag),
}

impl JobShard {
    /// What rank `here` keeps at first. It takes memory from `alloc` as letters run.
    pub fn new(
        alloc: Global,
        kind: &JobKind,
        layout: Layout,
        here: u32,
    ) -> Result<JobShard, AllocError>
        requires { here < layout.ranks }
        ensures { IfOk result (λ shard. shard ≡ (job_of kind.now).start layout.ranks here) }
    {
        Ok(match kind {
            JobKind::Tally => JobShard::Tally(Counting::new(alloc)?),
            JobKind::Distinct => JobShard::Distinct(Set::new(alloc)?),
            JobKind::Balance => JobShard::Balance(Bag::new(alloc)?),
        })
    }
}

impl Handler for JobShard {
    ghost use Rattle.ygm_jobs.specs.Shards.{shard_apply, shard_keeps_start, shard_start};

    ghost apply = { shard_apply };

    ghost start = { shard_start };

    fn run(
        &mut self,
        here: u32,
        letter: LetterRef<'_>,
        out: &mut Outgoing,
    ) -> Result<(), AllocError> {
        match self {
            JobShard::Tally(counts) => counts.run(here, letter, out),
            JobShard::Distinct(items) => items.run(here, letter, out),
            JobShard::Balance(items) => items.run(here, letter, out),
        }
    }

    ghost keeps_start = { shard_keeps_start };
}
