use super::*;
use shard_rig::{LoneShard, RigFault};
use std::alloc::Global;
use std::test::*;
use ygm_route::Layout;

// How many items a shard keeps.
fn kept_by(shard: &JobShard) -> u64 {
    match shard {
        JobShard::Tally(counts) => counts.len_here(),
        JobShard::Distinct(items) => items.count_here(),
        JobShard::Balance(items) => items.count_here(),
    }
}

// How many items a new shard keeps once a letter of each container, with the item `x`, ran there.
fn kept_after_all(alloc: Global, kind: JobKind) -> Result<u64, RigFault> {
    let layout = Layout::new(1, 1)?;
    let mut lone = LoneShard::new(alloc, JobShard::new(alloc, &kind, layout, 0)?)?;
    lone.run(1, &[1, 0, 0, 0, b'x', 1, 0, 0, 0, 0, 0, 0, 0])?;
    lone.run(2, &[1, 0, 0, 0, b'x'])?;
    lone.run(3, &[1, 0, 0, 0, b'x'])?;
    Ok(kept_by(lone.shard()))
}

#[test]
fn a_shard_runs_the_letters_of_its_job_alone(rt: HostRuntime) -> Result<(), Fail> {
    let alloc = rt.alloc();
    let kept = [
        kept_after_all(alloc, JobKind::Tally)?,
        kept_after_all(alloc, JobKind::Distinct)?,
        kept_after_all(alloc, JobKind::Balance)?,
    ];
    assert_eq!(rt; kept, [1, 1, 1]);
    Ok(())
}
