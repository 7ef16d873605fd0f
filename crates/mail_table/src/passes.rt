//! How the passes of a table are made, and how they are joined.
ghost use Rattle.std.specs.Prelude.{◌≡◌, ◌<◌, ◌+◌, [], ◌∷◌, IfOk, OnOk};
ghost use Rattle.world_core.specs.Modest.{IsWorld};
ghost use Rattle.mail_table.specs.Seats.{AreFreshPasses, HasLogs, IsOf, dealing, state_of_links};
ghost use Rattle.mail_table.specs.Steps.{LearnsAll};
ghost use Rattle.mail_table.specs.Rule.{world_in};
ghost use Rattle.mail_table.specs.Table.{AreAllPasses, fresh_pass, logs_in, world_of};
ghost use Rattle.mail_table.specs.Views.{fresh_view, mine};

use crate::links::{Links, Mail};
use crate::pass::Pass;
use crate::plays::{Deal, Gather, Learn};
use std::alloc::{AllocError, Global};

/// The pass of the next rank, from the seat that has it and those after it.
fn next_pass(alloc: Global, links: &Links, others: &mut Mail, rank: u32) -> Result<Pass, AllocError>
    requires table { others.old.table_id ≡ links.now.table.shared.table_id }
    requires others { others.old.me ≡ (dealing links.now.settings rank, []) }
    requires rank { rank < links.now.settings.layout.ranks }
    ensures pass { IfOk result (λ pass. pass ≡ fresh_pass (state_of_links links.now.table.shared.table_id links.now.settings) rank) }
    ensures table { OnOk result (others.new.table_id ≡ others.old.table_id) }
    ensures others { OnOk result (others.new.me ≡ (dealing links.now.settings (rank + 1), [])) }
{
    let ranks = links.settings.layout.ranks() as usize;
    let puts = Vec::from_elem(alloc, 0, ranks)?;
    let takes = Vec::from_elem(alloc, 0, ranks)?;
    let seat = links.table.shared.split_seat::<Deal>(others);
    Ok(Pass {
        rank,
        puts,
        takes,
        seat,
    })
}

/// A pass for each rank, in their order.
pub fn all_passes(alloc: Global, links: &Links, mut others: Mail) -> Result<Vec<Pass>, AllocError>
    requires table { others.table_id ≡ links.now.table.shared.table_id }
    requires all { others.me ≡ (fresh_view links.now.settings, []) }
    ensures { IfOk result (λ passes. AreFreshPasses (state_of_links links.now.table.shared.table_id links.now.settings) links.now.settings.layout.ranks passes.items) }
{
    let mut passes = Vec::new(alloc);
    for rank in 0..links.settings.layout.ranks() {
        passes.push(next_pass(alloc, links, &mut others, rank)?)?;
    }
    Ok(passes)
}

/// The seat of a pass.
fn seat_of(pass: Pass) -> Mail
    ensures table { result.table_id ≡ pass.table }
    ensures has { HasLogs pass.settings pass.rank (pass.log ∷ []) result.me }
{
    let Pass {
        rank: _,
        puts: _,
        takes: _,
        seat,
    } = pass;
    seat
}

/// One seat of all passes. They are joined from the last to the first.
fn gathered(links: &Links, mut passes: Vec<Pass>) -> Mail
    requires { AreAllPasses (state_of_links links.now.table.shared.table_id links.now.settings) passes.items }
    ensures table { result.table_id ≡ links.now.table.shared.table_id }
    ensures has { HasLogs links.now.settings 0 (logs_in passes.items) result.me }
{
    let Some(last) = passes.pop() else {
        unreachable!()
    };
    let mut all = seat_of(last);
    while let Some(pass) = passes.pop() {
        let mut seat = seat_of(pass);
        links.table.shared.join_seat::<Gather>(&mut seat, all);
        all = seat;
    }
    all
}

/// One seat of all passes, which knows that their logs are those of a sound world.
pub fn joined(links: &Links, passes: Vec<Pass>) -> Mail
    requires { AreAllPasses (state_of_links links.now.table.shared.table_id links.now.settings) passes.items }
    ensures logs { world_in result.me.0.settings result.me.0.ranks ≡ world_of (state_of_links links.now.table.shared.table_id links.now.settings) passes.items }
    ensures sound { IsWorld (world_in result.me.0.settings result.me.0.ranks) }
{
    let mut seat = gathered(links, passes);
    links.table.shared.load::<Learn>(&mut seat, 0);
    seat
}
