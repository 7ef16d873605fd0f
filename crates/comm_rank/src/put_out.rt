//! A rank puts the letters that it holds into its links.
ghost use Rattle.std.specs.Prelude.{◌≡◌, ◌<◌, ◌≤◌, ℕ, length, IfErr, IfOk};
ghost use Rattle.send_buffers.specs.Buffers.{queue_at};
ghost use Rattle.world_core.specs.Rules.{IsHonest};
ghost use Rattle.comm_rank.specs.Agrees.{Belongs, MayTurn};
ghost use Rattle.comm_rank.specs.Moves.{HasPutAll, HasPutEach, HasPutFirst, HasPutTo, MayPut, OthersUnchanged, PutAllFailed, PutsFailed};
ghost use Rattle.comm_rank.specs.Rank.{local_of};
ghost use Rattle.comm_rank.specs.Turns.{PutsKeep};

use crate::{Comm, CommFault, Handler};
use send_buffers::Buffers;
use world_core::{Post, PutBack};
use ygm_taps::Tap;

/// What a turn put for one next hop: how many batches, and whether the link was full.
#[derive(Clone, Copy)]
struct Placed {
    put: u64,
    full: bool,
}

/// Puts the oldest closed batch for a next hop. It returns false where the link was full.
fn put_first<P: Post>(
    held: &mut Buffers,
    post: &mut P,
    here: u32,
    to: u32,
) -> Result<bool, CommFault>
    requires may_put { MayPut held.old (P.state post.old) }
    requires here { here ≡ held.old.here }
    requires within { to < held.old.layout.ranks }
    requires some { 0 < length (queue_at held.old.queues to).closed }
    ensures put { IfOk result (HasPutFirst to held.old held.new (P.state post.old) (P.state post.new)) }
    ensures failed { IfErr result (PutsFailed held.old held.new (P.state post.old) (P.state post.new)) }
    ensures others { OthersUnchanged to held.old.queues held.new.queues }
{
    held.holds();
    let Some(batch) = held.next_out(to) else {
        unreachable!();
    };
    match post.put(here, to, batch) {
        Ok(()) => Ok(true),
        Err(PutBack::Full(batch)) => {
            held.step_back(to, batch);
            Ok(false)
        }
        Err(PutBack::NoMemory(batch)) => {
            held.step_back(to, batch);
            Err(CommFault::NoMemory)
        }
    }
}

/// Puts the closed batches for a next hop, until none remains or the link is full.
fn put_to<P: Post>(
    held: &mut Buffers,
    post: &mut P,
    here: u32,
    to: u32,
) -> Result<Placed, CommFault>
    requires may_put { MayPut held.old (P.state post.old) }
    requires here { here ≡ held.old.here }
    requires within { to < held.old.layout.ranks }
    ensures put { IfOk result (λ what.
        HasPutTo to held.old held.new (P.state post.old) (P.state post.new) what.put what.full) }
    ensures failed { IfErr result (PutsFailed held.old held.new (P.state post.old) (P.state post.new)) }
    ensures others { OthersUnchanged to held.old.queues held.new.queues }
{
    let most = held.closed_count(to);
    for k in 0..most {
        if !put_first(held, post, here, to)? {
            return Ok(Placed {
                put: k as u64,
                full: true,
            });
        }
    }
    Ok(Placed {
        put: most as u64,
        full: false,
    })
}

/// Puts the closed batches, next hop by next hop. It returns how many batches, and the lowest rank to which the
/// link was full.
fn put_each<P: Post>(
    held: &mut Buffers,
    post: &mut P,
    here: u32,
    ranks: u32,
) -> Result<(u64, Option<u32>), CommFault>
    requires may_put { MayPut held.old (P.state post.old) }
    requires here { here ≡ held.old.here }
    requires ranks { ranks ≡ held.old.layout.ranks }
    ensures put { IfOk result (λ what.
        HasPutEach ranks held.old held.new (P.state post.old) (P.state post.new) what.0 what.1) }
    ensures failed { IfErr result (PutsFailed held.old held.new (P.state post.old) (P.state post.new)) }
{
    let mut put: u64 = 0;
    let mut full = None;
    for to in 0..ranks {
        let placed = put_to(held, post, here, to)?;
        put = put.saturating_add(placed.put);
        if placed.full {
            full = full.or(Some(to));
        }
    }
    Ok((put, full))
}

impl<H: Handler, T: Tap> Comm<H, T> {
    /// Puts the closed batches that the rank holds, next hop by next hop. It returns how many batches, at most `u64::MAX`, and the
    /// lowest rank to which the link was full.
    pub(crate) fn put_all<P: Post>(&mut self, post: &mut P) -> Result<(u64, Option<u32>), CommFault>
        requires belongs { Belongs H.apply H.start self.old (P.state post.old) }
        requires may_turn { MayTurn self.old ((P.state post.old).log self.old.here) }
        ensures put { IfOk result (λ what. HasPutAll self.old self.new (P.state post.old) (P.state post.new) what.0 what.1) }
        ensures failed { IfErr result (PutAllFailed self.old self.new (P.state post.old) (P.state post.new)) }
        ensures belongs { Belongs H.apply H.start self.new (P.state post.new) }
        ensures may_turn { MayTurn self.new ((P.state post.new).log self.old.here) }
        ensures honest { IsHonest (local_of self.old ((P.state post.old).log self.old.here)) →
            IsHonest (local_of self.old ((P.state post.new).log self.old.here)) }
        ensures keeps { PutsKeep self.old.here (P.state post.old) (P.state post.new) }
    {
        // No put is a letter too many.
        let within = self.sent.count() <= self.limits.letters;
        prove!(within);
        let put = put_each(&mut self.held, post, self.here, self.layout.ranks());
        self.held.holds();
        put
    }
}
