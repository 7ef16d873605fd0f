//! The ranks of a world on one thread.
ghost use Rattle.std.specs.Prelude.{◌≡◌, List, IfOk, false};
ghost use Rattle.world_core.specs.declared.entry.Entry.{Entry};
ghost use Rattle.world_core.specs.Plain.{state_of};
ghost use Rattle.world_core.specs.Post.{SamePost};
ghost use Rattle.comm_rank.specs.Agrees.{Agrees};
ghost use Rattle.comm_rank.specs.Rank.{IsSameRank};
ghost use Rattle.shard_rig.specs.Ready.{IsReady};

use crate::RigFault;
use comm_rank::{Comm, CommFault, Handler, a_turn_puts_data_letters_alone};
use std::alloc::Global;
use std::marker::Model;
use world_core::{Limits, PlainLinks};
use ygm_route::{Layout, Scheme};
use ygm_taps::QuietTap;

/// The most bytes of a batch of more than one letter.
const BUFFER: u32 = 64;

/// How many batches a link holds.
const RING: u32 = 4;

/// How many turns each rank takes at most until all letters have run.
const MOST_TURNS: u32 = 1000;

/// A call of a container, which a test lets a rank make.
pub trait Call<H: Handler> {
    /// Makes the call. The rank may send letters by itself, and nothing else of it changes.
    fn make(&mut self, comm: &mut Comm<H, QuietTap>) -> Result<(), RigFault>
        requires going { comm.old.stopped ≡ false }
        ensures agrees { (log : List Entry) → Agrees H.apply H.start comm.old log → Agrees H.apply H.start comm.new log }
        ensures rank { IsSameRank comm.old comm.new }
        ensures going { comm.new.stopped ≡ false };
}

/// The ranks of a world, with quiet taps, whose letters go straight to their destinations. What is large is on the heap.
#[derive(Drop)]
pub struct Ranks<H: Handler> {
    alloc: Global,
    layout: Layout,
    limits: Limits,
    comms: Vec<Comm<H, QuietTap>>,
    links: Box<PlainLinks>,
}

impl<H: Handler> Model for Ranks<H> {
    ghost use Rattle.std.specs.Prelude.{◌≡◌};
    ghost use Rattle.ygm_route.specs.declared.scheme.Scheme.TheVariants.{Direct};
    ghost use Rattle.world_core.specs.Plain.{Plain, state_of};
    ghost use Rattle.shard_rig.specs.Ready.{AreReady};

    ghost Value = { Plain };

    ghost view = { λ ranks. ranks.links.value };

    ghost invariant = { λ ranks. (ranks.links.value.world.layout ≡ ranks.layout)
        × (ranks.links.value.world.scheme ≡ Direct)
        × AreReady H.apply H.start ranks.comms.items (state_of ranks.links.value) };
}

// The rank makes a call, and closes its batches.
fn make<H: Handler, C: Call<H>>(comm: &mut Comm<H, QuietTap>, call: &mut C) -> Result<(), RigFault>
    ensures agrees { (log : List Entry) → Agrees H.apply H.start comm.old log → Agrees H.apply H.start comm.new log }
    ensures rank { IsSameRank comm.old comm.new }
    ensures stopped { comm.new.stopped ≡ comm.old.stopped }
{
    if comm.is_stopped() {
        return Err(RigFault::Stopped);
    }
    call.make(comm)?;
    comm.flush()?;
    Ok(())
}

// A turn of a rank. It returns whether the rank took or put a batch.
fn turn<H: Handler>(comm: &mut Comm<H, QuietTap>, links: &mut PlainLinks) -> Result<bool, RigFault>
    requires ready { comm.old.stopped ≡ false → IsReady H.apply H.start comm.old (state_of links.old) }
    ensures ready { comm.new.stopped ≡ false → IsReady H.apply H.start comm.new (state_of links.new) }
    ensures here { comm.new.here ≡ comm.old.here }
    ensures post { SamePost comm.old.here (state_of links.old) (state_of links.new) }
{
    if comm.is_stopped() {
        return Err(RigFault::Stopped);
    }
    a_turn_puts_data_letters_alone::<H>();
    comm.flush()?;
    let turn = comm.turn(links)?;
    Ok(turn.took > 0 || turn.put > 0)
}

impl<H: Handler> Ranks<H> {
    /// A world of so many ranks, which are then added one after another.
    pub fn new(alloc: Global, ranks: u32, limits: Limits) -> Result<Ranks<H>, RigFault> {
        let layout = Layout::new(ranks, 1)?;
        let links = PlainLinks::new(alloc, layout, Scheme::Direct, RING, limits)?;
        Ok(Ranks {
            alloc,
            layout,
            limits,
            comms: Vec::new(alloc),
            links: Box::new(alloc, links)?,
        })
    }

    /// Adds the next rank, with a new shard.
    pub fn add(&mut self, shard: H) -> Result<(), RigFault>
        requires { H.start shard ≡ shard }
    {
        let here = self.comms.len();
        if here >= self.layout.ranks() as usize {
            return Err(RigFault::AllAdded);
        }
        let made = Comm::new(
            self.alloc,
            self.layout,
            Scheme::Direct,
            here as u32,
            BUFFER,
            self.limits,
            shard,
            QuietTap,
        );
        let Ok(comm) = made else {
            return Err(RigFault::NoMemory);
        };
        self.comms.push(comm)?;
        Ok(())
    }

    fn comm(&self, rank: u32) -> Result<&Comm<H, QuietTap>, RigFault> {
        self.comms.get(rank as usize).ok_or(RigFault::NoSuchRank)
    }

    /// What a rank keeps.
    pub fn shard(&self, rank: u32) -> Result<&H, RigFault> {
        Ok(self.comm(rank)?.contents())
    }

    /// How many letters a rank sent.
    pub fn sent_count(&self, rank: u32) -> Result<u64, RigFault> {
        Ok(self.comm(rank)?.sent_count())
    }

    /// Lets a rank make a call. Its letters run at the next `run_all`.
    pub fn call<C: Call<H>>(&mut self, rank: u32, call: &mut C) -> Result<(), RigFault> {
        if rank as usize >= self.comms.len() {
            return Err(RigFault::NoSuchRank);
        }
        make(&mut self.comms[rank as usize], call)
    }

    // A turn of a rank.
    fn turn(&mut self, rank: usize) -> Result<bool, RigFault> {
        if rank >= self.comms.len() {
            return Err(RigFault::NoSuchRank);
        }
        turn(&mut self.comms[rank], &mut self.links)
    }

    /// The ranks take turns until all letters have run, those that handlers send too.
    pub fn run_all(&mut self) -> Result<(), RigFault> {
        for _ in 0..MOST_TURNS {
            let mut moved = false;
            for rank in 0..self.comms.len() {
                moved |= self.turn(rank)?;
            }
            if !moved {
                return Ok(());
            }
        }
        Err(RigFault::Unsettled)
    }
}
