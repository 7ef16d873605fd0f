//! Inserting into a bag from any rank.
ghost use Rattle.std.specs.Prelude.{◌≡◌, ◌<◌, ◌≤◌, false, length, OnOk, OnErr};
ghost use Rattle.owner_send.specs.Sends.{SendsOne};
ghost use Rattle.bag_set.specs.Bags.{insert_letter, next_turn};

use crate::bag::INSERT;
use comm_rank::{Comm, CommFault, Handler};
use owner_send::{MAX_ITEM, key_body};
use std::alloc::Global;
use ygm_taps::Tap;

/// The rank to which a rank's next item goes. A rank begins with its own number, and goes round.
#[derive(Clone, Copy, Debug, PartialEq, Eq)]
pub struct BagTurn {
    pub next: u32,
}

/// Inserts an item, by a letter to the rank whose turn it is; the next one is for the rank after it. At
/// `CommFault::CountFull` the rank has sent as many letters as it may; `CommFault::NoMemory` is lack of memory. After
/// either the rank and the turn are unchanged.
pub fn bag_insert<H: Handler, T: Tap>(
    alloc: Global,
    comm: &mut Comm<H, T>,
    bag: &mut BagTurn,
    item: &[u8],
) -> Result<(), CommFault>
    requires short { length item.now ≤ MAX_ITEM }
    requires turn { bag.old.next < comm.old.layout.ranks }
    requires going { comm.old.stopped ≡ false }
    ensures sends { SendsOne H.apply H.start comm.old comm.new result (insert_letter bag.old.next comm.old.here item.now) }
    ensures next { OnOk result (bag.new.next ≡ next_turn comm.old.layout.ranks bag.old.next) }
    ensures same { OnErr result (bag.new.next ≡ bag.old.next) }
    ensures turn { bag.new.next < comm.new.layout.ranks }
{
    let ranks = comm.ranks();
    let body = key_body(alloc, item, 0)?;
    comm.send(bag.next, INSERT, body)?;
    bag.next = (bag.next + 1) % ranks;
    Ok(())
}
