//! Inserting into a set and erasing from it, from any rank.
ghost use Rattle.std.specs.Prelude.{◌≡◌, ◌≤◌, false, length};
ghost use Rattle.part_hash.specs.Owner as owner;
ghost use Rattle.owner_send.specs.Sends.{SendsOne};
ghost use Rattle.bag_set.specs.Sets.{erase_letter, insert_letter};

use crate::set::{ERASE, INSERT};
use comm_rank::{Comm, CommFault, Handler};
use owner_send::{MAX_ITEM, key_body, send_to_owner};
use std::alloc::Global;
use ygm_taps::Tap;

/// Inserts an item, by a letter to the rank that owns it. At `CommFault::CountFull` the rank has sent as many letters as it
/// may; `CommFault::NoMemory` is lack of memory. After either the rank is unchanged.
pub fn set_insert<H: Handler, T: Tap>(
    alloc: Global,
    comm: &mut Comm<H, T>,
    item: &[u8],
) -> Result<(), CommFault>
    requires short { length item.now ≤ MAX_ITEM }
    requires going { comm.old.stopped ≡ false }
    ensures sends { SendsOne H.apply H.start comm.old comm.new result (insert_letter (owner.owner_of_key item.now comm.old.layout.ranks) comm.old.here item.now) }
{
    let body = key_body(alloc, item, 0)?;
    send_to_owner(comm, item, INSERT, body)
}

/// Erases an item, by a letter to the rank that owns it. Its faults are those of `set_insert`.
pub fn set_erase<H: Handler, T: Tap>(
    alloc: Global,
    comm: &mut Comm<H, T>,
    item: &[u8],
) -> Result<(), CommFault>
    requires short { length item.now ≤ MAX_ITEM }
    requires going { comm.old.stopped ≡ false }
    ensures sends { SendsOne H.apply H.start comm.old comm.new result (erase_letter (owner.owner_of_key item.now comm.old.layout.ranks) comm.old.here item.now) }
{
    let body = key_body(alloc, item, 0)?;
    send_to_owner(comm, item, ERASE, body)
}
