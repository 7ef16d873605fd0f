//! Adding to a counting set from any rank.
ghost use Rattle.std.specs.Prelude.{◌≡◌, ◌≤◌, List, false, length, IfErr, IsErr, OnOk, OnErr};
ghost use Rattle.part_hash.specs.Owner as spec;
ghost use Rattle.world_core.specs.declared.entry.Entry.{Entry};
ghost use Rattle.comm_rank.specs.Agrees.{Agrees};
ghost use Rattle.comm_rank.specs.Fault.{IsFullAt, NeverStopped};
ghost use Rattle.comm_rank.specs.Rank.{HasSent};
ghost use Rattle.counting_set.specs.Counting.{add_letter};

use crate::counting::{ADD, MAX_ITEM};
use crate::item_count::item_count_body;
use comm_rank::{Comm, CommFault, Handler};
use owner_send::send_to_owner;
use std::alloc::Global;
use ygm_taps::Tap;

/// Adds one of an item, by a letter to the rank that owns it. At `CommFault::CountFull` the rank has sent as many
/// letters as it may; `CommFault::NoMemory` is lack of memory. After either the rank is unchanged.
pub fn count_insert<H: Handler, T: Tap>(
    alloc: Global,
    comm: &mut Comm<H, T>,
    item: &[u8],
) -> Result<(), CommFault>
    requires short { length item.now ≤ MAX_ITEM }
    requires going { comm.old.stopped ≡ false }
    ensures sent { OnOk result (HasSent comm.old comm.new (add_letter (spec.owner_of_key item.now comm.old.layout.ranks) comm.old.here item.now)) }
    ensures unchanged { OnErr result (comm.new ≡ comm.old) }
    ensures cause { IfErr result (IsFullAt comm.old.sent_count comm.old.most) }
    ensures full { comm.old.most ≤ comm.old.sent_count → IsErr result }
    ensures never_stopped { IfErr result NeverStopped }
    ensures agrees { (log : List Entry) → Agrees H.apply H.start comm.old log → Agrees H.apply H.start comm.new log }
{
    let body = item_count_body(alloc, item, 1)?;
    send_to_owner(comm, item, ADD, body)
}
