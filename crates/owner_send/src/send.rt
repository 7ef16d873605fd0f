//! Sending a letter to the owner of a key.
ghost use Rattle.std.specs.Prelude.{◌≡◌, ◌<◌, false};
ghost use Rattle.world_core.specs.Limits.{data_tags};
ghost use Rattle.owner_send.specs.Sends.{SendsOne, letter_to_owner};

use comm_rank::{Comm, CommFault, Handler};
use msg_codec::Body;
use part_hash::owner_of_key;
use ygm_taps::Tap;

/// Sends a letter to the rank that owns the key. At `CommFault::CountFull` the rank has sent as many letters as it may;
/// `CommFault::NoMemory` is lack of memory. After either the rank is unchanged, and the body is lost.
pub fn send_to_owner<H: Handler, T: Tap>(
    comm: &mut Comm<H, T>,
    key: &[u8],
    tag: u8,
    body: Body,
) -> Result<(), CommFault>
    requires data { tag < data_tags }
    requires going { comm.old.stopped ≡ false }
    ensures sends { SendsOne H.apply H.start comm.old comm.new result (letter_to_owner comm.old key.now tag body) }
{
    let owner = owner_of_key(key, comm.ranks());
    comm.send(owner, tag, body)
}
