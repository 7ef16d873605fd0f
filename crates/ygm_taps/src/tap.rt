//! What a caller hands in to learn which letters ran on a rank.
ghost use Rattle.std.specs.Prelude.{◌≡◌, ◌<◌, Some, length, slice_get, OnOk, OnErr};
ghost use Rattle.ygm_taps.specs.Heard.{Heard, Started, entries, told_of, with_letter};

use crate::Told;
use std::alloc::AllocError;

/// An object that is given each letter that runs on a rank, in order. The caller makes it, starts it, and reads it
/// afterwards.
pub trait Tap: Drop {
    /// The letters that it was given since it was started to keep them, where the tap exposes them.
    ghost heard: { Self → Heard };

    /// Forgets what it was given before. Started with `false`, it keeps nothing of what it is given next.
    fn start(&mut self, keep: bool)
        ensures { Started keep (heard self.new) };

    /// Gives it a letter that ran. Out of memory, it is unchanged.
    fn ran(&mut self, from: u32, tag: u8, body: &[u8]) -> Result<(), AllocError>
        ensures heard { OnOk result (heard self.new ≡ with_letter (heard self.old) (record { from = from; tag = tag; body = body.now })) }
        ensures unchanged { OnErr result (heard self.new ≡ heard self.old) };

    /// The number of letters that it keeps.
    fn len(&self) -> u64
        ensures { result ≡ length (entries (heard self.now)) };

    /// The letter that it was given as number `k`, from 0, of those that it keeps.
    fn entry(&self, k: u64) -> Told<'_>
        requires { k < length (entries (heard self.now)) }
        ensures { slice_get (entries (heard self.now)) k ≡ Some (told_of result) };
}
