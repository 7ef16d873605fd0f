//! What bytes are read from.
ghost use Rattle.std.specs.Prelude.{◌≡◌, ◌<◌, ◌≤◌, List, ℕ, length, Option, IfOk, OnErr};
ghost use Rattle.ygm_io.specs.Content.{CallFailed, NothingLeft};
ghost use Rattle.ygm_io.specs.Reads.{PieceRead};

use thiserror::Error;

/// A read or a write that failed. The object's count of faults rose, and no byte was taken or added.
#[derive(Clone, Copy, Debug, PartialEq, Eq, Error)]
#[error("the device failed")]
pub struct Failed;

/// What bytes are read from, one piece at a time.
pub trait Source {
    /// The bytes that remain, where the source exposes them.
    ghost left: { Self → Option (List ℕ) };

    /// How often it has failed, a count that never falls.
    ghost faults: { Self → ℕ };

    /// Reads the next bytes into the start of `into`, and returns how many. For a buffer that isn't
    /// empty, 0 is the end of the input.
    fn read(&mut self, into: &mut [u8]) -> Result<usize, Failed>
        ensures took { IfOk result (λ count.
            PieceRead count into.old into.new (left self.old) (left self.new) (faults self.old) (faults self.new)) }
        ensures end { IfOk result (λ count. count ≡ 0 → 0 < length into.old → NothingLeft (left self.old)) }
        ensures failed { OnErr result (CallFailed (left self.old) (left self.new) (faults self.old) (faults self.new)) }
        ensures never_falls { faults self.old ≤ faults self.new };
}
