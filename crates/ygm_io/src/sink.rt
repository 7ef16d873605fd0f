//! What bytes are written to.
ghost use Rattle.std.specs.Prelude.{◌≤◌, List, ℕ, Option, IfOk, OnErr};
ghost use Rattle.ygm_io.specs.Content.{CallFailed};
ghost use Rattle.ygm_io.specs.Writes.{PieceWritten};

use crate::Failed;

/// What bytes are written to, one piece at a time.
pub trait Sink {
    /// The bytes that it holds, where the sink exposes them.
    ghost holds: { Self → Option (List ℕ) };

    /// How often it has failed, a count that never falls.
    ghost faults: { Self → ℕ };

    /// Writes bytes from the start of `bytes`, and returns how many: at least one of a piece that
    /// isn't empty.
    fn write(&mut self, bytes: &[u8]) -> Result<usize, Failed>
        ensures took { IfOk result (λ count.
            PieceWritten count bytes.now (holds self.old) (holds self.new) (faults self.old) (faults self.new)) }
        ensures failed { OnErr result (CallFailed (holds self.old) (holds self.new) (faults self.old) (faults self.new)) }
        ensures never_falls { faults self.old ≤ faults self.new };
}
