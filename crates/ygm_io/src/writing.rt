//! Writing bytes to their end.
ghost use Rattle.std.specs.Prelude.{◌≤◌, IfErr, OnOk};
ghost use Rattle.ygm_io.specs.Writes.{AllWritten, PrefixWritten};

use crate::{Failed, Sink};
use thiserror::Error;

/// The sink failed before all was written. Its count of faults rose.
#[derive(Clone, Copy, Debug, PartialEq, Eq, Error)]
#[error("the write failed after {written} bytes")]
pub struct WriteFault {
    /// How many bytes the sink took: the first ones.
    pub written: usize,
}

/// Writes all the bytes. Each call of the sink is offered all that remains.
///
/// After a `WriteFault` the sink holds the first `written` bytes after what it held before.
pub fn write_all<K: Sink>(sink: &mut K, bytes: &[u8]) -> Result<(), WriteFault>
    ensures done { OnOk result (
        AllWritten bytes.now (K.holds sink.old) (K.holds sink.new) (K.faults sink.old) (K.faults sink.new)) }
    ensures cut_off { IfErr result (λ fault.
        PrefixWritten fault.written bytes.now (K.holds sink.old) (K.holds sink.new) (K.faults sink.old) (K.faults sink.new)) }
    ensures never_falls { K.faults sink.old ≤ K.faults sink.new }
{
    let mut written = 0;
    while written < bytes.len() {
        match sink.write(&bytes[written..]) {
            Ok(count) => written += count,
            Err(Failed) => return Err(WriteFault { written }),
        }
    }
    Ok(())
}
