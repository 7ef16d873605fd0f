//! Values that a whole body encodes.
ghost use Rattle.std.specs.Prelude.{◌≡◌, ◌≢◌, IfOk, IfSome, IfNone};
ghost use Rattle.msg_codec.specs.Reading.{whole};

use crate::{Wire, WireFault};
use std::alloc::{AllocError, Global};

/// The value that the whole body encodes. `None` if it encodes none, or if bytes remain after it.
pub fn read_whole<W: Wire>(alloc: Global, body: &[u8]) -> Result<Option<W>, AllocError>
    ensures found { IfOk result (λ read. IfSome read (λ value. body.now ≡ W.spelled value)) }
    ensures range { IfOk result (λ read. IfSome read W.in_range) }
    ensures none { IfOk result (λ read. IfNone read ((value : W) → W.in_range value → body.now ≢ W.spelled value)) }
    ensures exact { IfOk result (λ read. read ≡ whole W.reading body.now) }
{
    match W::get(alloc, body) {
        Ok((value, len)) if len == body.len() => Ok(Some(value)),
        Err(WireFault::NoMemory) => Err(AllocError),
        _ => Ok(None),
    }
}
