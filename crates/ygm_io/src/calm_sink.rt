//! A sink that never fails.
ghost use Rattle.std.specs.Prelude.{◌≡◌, length, None, Ok};

use crate::{Failed, Sink};

/// A sink that takes every piece whole, keeps nothing and never fails.
#[derive(Clone, Copy, Debug, Default)]
pub struct CalmSink;

impl CalmSink {
    /// A sink that holds nothing.
    pub fn new() -> CalmSink {
        CalmSink
    }
}

impl Sink for CalmSink {
    ghost holds = { λ _. None };

    ghost faults = { λ _. 0 };

    /// Takes the whole piece.
    fn write(&mut self, bytes: &[u8]) -> Result<usize, Failed>
        ensures { result ≡ Ok (length bytes.now) }
    {
        Ok(bytes.len())
    }
}
