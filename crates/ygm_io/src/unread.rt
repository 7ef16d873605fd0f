//! Bytes that are read in order.
ghost use Rattle.std.specs.Prelude.{◌≡◌, IfOk};
ghost use Rattle.ygm_io.specs.Memory.{Moved};

use std::alloc::{AllocError, Global};
use std::marker::Model;

/// Bytes in memory, and how many of them were read.
#[derive(Debug, Drop)]
pub struct Unread {
    bytes: Vec<u8>,
    read: usize,
}

impl Model for Unread {
    ghost use Rattle.std.specs.Prelude.{◌≤◌, List, ℕ, length, drop};

    ghost Value = { List ℕ };

    ghost view = { λ unread. drop unread.read unread.bytes.items };

    ghost invariant = { λ unread. unread.read ≤ length unread.bytes.items };
}

impl Unread {
    pub fn new(alloc: Global, bytes: &[u8]) -> Result<Unread, AllocError>
        ensures { IfOk result (λ unread. unread ≡ bytes.now) }
    {
        Ok(Unread {
            bytes: bytes.to_vec(alloc)?,
            read: 0,
        })
    }

    pub fn as_slice(&self) -> &[u8]
        ensures { result.now ≡ self.now }
    {
        &self.bytes[self.read..]
    }

    /// Moves as many bytes as fit to the start of `into`, and returns how many.
    pub fn move_into(&mut self, into: &mut [u8]) -> usize
        ensures { Moved result into.old into.new self.old self.new }
    {
        let count = into.len().min(self.bytes.len() - self.read);
        let end = self.read + count;
        into[..count].copy_from_slice(&self.bytes[self.read..end]);
        self.read = end;
        count
    }
}
