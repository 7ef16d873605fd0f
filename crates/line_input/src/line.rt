//! The text of a line.
ghost use Rattle.std.specs.Prelude.{◌≡◌, ◌≤◌, length, vec_len, IsOk, IfOk};
ghost use Rattle.line_input.specs.Limits.{max_line};

use smallvec::SmallVec;
use std::alloc::{AllocError, Global};
use std::marker::Model;

/// How many bytes a line keeps in place, without memory of its own.
pub const IN_PLACE: usize = 96;

/// The text of a line: its bytes without the LF, and without a CR directly before the LF or at the input's end.
#[derive(Debug, Drop)]
pub struct Line {
    text: SmallVec<u8, IN_PLACE>,
}

impl Model for Line {
    ghost use Rattle.std.specs.Prelude.{ℕ, ◌≤◌, List, length};
    ghost use Rattle.line_input.specs.Limits.{max_line};

    ghost Value = { List ℕ };

    ghost view = { λ line. line.text.items };

    ghost invariant = { λ line. length line.text.items ≤ max_line };
}

impl Line {
    /// A copy of the bytes.
    pub(crate) fn of(alloc: Global, bytes: &[u8]) -> Result<Line, AllocError>
        requires { length bytes.now ≤ max_line }
        ensures value { IfOk result (λ line. line ≡ bytes.now) }
        ensures in_place { length bytes.now ≤ IN_PLACE → IsOk result }
    {
        Ok(Line {
            text: SmallVec::from_slice(alloc, bytes)?,
        })
    }

    /// The bytes themselves, without a copy.
    pub(crate) fn from_vec(bytes: Vec<u8>) -> Line
        requires { vec_len bytes ≤ max_line }
        ensures { result ≡ bytes.items }
    {
        Line {
            text: SmallVec::from_vec(bytes),
        }
    }

    /// The bytes. Takes no memory.
    pub fn as_slice(&self) -> &[u8]
        ensures bytes { result.now ≡ self.now }
        ensures short { length result.now ≤ max_line }
    {
        self.text.as_slice()
    }
}
