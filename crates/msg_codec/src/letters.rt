//! A list of letters that is kept and read, and no longer grows.
ghost use Rattle.std.specs.Prelude.{◌≡◌, ◌<◌, IfOk, length, slice_get, Some};

use crate::{Batch, LetterRef};
use std::alloc::{AllocError, Global};
use std::marker::Model;
use std::sync::Arc;

/// The letters of a batch, as they are kept where a batch was put or taken.
#[derive(Debug, Drop)]
pub struct Letters {
    batch: Arc<Batch>,
}

impl Model for Letters {
    ghost use Rattle.std.specs.Prelude.{List};
    ghost use Rattle.msg_codec.specs.declared.letter.Letter.{Letter};

    ghost Value = { List Letter };

    ghost view = { λ letters. letters.batch.value };
}

impl Letters {
    ghost use Rattle.msg_codec.specs.Letter.{letter_of};

    /// A copy of the letters of a batch.
    pub fn of(alloc: Global, batch: &Batch) -> Result<Letters, AllocError>
        ensures { IfOk result (λ letters. letters ≡ batch.now) }
    {
        Ok(Letters {
            batch: Arc::new(alloc, batch.copy(alloc)?)?,
        })
    }

    /// A list of the same letters, which shares their bytes.
    pub fn copy(&self) -> Result<Letters, AllocError>
        ensures { IfOk result (λ letters. letters ≡ self.now) }
    {
        Ok(Letters {
            batch: Arc::try_clone(&self.batch)?,
        })
    }

    /// The number of its letters.
    pub fn count(&self) -> u64
        ensures { result ≡ length self.now }
    {
        self.batch.count()
    }

    /// The letter at place `k`, counted from 0, in constant time and without a copy.
    pub fn letter_at(&self, k: u64) -> LetterRef<'_>
        requires { k < length self.now }
        ensures { slice_get self.now k ≡ Some (letter_of result) }
    {
        self.batch.letter_at(k)
    }
}
