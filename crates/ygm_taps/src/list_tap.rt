//! A tap that keeps a list.
ghost use Rattle.std.specs.Prelude.{◌≡◌, ◌<◌, [], Option, None, Some, if◌then◌else◌, length, slice_get, OnOk, OnErr};
ghost use Rattle.ygm_taps.specs.Heard.{entries, told_of, with_letter};

use crate::kept_letters::KeptLetters;
use crate::{Tap, Told};
use std::alloc::{AllocError, Global};

/// A tap that keeps each letter that ran, and exposes them, once it was started to keep them.
#[derive(Drop)]
pub struct ListTap {
    alloc: Global,
    kept: Option<KeptLetters>,
}

impl ListTap {
    /// A tap that keeps nothing until it is started. It takes no memory before a letter runs.
    pub fn new(alloc: Global) -> ListTap
        ensures { result.kept ≡ None }
    {
        ListTap { alloc, kept: None }
    }
}

impl Tap for ListTap {
    ghost heard = { λ tap. tap.kept };

    fn start(&mut self, keep: bool)
        ensures { self.new ≡ record self.old { kept = if keep then Some [] else None } }
    {
        self.kept = if keep {
            Some(KeptLetters::new(self.alloc))
        } else {
            None
        };
    }

    fn ran(&mut self, from: u32, tag: u8, body: &[u8]) -> Result<(), AllocError>
        ensures heard { OnOk result (self.new ≡ record self.old { kept = with_letter self.old.kept (record { from = from; tag = tag; body = body.now }) }) }
        ensures unchanged { OnErr result (self.new ≡ self.old) }
    {
        if let Some(letters) = &mut self.kept {
            letters.push(from, tag, body)?;
        }
        Ok(())
    }

    fn len(&self) -> u64 {
        self.kept.as_ref().map_or(0, |letters| letters.count())
    }

    fn entry(&self, k: u64) -> Told<'_> {
        self.kept.as_ref().unwrap().letter_at(k)
    }
}
