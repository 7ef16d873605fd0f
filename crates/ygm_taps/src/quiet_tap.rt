//! A tap that keeps nothing.
ghost use Rattle.std.specs.Prelude.{◌≡◌, [], None, Ok};
ghost use Rattle.ygm_taps.specs.Heard.{told_of};

use crate::{Tap, Told};
use std::alloc::AllocError;

/// A tap that keeps nothing and takes no memory, however it is started.
#[derive(Clone, Copy, Debug, Default)]
pub struct QuietTap;

impl Tap for QuietTap {
    ghost heard = { λ _. None };

    fn start(&mut self, _keep: bool) {}

    fn ran(&mut self, _from: u32, _tag: u8, _body: &[u8]) -> Result<(), AllocError>
        ensures { result ≡ Ok tt }
    {
        Ok(())
    }

    fn len(&self) -> u64
        ensures { result ≡ 0 }
    {
        0
    }

    /// A letter without bytes. Callers that go by `len` never call this.
    fn entry(&self, _k: u64) -> Told<'_>
        ensures { told_of result ≡ record { from = 0; tag = 0; body = [] } }
    {
        Told {
            from: 0,
            tag: 0,
            body: &[],
        }
    }
}
