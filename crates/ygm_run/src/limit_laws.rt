//! The number that bounds the ranks of a run, as a law.
ghost use Rattle.std.specs.Prelude.{◌≡◌};
ghost use Rattle.ygm_route.specs.Layout.{max_ranks};

use crate::words::MAX_RANKS;

/// A run has at most as many ranks as a layout may have.
pub fn the_limit_of_ranks_is_that_of_a_layout()
    ensures { MAX_RANKS ≡ max_ranks }
{}
