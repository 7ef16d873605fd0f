//! Which ranks there are, and on which nodes they run.
ghost use Rattle.std.specs.Prelude.{◌≡◌, ◌≢◌, ◌<◌, ◌≤◌, ◌%◌, ◌/◌, ◌↔◌, IsOk, IfOk, IsErrOf};
ghost use Rattle.ygm_route.specs.Layout.{IsLayout, core, max_ranks, node, rank_at};

use crate::MAX_RANKS;
use std::marker::Model;
use thiserror::Error;

/// Why two numbers make no layout.
#[derive(Clone, Copy, Debug, PartialEq, Eq, Error)]
pub enum LayoutFault {
    /// The number of ranks is 0.
    #[error("there are no ranks")]
    NoRanks,
    /// There are more ranks than `MAX_RANKS`.
    #[error("there are too many ranks")]
    TooManyRanks,
    /// The number of cores is 0.
    #[error("there are no cores")]
    NoCores,
    /// The number of cores doesn't divide the number of ranks.
    #[error("the ranks don't fill their nodes")]
    Uneven,
}

/// A number of ranks, and the nodes that they run on: each node has the same number of cores, and each core
/// runs one rank. Ranks are numbered from 0, node by node.
#[derive(Clone, Copy, Debug, PartialEq, Eq)]
pub struct Layout {
    ranks: u32,
    cores: u32,
}

impl Model for Layout {
    ghost use Rattle.ygm_route.specs.Layout.{IsLayout, Shape};

    ghost Value = { Shape };

    ghost view = { λ layout. record { ranks = layout.ranks; cores = layout.cores } };

    ghost invariant = { λ layout. IsLayout (record { ranks = layout.ranks; cores = layout.cores }) };

    ghost inverse = { λ shape. record { ranks = shape.ranks; cores = shape.cores } };
}

impl Layout {
    /// Lays out this many ranks, with this many cores on each node.
    ///
    /// The faults are tried in their order, and the first that holds is returned.
    pub fn new(ranks: u32, cores: u32) -> Result<Layout, LayoutFault>
        ensures ok { IfOk result (λ layout. layout ≡ record { ranks = ranks; cores = cores }) }
        ensures accepted { IsOk result ↔ IsLayout (record { ranks = ranks; cores = cores }) }
        ensures no_ranks { IsErrOf result LayoutFault.NoRanks ↔ (ranks ≡ 0) }
        ensures too_many_ranks { IsErrOf result LayoutFault.TooManyRanks ↔ (max_ranks < ranks) }
        ensures no_cores { IsErrOf result LayoutFault.NoCores ↔
            ((1 ≤ ranks) × (ranks ≤ max_ranks) × (cores ≡ 0)) }
        ensures uneven { IsErrOf result LayoutFault.Uneven ↔
            ((1 ≤ ranks) × (ranks ≤ max_ranks) × (1 ≤ cores) × (ranks % cores ≢ 0)) }
    {
        if ranks == 0 {
            return Err(LayoutFault::NoRanks);
        }
        if ranks > MAX_RANKS {
            return Err(LayoutFault::TooManyRanks);
        }
        if cores == 0 {
            return Err(LayoutFault::NoCores);
        }
        if ranks % cores != 0 {
            return Err(LayoutFault::Uneven);
        }
        Ok(Layout { ranks, cores })
    }

    /// The number of ranks.
    pub fn ranks(&self) -> u32
        ensures value { result ≡ self.now.ranks }
        ensures sound { IsLayout self.now }
    {
        self.ranks
    }

    /// The number of cores on each node.
    pub fn cores(&self) -> u32
        ensures value { result ≡ self.now.cores }
        ensures sound { IsLayout self.now }
    {
        self.cores
    }

    /// The node that the rank `r` runs on.
    pub fn node_of(&self, r: u32) -> u32
        requires { r < self.now.ranks }
        ensures value { result ≡ node self.now r }
        ensures within { result < self.now.ranks / self.now.cores }
        ensures sound { IsLayout self.now }
    {
        r / self.cores
    }

    /// The core of its node that the rank `r` runs on.
    pub fn core_of(&self, r: u32) -> u32
        requires { r < self.now.ranks }
        ensures value { result ≡ core self.now r }
        ensures within { result < self.now.cores }
        ensures sound { IsLayout self.now }
    {
        r % self.cores
    }

    /// The rank that runs on the core `on_core` of the node `on_node`.
    pub(crate) fn rank_at(&self, on_node: u32, on_core: u32) -> u32
        requires node_within { on_node < self.now.ranks / self.now.cores }
        requires core_within { on_core < self.now.cores }
        ensures value { result ≡ rank_at self.now on_node on_core }
        ensures within { result < self.now.ranks }
    {
        on_node * self.cores + on_core
    }
}
