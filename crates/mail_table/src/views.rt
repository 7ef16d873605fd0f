//! What passes know. Values of these types exist in proofs alone.
use crate::settings::Settings;
use std::collections::LinkedList;
use world_core::Entry;

/// How often a word was loaded, and what was found last.
pub struct Loads {
    pub count: u64,
    pub last: u64,
}

/// What is known of one rank: its log, whether it raised the stop, and what it loaded; to which rank it puts a batch
/// just now, and from which it takes one.
pub struct RankView {
    pub log: LinkedList<Entry>,
    pub raised: bool,
    pub heads: LinkedList<Loads>,
    pub tails: LinkedList<Loads>,
    pub stop: Loads,
    pub filling: Option<u32>,
    pub emptying: Option<u32>,
}

/// What a seat knows: its ranks, side by side from `first` on.
pub struct View {
    pub settings: Settings,
    pub first: u32,
    pub ranks: LinkedList<RankView>,
}
