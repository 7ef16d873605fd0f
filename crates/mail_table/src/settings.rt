//! What a table is made for.
use ygm_route::{Layout, Scheme};

/// Which world a table is of, how many batches each link holds, and how many it carries in all.
#[derive(Clone, Copy)]
pub struct Settings {
    pub layout: Layout,
    pub scheme: Scheme,
    pub ring: u64,
    pub batches: u64,
}
