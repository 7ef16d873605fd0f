//! Ranks on nodes and cores, and the paths that messages take between them.
#![tactic(auto)]

pub mod laws;
mod layout;
mod route;
mod scheme;

pub use layout::{Layout, LayoutFault};
pub use route::{hops_to, next_hop};
pub use scheme::Scheme;

/// The most ranks that a layout may have.
pub const MAX_RANKS: u32 = 32;

#[cfg(test)]
mod tests;
