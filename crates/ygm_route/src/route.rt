//! The next hop of a message, and how many hops it takes.
ghost use Rattle.std.specs.Prelude.{◌≡◌, ◌<◌, ◌≤◌, length};
ghost use Rattle.ygm_route.specs.Hop.{gateway, hop};
ghost use Rattle.ygm_route.specs.Path.{links, most_links, path};

use crate::{Layout, Scheme};

/// The rank that `here` sends a message for `to` to. A message to oneself goes to oneself.
#[tactic(auto, unfolding(crate::specs::Hop::hop))]
pub fn next_hop(layout: &Layout, scheme: Scheme, here: u32, to: u32) -> u32
    requires here_within { here < layout.now.ranks }
    requires to_within { to < layout.now.ranks }
    ensures value { result ≡ hop layout.now scheme here to }
    ensures within { result < layout.now.ranks }
{
    let near = layout.node_of(here);
    let far = layout.node_of(to);
    if near == far {
        return to;
    }
    match scheme {
        Scheme::Direct => to,
        Scheme::Nr => layout.rank_at(far, layout.core_of(here)),
        Scheme::Nlnr => {
            let through = gateway_between(layout, here, to);
            if layout.core_of(here) == through {
                layout.rank_at(far, through)
            } else {
                layout.rank_at(near, through)
            }
        }
    }
}

/// The number of links that a message from `here` to `to` crosses. It is 1 for a message to oneself, and
/// otherwise at most 1, 2 and 3 in the three schemes.
#[tactic(auto, using(crate::proofs::Path::Lengths::link_counts))]
pub fn hops_to(layout: &Layout, scheme: Scheme, here: u32, to: u32) -> u32
    requires here_within { here < layout.now.ranks }
    requires to_within { to < layout.now.ranks }
    ensures links { result ≡ length (links (path layout.now scheme here to)) }
    ensures few { result ≤ most_links scheme }
{
    if layout.node_of(here) == layout.node_of(to) {
        return 1;
    }
    let from_core = layout.core_of(here);
    let to_core = layout.core_of(to);
    match scheme {
        Scheme::Direct => 1,
        Scheme::Nr => 1 + u32::from(from_core != to_core),
        Scheme::Nlnr => {
            let through = gateway_between(layout, here, to);
            u32::from(from_core != through) + 1 + u32::from(to_core != through)
        }
    }
}

/// The core of both nodes that messages between the nodes of `here` and `to` go through in `Scheme::Nlnr`.
fn gateway_between(layout: &Layout, here: u32, to: u32) -> u32
    requires here_within { here < layout.now.ranks }
    requires to_within { to < layout.now.ranks }
    ensures value { result ≡ gateway layout.now here to }
    ensures within { result < layout.now.cores }
{
    (layout.node_of(here) + layout.node_of(to)) % layout.cores()
}
