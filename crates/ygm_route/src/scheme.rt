//! The schemes by which messages travel.

/// How messages travel between nodes. Within a node they go straight to the destination.
#[derive(Clone, Copy, Debug, PartialEq, Eq)]
pub enum Scheme {
    /// Straight to the destination. YGM calls it NONE.
    Direct,
    /// Node-remote: first over the network to the sender's core of the other node, then within that node.
    Nr,
    /// Node-local and node-remote: within the node to the core that serves the other node, from there over
    /// the network, and then within that node. Each pair of nodes has one link between them.
    Nlnr,
}
