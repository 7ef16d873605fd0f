//! What holds of all layouts and paths. Each law is the contract of a function that does nothing: a caller
//! that calls it may rely on it.
ghost use Rattle.std.specs.Prelude.{◌≡◌, ◌≢◌, ◌+◌, ◌<◌, ◌≤◌, ℕ, List, [], ◌∷◌, ◌++◌, length, nat_eq, IsTrue};
ghost use Rattle.std.specs.List.{IsDistinct};
ghost use Rattle.list_facts.specs.Prefix.{IsPrefix, IsSuffix};
ghost use Rattle.ygm_route.specs.declared.scheme.Scheme.{Scheme};
ghost use Rattle.ygm_route.specs.Hop.{hop};
ghost use Rattle.ygm_route.specs.Layout.{AreRanks, Shape, max_ranks, node};
ghost use Rattle.ygm_route.specs.Path.{crosses, IsPath, links, most_links, passes, path};

use crate::MAX_RANKS;

/// The number that bounds a layout, and the constant that has it.
pub fn the_limit_is_this_number()
    ensures ranks { max_ranks ≡ 32 }
    ensures constant { MAX_RANKS ≡ max_ranks }
{}

/// Between two ranks there is one path, and no other: the next hops from the sender come to the destination.
#[tactic(auto, using(crate::proofs::Path::OnlyOne::path_is_path))]
pub fn one_path_leads_to_each_rank()
    ensures there_is_one { (layout : Shape) (scheme : Scheme) (from to : ℕ) → AreRanks layout from to →
        IsPath layout scheme from to (path layout scheme from to) }
    ensures no_other { (layout : Shape) (scheme : Scheme) (from to : ℕ) (ranks : List ℕ) → AreRanks layout from to →
        IsPath layout scheme from to ranks → ranks ≡ path layout scheme from to }
{}

/// A path repeats no rank, but for a rank's path to itself, which is the link from the rank to itself.
#[tactic(auto, using(crate::proofs::Path::NoRepeats::no_repeats))]
pub fn no_rank_is_repeated()
    ensures others { (layout : Shape) (scheme : Scheme) (from to : ℕ) → AreRanks layout from to → from ≢ to →
        IsDistinct nat_eq (path layout scheme from to) }
    ensures itself { (layout : Shape) (scheme : Scheme) (from : ℕ) → AreRanks layout from from →
        path layout scheme from from ≡ from ∷ from ∷ [] }
{}

/// A path has few links, and one rank more. Its ranks are ranks of the layout.
#[tactic(auto, using(crate::proofs::Path::Lengths::short_paths, crate::proofs::Path::Within::passes_within))]
pub fn paths_are_short()
    ensures few_links { (layout : Shape) (scheme : Scheme) (from to : ℕ) → AreRanks layout from to →
        length (links (path layout scheme from to)) ≤ most_links scheme }
    ensures few_ranks { (layout : Shape) (scheme : Scheme) (from to : ℕ) → AreRanks layout from to →
        length (path layout scheme from to) ≤ most_links scheme + 1 }
    ensures within { (layout : Shape) (scheme : Scheme) (from to r : ℕ) → AreRanks layout from to →
        IsTrue (passes (path layout scheme from to) r) → r < layout.ranks }
{}

/// A path follows the next hops towards its destination, and nothing else: each of its links leads to the
/// next hop, and from each rank before the destination it crosses the link to the next hop.
#[tactic(auto, using(crate::proofs::Path::FollowsHops::along_hops))]
pub fn paths_follow_the_next_hops()
    ensures each_link { (layout : Shape) (scheme : Scheme) (from to a b : ℕ) → AreRanks layout from to →
        IsTrue (crosses (path layout scheme from to) a b) → b ≡ hop layout scheme a to }
    ensures each_rank { (layout : Shape) (scheme : Scheme) (from to a : ℕ) → AreRanks layout from to →
        IsTrue (passes (path layout scheme from to) a) → a ≢ to →
        IsTrue (crosses (path layout scheme from to) a (hop layout scheme a to)) }
    ensures first_link { (layout : Shape) (scheme : Scheme) (from to : ℕ) → AreRanks layout from to →
        IsTrue (crosses (path layout scheme from to) from (hop layout scheme from to)) }
{}

/// The links of a path join its ranks: both ends of a link are on the path, and each rank but the sender
/// is the end of a link.
#[tactic(auto, using(crate::proofs::Path::JoinedByLinks::joined))]
pub fn links_join_the_ranks_of_a_path()
    ensures start { (layout : Shape) (scheme : Scheme) (from to a b : ℕ) → AreRanks layout from to →
        IsTrue (crosses (path layout scheme from to) a b) → IsTrue (passes (path layout scheme from to) a) }
    ensures end { (layout : Shape) (scheme : Scheme) (from to a b : ℕ) → AreRanks layout from to →
        IsTrue (crosses (path layout scheme from to) a b) → IsTrue (passes (path layout scheme from to) b) }
    ensures into { (layout : Shape) (scheme : Scheme) (from to b : ℕ) → AreRanks layout from to →
        IsTrue (passes (path layout scheme from to) b) → b ≢ from →
        (a : ℕ) × IsTrue (crosses (path layout scheme from to) a b) }
{}

/// A path goes on from the next hop as if that were the sender: where a message is going doesn't depend on
/// where it came from. So from any rank on a path the rest of it is the path from that rank.
#[tactic(auto, using(crate::proofs::Path::GoesOn::going_on))]
pub fn paths_go_on_as_from_the_next_hop()
    ensures arrives { (layout : Shape) (scheme : Scheme) (from to : ℕ) → AreRanks layout from to →
        hop layout scheme from to ≡ to → path layout scheme from to ≡ from ∷ to ∷ [] }
    ensures goes_on { (layout : Shape) (scheme : Scheme) (from to : ℕ) → AreRanks layout from to →
        hop layout scheme from to ≢ to →
        path layout scheme from to ≡ from ∷ path layout scheme (hop layout scheme from to) to }
    ensures rest { (layout : Shape) (scheme : Scheme) (from to r : ℕ) → AreRanks layout from to →
        IsTrue (passes (path layout scheme from to) r) → r ≢ to →
        IsSuffix (path layout scheme r to) (path layout scheme from to) }
    ensures hop_within { (layout : Shape) (scheme : Scheme) (from to : ℕ) → AreRanks layout from to →
        hop layout scheme from to < layout.ranks }
{}

/// The paths of one sender make a tree with the sender as its root. Each rank on them has one rank before
/// it, its parent, the same on all paths of this sender. No link leads back to the root, but for the root's
/// path to itself.
#[tactic(auto, using(crate::proofs::Path::Tree::tree))]
pub fn paths_of_a_sender_make_a_tree()
    ensures some_parent { (layout : Shape) (scheme : Scheme) (root to : ℕ) → AreRanks layout root to →
        (a : ℕ) × IsTrue (crosses (path layout scheme root to) a to) }
    ensures one_parent { (layout : Shape) (scheme : Scheme) (root to other a b c : ℕ) →
        AreRanks layout root to → AreRanks layout root other →
        IsTrue (crosses (path layout scheme root to) a c) →
        IsTrue (crosses (path layout scheme root other) b c) → a ≡ b }
    ensures root_has_none { (layout : Shape) (scheme : Scheme) (root to a : ℕ) → AreRanks layout root to →
        IsTrue (crosses (path layout scheme root to) a root) → root ≡ to }
{}

/// The tree of a sender grows link by link: the path to a rank is the path to its parent with the link
/// from there, and it is a prefix of each path over that rank.
#[tactic(auto, using(crate::proofs::Path::Tree::growth))]
pub fn trees_grow_link_by_link()
    ensures parent { (layout : Shape) (scheme : Scheme) (root to a b : ℕ) → AreRanks layout root to →
        IsTrue (crosses (path layout scheme root to) a b) → a ≢ root →
        path layout scheme root b ≡ path layout scheme root a ++ b ∷ [] }
    ensures first { (layout : Shape) (scheme : Scheme) (root to b : ℕ) → AreRanks layout root to →
        IsTrue (crosses (path layout scheme root to) root b) → path layout scheme root b ≡ root ∷ b ∷ [] }
    ensures beginning { (layout : Shape) (scheme : Scheme) (root to r : ℕ) → AreRanks layout root to →
        IsTrue (passes (path layout scheme root to) r) → r ≢ root →
        IsPrefix (path layout scheme root r) (path layout scheme root to) }
{}

/// A rank of one's own node is one link away.
#[tactic(auto, using(crate::proofs::Path::Computed::path_within_node))]
pub fn own_node_is_one_link_away()
    ensures { (layout : Shape) (scheme : Scheme) (from to : ℕ) → AreRanks layout from to →
        node layout from ≡ node layout to → path layout scheme from to ≡ from ∷ to ∷ [] }
{}

/// A hop never leads back: on a path to another rank, the rank after a rank isn't one of those before it,
/// and isn't that rank itself.
#[tactic(auto, using(crate::proofs::Path::NoRepeats::hops_never_lead_back))]
pub fn hops_never_lead_back()
    ensures { (layout : Shape) (scheme : Scheme) (from to : ℕ) (before after : List ℕ) (a b : ℕ) →
        AreRanks layout from to → from ≢ to → path layout scheme from to ≡ before ++ a ∷ b ∷ after →
        ¬ IsTrue (passes (before ++ a ∷ []) b) }
{}
