//! What the definitions mean. Each law is the contract of a function that does nothing.
ghost use Rattle.std.specs.Prelude.{◌≡◌, ◌≤◌, ◌-◌, ℕ, Bool, IsTrue, List, ◌++◌, AllPairs, Contains, drop, filter, length, take};
ghost use Rattle.list_facts.specs.Prefix.{IsPrefix, IsSuffix};
ghost use Rattle.list_facts.specs.Sublist.{IsSublist};

/// The prefixes of a list are what `take` gives, and its suffixes are what `drop` gives.
#[tactic(auto, using(crate::proofs::Prefix::cuts))]
pub fn prefixes_and_suffixes_are_cuts<X>()
    ensures taken { (count : ℕ) (whole : List X) → IsPrefix (take count whole) whole }
    ensures is_taken { (prefix whole : List X) → IsPrefix prefix whole → prefix ≡ take (length prefix) whole }
    ensures dropped { (count : ℕ) (whole : List X) → IsSuffix (drop count whole) whole }
    ensures is_dropped { (suffix whole : List X) → IsSuffix suffix whole →
        suffix ≡ drop (length whole - length suffix) whole }
{}

/// Prefixes are an order. Of two prefixes of one list, the shorter is a prefix of the longer.
#[tactic(auto, using(crate::proofs::Prefix::order))]
pub fn prefixes_are_in_order<X>()
    ensures itself { (whole : List X) → IsPrefix whole whole }
    ensures through { (prefix middle whole : List X) → IsPrefix prefix middle → IsPrefix middle whole →
        IsPrefix prefix whole }
    ensures both_ways { (one other : List X) → IsPrefix one other → IsPrefix other one → one ≡ other }
    ensures shorter { (one other whole : List X) → IsPrefix one whole → IsPrefix other whole →
        length one ≤ length other → IsPrefix one other }
{}

/// Sublists are an order: leaving out nothing, or more, and only a sublist of the same length is the whole.
#[tactic(auto, using(crate::proofs::Sublist::order))]
pub fn sublists_are_in_order<X>()
    ensures itself { (whole : List X) → IsSublist whole whole }
    ensures through { (part middle whole : List X) → IsSublist part middle → IsSublist middle whole →
        IsSublist part whole }
    ensures no_longer { (part whole : List X) → IsSublist part whole → length part ≤ length whole }
    ensures of_its_length { (part whole : List X) → IsSublist part whole → length whole ≤ length part → part ≡ whole }
{}

/// A sublist keeps the order: what holds of each element and each later one of the list holds in the sublist,
/// whose elements are elements of the list.
pub fn a_sublist_keeps_the_order<X>()
    ensures pairs { (test : X → X → Bool) (part whole : List X) → IsSublist part whole →
        AllPairs (λ one later. IsTrue (test one later)) whole → AllPairs (λ one later. IsTrue (test one later)) part }
    ensures elements { (part whole : List X) (x : X) → IsSublist part whole → Contains part x → Contains whole x }
{}

/// Ways to leave elements out: by a test, by taking a prefix, and by taking sublists of two joined lists.
#[tactic(auto, using(crate::proofs::Sublist::ways))]
pub fn elements_are_left_out<X>()
    ensures tested { (test : X → Bool) (whole : List X) → IsSublist (filter test whole) whole }
    ensures prefix { (prefix whole : List X) → IsPrefix prefix whole → IsSublist prefix whole }
    ensures joined { (one whole other more : List X) → IsSublist one whole → IsSublist other more →
        IsSublist (one ++ other) (whole ++ more) }
{}

#[test]
fn the_laws_can_be_cited() {
    prefixes_and_suffixes_are_cuts::<u64>();
    prefixes_are_in_order::<u64>();
    sublists_are_in_order::<u64>();
    a_sublist_keeps_the_order::<u64>();
    elements_are_left_out::<u64>();
}
