//! General facts about lists, which speak of no message, log or line: prefixes, suffixes and sublists, and
//! lemmas that the proofs of the crates above cite.
#![tactic(auto)]

pub mod laws;
