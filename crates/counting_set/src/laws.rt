//! The laws of a counting set. Each is the contract of a function that does nothing.
ghost use Rattle.std.specs.Prelude.{◌≡◌, ◌≢◌, ◌↔◌, ◌+◌, ◌^◌, ◌<◌, ◌≤◌, ℕ, List, [], ◌∷◌, ◌++◌, Some, All, Contains, bytes_eq, length, map, sum_by};
ghost use Rattle.std.specs.List.{IsDistinct};
ghost use Rattle.msg_codec.specs.Bytes.{AreBytes};
ghost use Rattle.msg_codec.specs.Limits.{max_body};
ghost use Rattle.msg_codec.specs.declared.letter.Letter.{Letter};
ghost use Rattle.comm_rank.specs.Fold.{fold_from, handed_from};
ghost use Rattle.counting_set.specs.ItemCount.{item_count_of, spelled_item_count};
ghost use Rattle.counting_set.specs.Counting.{Counts, AddsNoZero, AreCounted, HasCounts, counting_apply, added, count_in, capped, adds, adds_of, add_letter};

use crate::counting::MAX_ITEM;
use msg_codec::{Body, Wire};

/// After letters that add one of each line, a new shard has each distinct line once, with the number of lines
/// equal to it, and nothing else.
pub fn adds_of_one_are_counted()
    ensures { (here ranks : ℕ) (letters : List Letter) (lines : List (List ℕ)) →
        map adds letters ≡ map (λ line. Some (line, 1)) lines → length lines < 2 ^ 64 →
        AreCounted (fold_from counting_apply here ranks [] letters) lines }
{}

/// Where any number of an item is added, the items keep their order, a new item goes last, and the counts of
/// others are unchanged.
pub fn a_new_item_goes_last()
    ensures known { (item : List ℕ) (count : ℕ) (contents : Counts) → Contains (map (λ e. e.0) contents) item →
        map (λ e. e.0) (added item count contents) ≡ map (λ e. e.0) contents }
    ensures new { (item : List ℕ) (count : ℕ) (contents : Counts) → ¬ Contains (map (λ e. e.0) contents) item →
        map (λ e. e.0) (added item count contents) ≡ map (λ e. e.0) contents ++ item ∷ [] }
    ensures others { (item other : List ℕ) (count : ℕ) (contents : Counts) → other ≢ item →
        count_in (added item count contents) other ≡ count_in contents other }
{}

/// Whatever letters run, in any order, a shard that began empty has no item twice.
pub fn no_item_stands_twice()
    ensures { (here ranks : ℕ) (letters : List Letter) →
        IsDistinct bytes_eq (map (λ e. e.0) (fold_from counting_apply here ranks [] letters)) }
{}

/// Whatever letters run, the count of an item is its count before plus what they add to it, up to the largest
/// value of the type.
pub fn counts_are_sums()
    ensures { (here ranks : ℕ) (contents : Counts) (letters : List Letter) (item : List ℕ) →
        count_in contents item < 2 ^ 64 → All (λ l. AreBytes l.body) letters →
        count_in (fold_from counting_apply here ranks contents letters) item ≡ capped (count_in contents item + sum_by (adds_of item) letters) }
{}

/// What letters add to a shard that began empty is there. Where the sums are below the limit of a count and no letter
/// adds 0, each item to which they add is there once, with the sum, and nothing else is. Always, an item has a count
/// above 0 exactly where that is the sum, up to the largest value of the type.
pub fn letters_add_up()
    ensures below { (here ranks : ℕ) (letters : List Letter) → All AddsNoZero letters →
        ((item : List ℕ) → sum_by (adds_of item) letters < 2 ^ 64) →
        HasCounts (fold_from counting_apply here ranks [] letters) (λ item. sum_by (adds_of item) letters) }
    ensures limit { (here ranks : ℕ) (letters : List Letter) → All (λ l. AreBytes l.body) letters →
        (item : List ℕ) (count : ℕ) → 0 < count →
        Contains (fold_from counting_apply here ranks [] letters) (item, count)
        ↔ (count ≡ capped (sum_by (adds_of item) letters)) }
{}

/// A counting set sends nothing.
pub fn counting_sends_nothing()
    ensures { (here ranks : ℕ) (contents : Counts) (letters : List Letter) →
        handed_from counting_apply here ranks contents letters ≡ [] }
{}

/// The letter that `count_insert` sends adds one of its item.
pub fn an_insert_adds_one()
    ensures adds { (to from : ℕ) (item : List ℕ) → length item ≤ MAX_ITEM → adds (add_letter to from item) ≡ Some (item, 1) }
    ensures limit { MAX_ITEM ≡ 1000100 }
{}

/// An item and its count are the pair of them.
pub fn item_counts_are_pairs()
    ensures { (item : List ℕ) (count : ℕ) → ⟦<(Body, u64) as Wire>⟧.spelled (item, count) ≡ spelled_item_count item count }
{}

/// An encoded item and count are decoded again.
pub fn item_counts_are_read_again()
    ensures { (item : List ℕ) (count : ℕ) → length item ≤ max_body → count < 2 ^ 64 → item_count_of (spelled_item_count item count) ≡ Some (item, count) }
{}

/// Different items or counts have different encodings.
pub fn no_two_item_counts_are_spelled_alike()
    ensures { (item other : List ℕ) (count number : ℕ) → length item ≤ max_body → length other ≤ max_body → count < 2 ^ 64 → number < 2 ^ 64 → spelled_item_count item count ≡ spelled_item_count other number → (item ≡ other) × (count ≡ number) }
{}
