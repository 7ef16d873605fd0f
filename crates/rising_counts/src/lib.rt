//! Counts that rise one by one and stay at the largest value of their type. A call that fails for a fault of a
//! device, or that finds a link full, shows it by such a count of the object that it was given.
#![tactic(auto)]

ghost use Rattle.std.specs.Prelude.{◌≡◌, ◌<◌, ◌≤◌, ◌⊎◌, ℕ};
ghost use Rattle.rising_counts.specs.Rising.{Rose, max_count, next_count};

/// A count that rose is greater than before, unless it was the largest already. Adding one makes a count rise. It has
/// risen for good, however it goes on.
pub fn a_count_that_rose_is_greater()
    ensures greater { (before now : ℕ) → Rose before now → (before < now) ⊎ (max_count ≤ before) }
    ensures by_one { (count : ℕ) → Rose count (next_count count) }
    ensures for_good { (before now later : ℕ) → Rose before now → now ≤ later → Rose before later }
{}

/// The count plus one. `u64::MAX` stays `u64::MAX`.
pub fn one_more(count: u64) -> u64
    ensures value { result ≡ next_count count }
{
    count.saturating_add(1)
}
