//! What a log put and took of control letters, and before them.
ghost use Rattle.std.specs.Prelude.{◌≡◌, ◌&&◌, ◌==◌, [], ◌∷◌, length, filter, option_map, if◌then◌else◌, Some, None};
ghost use Rattle.std.specs.List.{find, list_any};
ghost use Rattle.msg_codec.specs.Control.{is_control, is_count, is_total, round_of};
ghost use Rattle.msg_codec.specs.Letter.{letter_of};
ghost use Rattle.world_core.specs.Counts.{before_count, count_taken, counts, is_count_of, is_total_to, puts_count, total_taken, totals};
ghost use Rattle.world_core.specs.Pairs.{own_count, run_count};
ghost use Rattle.world_core.specs.Trial.{numbers_read};

use crate::Entry;
use crate::kinds::{is_control, is_count, is_total};
use crate::search::{run_by, sent_by};
use msg_codec::{Control, LetterRef, Letters, control_of};

/// The numbers of letters sent and run that a control letter carries.
#[derive(Clone, Copy)]
pub struct Numbers {
    pub sent: u64,
    pub run: u64,
}

/// Whether a batch has a control letter.
#[tactic(auto, using(list_facts::proofs::Tests::any_hit, list_facts::proofs::Tests::any_all))]
pub fn has_control(letters: &Letters) -> bool
    ensures { result ≡ list_any is_control letters.now }
{
    for k in 0..letters.count() {
        if is_control(letters.letter_at(k)) {
            return true;
        }
    }
    false
}

/// Whether a batch has a Count.
#[tactic(auto, using(list_facts::proofs::Tests::any_hit, list_facts::proofs::Tests::any_none, list_facts::proofs::Tests::any_all))]
fn has_count(letters: &Letters) -> bool
    ensures { result ≡ list_any is_count letters.now }
{
    for k in 0..letters.count() {
        if is_count(letters.letter_at(k)) {
            return true;
        }
    }
    false
}

/// Whether an entry puts a Count.
fn puts_count(entry: &Entry) -> bool
    ensures { result ≡ puts_count entry.now }
{
    match entry {
        Entry::Put { letters, .. } => has_count(letters),
        Entry::Took { .. } => false,
    }
}

/// The number of Counts that a log put.
pub fn counts(log: &[Entry]) -> u64
    ensures { result ≡ counts log.now }
{
    let mut count = 0;
    for entry in log {
        if puts_count(entry) {
            count += 1;
        }
    }
    count
}

/// The number of letters of its own that the log of a rank put before the Count of a round, or in all if it didn't put
/// that Count.
pub fn own_before(log: &[Entry], rank: u32, q: u64) -> u128
    ensures { result ≡ own_count rank (before_count q log.now) }
{
    let mut left = q;
    let mut count: u128 = 0;
    for entry in log {
        if puts_count(entry) {
            if left == 0 {
                return count;
            }
            left -= 1;
        }
        count += u128::from(sent_by(entry, rank));
    }
    count
}

/// The number of letters for a rank that its log took before the Count of a round, or in all if it didn't put that
/// Count.
pub fn run_before(log: &[Entry], rank: u32, q: u64) -> u128
    ensures { result ≡ run_count rank (before_count q log.now) }
{
    let mut left = q;
    let mut count: u128 = 0;
    for entry in log {
        if puts_count(entry) {
            if left == 0 {
                return count;
            }
            left -= 1;
        }
        count += u128::from(run_by(entry, rank));
    }
    count
}

/// The number of Totals that a log put to a rank.
pub fn totals(log: &[Entry], to: u32) -> u128
    ensures { result ≡ totals to log.now }
{
    let mut count: u128 = 0;
    for entry in log {
        count += u128::from(totals_by(entry, to));
    }
    count
}

/// The number of Totals that an entry put to a rank.
fn totals_by(entry: &Entry, to: u32) -> u64
    ensures { result ≡ totals to (entry.now ∷ []) }
{
    match entry {
        Entry::Put { to: rank, letters } if *rank == to => total_number(letters),
        _ => 0,
    }
}

/// The number of Totals in a batch.
fn total_number(letters: &Letters) -> u64
    ensures { result ≡ length (filter is_total letters.now) }
{
    let mut count = 0;
    for k in 0..letters.count() {
        if is_total(letters.letter_at(k)) {
            count += 1;
        }
    }
    count
}

/// The numbers in the Count of a round that a log took from a rank.
pub fn count_taken(log: &[Entry], rank: u32, q: u64) -> Option<Numbers>
    ensures { result ≡ option_map numbers_read (count_taken rank q log.now) }
{
    for entry in log {
        let found = count_by(entry, rank, q);
        if found.is_some() {
            return found;
        }
    }
    None
}

/// The numbers in the Count of a round that an entry took from a rank.
fn count_by(entry: &Entry, rank: u32, q: u64) -> Option<Numbers>
    ensures { result ≡ option_map numbers_read (count_taken rank q (entry.now ∷ [])) }
{
    match entry {
        Entry::Put { .. } => None,
        Entry::Took { from, letters } => {
            if *from != rank {
                return None;
            }
            count_in(letters, rank, q)
        }
    }
}

/// The numbers in the first Count of a round of a rank in a batch.
fn count_in(letters: &Letters, rank: u32, q: u64) -> Option<Numbers>
    ensures { result ≡ option_map numbers_read (find (λ l. is_count_of rank l && (round_of l == q)) letters.now) }
{
    for k in 0..letters.count() {
        let found = read_count(letters.letter_at(k), rank, q);
        if found.is_some() {
            return found;
        }
    }
    None
}

/// The numbers in a letter that is the Count of a round of a rank.
fn read_count(l: LetterRef<'_>, sender: u32, round: u64) -> Option<Numbers>
    ensures { result ≡ (if is_count_of sender (letter_of l.entry) && (round_of (letter_of l.entry) == round)
        then Some (numbers_read (letter_of l.entry)) else None) }
{
    match control_of(l) {
        Some(Control::Count { rank, q, s, r }) if rank == sender && q == round => {
            Some(Numbers { sent: s, run: r })
        }
        _ => None,
    }
}

/// The numbers in the Total of a round that the log of a rank took.
pub fn total_taken(log: &[Entry], here: u32, q: u128) -> Option<Numbers>
    ensures { result ≡ option_map numbers_read (total_taken here q log.now) }
{
    for entry in log {
        let found = total_by(entry, here, q);
        if found.is_some() {
            return found;
        }
    }
    None
}

/// The numbers in the Total of a round that an entry of a rank took.
fn total_by(entry: &Entry, here: u32, q: u128) -> Option<Numbers>
    ensures { result ≡ option_map numbers_read (total_taken here q (entry.now ∷ [])) }
{
    match entry {
        Entry::Put { .. } => None,
        Entry::Took { from, letters } => {
            if *from != 0 {
                return None;
            }
            total_in(letters, here, q)
        }
    }
}

/// The numbers in the first Total of a round to a rank in a batch.
fn total_in(letters: &Letters, here: u32, q: u128) -> Option<Numbers>
    ensures { result ≡ option_map numbers_read (find (λ l. is_total_to here l && (round_of l == q)) letters.now) }
{
    for k in 0..letters.count() {
        let found = read_total(letters.letter_at(k), here, q);
        if found.is_some() {
            return found;
        }
    }
    None
}

/// The numbers in a letter that is the Total of a round to a rank.
fn read_total(l: LetterRef<'_>, here: u32, round: u128) -> Option<Numbers>
    ensures { result ≡ (if is_total_to here (letter_of l.entry) && (round_of (letter_of l.entry) == round)
        then Some (numbers_read (letter_of l.entry)) else None) }
{
    match control_of(l) {
        Some(Control::Total { to, q, s, r }) if to == here && u128::from(q) == round => {
            Some(Numbers { sent: s, run: r })
        }
        _ => None,
    }
}
