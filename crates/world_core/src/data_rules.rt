//! The rules on data letters.
ghost use Rattle.std.specs.Prelude.{◌≡◌, ◌≢◌, ◌<◌, ◌≤◌, ◌&&◌, ◌==◌, ℕ, true, false, length, take};
ghost use Rattle.std.specs.List.{AllByRecursion, list_any};
ghost use Rattle.msg_codec.specs.Letter.{letter_of};
ghost use Rattle.world_core.specs.ControlRules.{is_counted, is_free, is_idle, sent_while_counted};
ghost use Rattle.world_core.specs.Local.{having_put, to_forward};
ghost use Rattle.world_core.specs.Pairs.{is_data};
ghost use Rattle.world_core.specs.Rules.{first_broken_of, is_first_of, no_such_rank, not_held, some_letter, too_many_sent, wrong_hop};
ghost use Rattle.world_core.specs.Rules.Deed.{Puts};
ghost use Rattle.world_core.specs.Trial.{data_rules, local_tried};

use crate::Why;
use crate::control_letters::{counts, run_before};
use crate::kinds::{is_own, is_same};
use crate::known_rounds::barrier_start;
use crate::limits::MOST_LETTERS;
use crate::rules::Trial;
use crate::search::{nth_taken, own_count, pair_count, pair_put_count, run_count};
use msg_codec::{LetterRef, Letters};
use ygm_route::next_hop;

/// The first of these rules that the put of data letters to a rank breaks.
pub fn refusal_of_data(me: &Trial<'_>, to: u32, letters: &Letters) -> Option<Why>
    requires ranks { no_such_rank (local_tried me.now) (Puts to letters.now) ≡ false }
    requires kind { AllByRecursion (λ l. is_data l ≡ true) letters.now }
    ensures { result ≡ first_broken_of data_rules (local_tried me.now) (Puts to letters.now) }
{
    if has_wrong_hop(me, to, letters) {
        return Some(Why::WrongHop);
    }
    if has_unheld(me, to, letters) {
        return Some(Why::NotHeld);
    }
    if has_too_many(me, to, letters) {
        return Some(Why::TooManySent);
    }
    if is_sent_while_counted(me, to, letters) {
        return Some(Why::SentWhileCounted);
    }
    None
}

fn has_wrong_hop(me: &Trial<'_>, to: u32, letters: &Letters) -> bool
    requires ranks { no_such_rank (local_tried me.now) (Puts to letters.now) ≡ false }
    requires kind { AllByRecursion (λ l. is_data l ≡ true) letters.now }
    ensures { result ≡ some_letter wrong_hop (local_tried me.now) (Puts to letters.now) }
{
    for k in 0..letters.count() {
        let l = letters.letter_at(k);
        if next_hop(me.layout, me.scheme, me.here, l.to) != to {
            return true;
        }
    }
    false
}

fn has_unheld(me: &Trial<'_>, to: u32, letters: &Letters) -> bool
    requires ranks { no_such_rank (local_tried me.now) (Puts to letters.now) ≡ false }
    requires kind { AllByRecursion (λ l. is_data l ≡ true) letters.now }
    ensures { result ≡ some_letter not_held (local_tried me.now) (Puts to letters.now) }
{
    for k in 0..letters.count() {
        let l = letters.letter_at(k);
        if l.from != me.here && !is_next(me, letters, k, l) {
            return true;
        }
    }
    false
}

/// Whether a letter of another rank is the next that the rank has to forward, after it has also put the first
/// `k` letters of a batch.
fn is_next(me: &Trial<'_>, letters: &Letters, k: u64, l: LetterRef<'_>) -> bool
    requires within { k ≤ length letters.now }
    requires from_within { l.from < me.now.layout.now.ranks }
    requires to_within { l.to < me.now.layout.now.ranks }
    requires other { l.from ≢ me.now.here }
    ensures { (to : ℕ) → result ≡
        is_first_of (to_forward (having_put (local_tried me.now) to (take k letters.now)) l.entry.from l.entry.to) (letter_of l.entry) }
{
    if l.to == me.here {
        return false;
    }
    let put = pair_put_count(me.log, l.from, l.to);
    let already = put + u128::from(pair_count(letters, k, l.from, l.to));
    match nth_taken(me.log, l.from, l.to, already) {
        Some(held) => is_same(held, l),
        None => false,
    }
}

fn has_too_many(me: &Trial<'_>, to: u32, letters: &Letters) -> bool
    ensures { result ≡ some_letter too_many_sent (local_tried me.now) (Puts to letters.now) }
{
    let mut sent = own_count(me.log, me.here);
    for k in 0..letters.count() {
        if is_own(letters.letter_at(k), me.here) {
            if sent >= u128::from(MOST_LETTERS) {
                return true;
            }
            sent += 1;
        }
    }
    false
}

fn is_sent_while_counted(me: &Trial<'_>, to: u32, letters: &Letters) -> bool
    requires kind { AllByRecursion (λ l. is_data l ≡ true) letters.now }
    ensures { result ≡ some_letter sent_while_counted (local_tried me.now) (Puts to letters.now) }
{
    has_own(letters, me.here) && !is_free(me)
}

/// Whether a batch has a letter that a rank sent.
#[tactic(auto, using(list_facts::proofs::Tests::any_hit, list_facts::proofs::Tests::any_all))]
fn has_own(letters: &Letters, rank: u32) -> bool
    ensures { result ≡ list_any (λ l. is_data l && (l.from == rank)) letters.now }
{
    for k in 0..letters.count() {
        if is_own(letters.letter_at(k), rank) {
            return true;
        }
    }
    false
}

/// Whether the rank may put a letter of its own.
fn is_free(me: &Trial<'_>) -> bool
    ensures { result ≡ is_free (local_tried me.now) }
{
    !(is_counted(me) && is_idle(me))
}

/// Whether the rank put a Count of a barrier that didn't end for it yet.
fn is_counted(me: &Trial<'_>) -> bool
    ensures { result ≡ is_counted (local_tried me.now) }
{
    barrier_start(me.log, me.here) < u128::from(counts(me.log))
}

/// Whether the rank took no letter for itself since its last Count.
fn is_idle(me: &Trial<'_>) -> bool
    ensures { result ≡ is_idle (local_tried me.now) }
{
    let last = counts(me.log).saturating_sub(1);
    run_count(me.log, me.here) == run_before(me.log, me.here, last)
}
