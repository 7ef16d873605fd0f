//! The rules on a control letter.
ghost use Rattle.std.specs.Prelude.{◌≡◌, ◌<◌, ℕ, true, not, nat_lt, is_some, length, [], ◌∷◌};
ghost use Rattle.list_facts.specs.Below.{some_below};
ghost use Rattle.msg_codec.specs.declared.letter.Letter.{Letter};
ghost use Rattle.msg_codec.specs.Control.{is_control, is_count, is_total, round_of, run_of, sent_of, IsCountFrom, IsTotalTo};
ghost use Rattle.msg_codec.specs.Letter.{letter_of};
ghost use Rattle.world_core.specs.ControlRules.{count_early, count_wrong, has_to_forward, run_taken, sent_taken, total_early, total_wrong};
ghost use Rattle.world_core.specs.Counts.{count_taken};
ghost use Rattle.world_core.specs.Local.{to_forward};
ghost use Rattle.world_core.specs.Rules.{first_broken_of};
ghost use Rattle.world_core.specs.Rules.Deed.{Puts};
ghost use Rattle.world_core.specs.Trial.{control_rules, local_tried};

use crate::Why;
use crate::control_letters::{count_taken, counts, total_taken, totals};
use crate::known_rounds::Sums;
use crate::rules::Trial;
use crate::search::{own_count, pair_put_count, pair_taken_count, run_count};
use msg_codec::{Control, LetterRef, control_of};

/// The first of these rules that the put of a control letter, alone in its batch, to a rank breaks.
pub fn refusal_of_control(me: &Trial<'_>, to: u32, l: LetterRef<'_>) -> Option<Why>
    requires { is_control (letter_of l) ≡ true }
    ensures { result ≡ first_broken_of control_rules (local_tried me.now) (Puts to (letter_of l.entry ∷ [])) }
{
    match control_of(l) {
        Some(Control::Count { rank, q, s, r }) => {
            if rank != me.here || to != 0 {
                return Some(Why::WrongControl);
            }
            refusal_of_count(me, q, s, r)
        }
        Some(Control::Total { to: rank, q, s, r }) => {
            if me.here != 0 || rank != to {
                return Some(Why::WrongControl);
            }
            refusal_of_total(me, to, q, s, r)
        }
        None => Some(Why::WrongControl),
    }
}

/// The first of these rules that a rank breaks by a Count of its own, put to rank 0, with these numbers.
fn refusal_of_count(me: &Trial<'_>, q: u64, s: u64, r: u64) -> Option<Why>
    ensures { (l : Letter) → IsCountFrom me.now.here q s r l →
        result ≡ first_broken_of control_rules (local_tried me.now) (Puts 0 (l ∷ [])) }
{
    if is_count_early(me, q) {
        return Some(Why::CountEarly);
    }
    if has_to_forward(me) {
        return Some(Why::CountUnforwarded);
    }
    if is_count_wrong(me, s, r) {
        return Some(Why::CountWrong);
    }
    None
}

/// Whether a Count of round `q` comes too early.
fn is_count_early(me: &Trial<'_>, q: u64) -> bool
    ensures { (to : ℕ) (l : Letter) → is_count l ≡ true → round_of l ≡ q →
        result ≡ count_early (local_tried me.now) to l }
{
    q != counts(me.log) || (q > 0 && total_taken(me.log, me.here, u128::from(q - 1)).is_none())
}

/// Whether the rank has a letter to forward.
fn has_to_forward(me: &Trial<'_>) -> bool
    ensures { result ≡ has_to_forward (local_tried me.now) }
{
    for from in 0..me.layout.ranks() {
        if holds_from(me, from) {
            return true;
        }
    }
    false
}

/// Whether the rank has a letter to forward that this rank sent.
fn holds_from(me: &Trial<'_>, from: u32) -> bool
    requires { from < me.now.layout.now.ranks }
    ensures { result ≡
        some_below (λ to. nat_lt 0 (length (to_forward (local_tried me.now) from to))) me.now.layout.now.ranks }
{
    for to in 0..me.layout.ranks() {
        if holds_pair(me, from, to) {
            return true;
        }
    }
    false
}

/// Whether the rank has a letter to forward that the one sent to the other.
fn holds_pair(me: &Trial<'_>, from: u32, to: u32) -> bool
    requires from_within { from < me.now.layout.now.ranks }
    requires to_within { to < me.now.layout.now.ranks }
    ensures { result ≡ nat_lt 0 (length (to_forward (local_tried me.now) from to)) }
{
    if from == me.here || to == me.here {
        return false;
    }
    pair_put_count(me.log, from, to) < pair_taken_count(me.log, from, to)
}

/// Whether a Count with these numbers of letters sent and run doesn't carry what the log says.
fn is_count_wrong(me: &Trial<'_>, s: u64, r: u64) -> bool
    ensures { (to : ℕ) (l : Letter) → is_count l ≡ true → sent_of l ≡ s → run_of l ≡ r →
        result ≡ count_wrong (local_tried me.now) to l }
{
    u128::from(s) != own_count(me.log, me.here) || u128::from(r) != run_count(me.log, me.here)
}

/// The first of these rules that rank 0 breaks by a Total to a rank, put there, with these numbers.
fn refusal_of_total(me: &Trial<'_>, to: u32, q: u64, s: u64, r: u64) -> Option<Why>
    requires { me.now.here ≡ 0 }
    ensures { (l : Letter) → IsTotalTo to q s r l →
        result ≡ first_broken_of control_rules (local_tried me.now) (Puts to (l ∷ [])) }
{
    if is_total_early(me, to, q) {
        return Some(Why::TotalEarly);
    }
    if is_total_wrong(me, q, s, r) {
        return Some(Why::TotalWrong);
    }
    None
}

/// Whether a Total of round `q` to a rank comes too early.
fn is_total_early(me: &Trial<'_>, to: u32, q: u64) -> bool
    ensures { (l : Letter) → is_total l ≡ true → round_of l ≡ q →
        result ≡ total_early (local_tried me.now) to l }
{
    u128::from(q) != totals(me.log, to) || lacks_count(me, q)
}

/// Whether the Count of a round of some rank wasn't taken.
fn lacks_count(me: &Trial<'_>, q: u64) -> bool
    ensures { result ≡
        some_below (λ rank. not (is_some (count_taken rank q me.now.log.now))) me.now.layout.now.ranks }
{
    for rank in 0..me.layout.ranks() {
        if count_taken(me.log, rank, q).is_none() {
            return true;
        }
    }
    false
}

/// Whether a Total with these sums of round `q` doesn't carry those of the Counts of its round.
fn is_total_wrong(me: &Trial<'_>, q: u64, s: u64, r: u64) -> bool
    ensures { (to : ℕ) (l : Letter) → is_total l ≡ true → round_of l ≡ q → sent_of l ≡ s → run_of l ≡ r →
        result ≡ total_wrong (local_tried me.now) to l }
{
    let sums = sums_taken(me, q);
    u128::from(s) != sums.sent || u128::from(r) != sums.run
}

/// The sums of the Counts of a round that the rank took.
fn sums_taken(me: &Trial<'_>, q: u64) -> Sums
    ensures sent { result.sent ≡ sent_taken (local_tried me.now) q }
    ensures run { result.run ≡ run_taken (local_tried me.now) q }
{
    let mut sums = Sums { sent: 0, run: 0 };
    for rank in 0..me.layout.ranks() {
        if let Some(one) = count_taken(me.log, rank, q) {
            sums.sent += u128::from(one.sent);
            sums.run += u128::from(one.run);
        }
    }
    sums
}
