//! What the contracts add up to. Each law is the contract of a function that does nothing.
ghost use Rattle.std.specs.Prelude.{◌≡◌, ◌≢◌, ◌<◌, ℕ, true, IsTrue, List, [], ◌∷◌, ◌++◌};
ghost use Rattle.list_facts.specs.Prefix.{IsPrefix};
ghost use Rattle.msg_codec.specs.Control.{is_count, is_total};
ghost use Rattle.msg_codec.specs.declared.letter.Letter.{Letter};
ghost use Rattle.world_core.specs.declared.entry.Entry.{Entry};
ghost use Rattle.world_core.specs.declared.entry.Entry.TheVariants.{Put};
ghost use Rattle.world_core.specs.Pairs.{arrived, for_rank, is_data};
ghost use Rattle.world_core.specs.Sound.{IsSound};
ghost use Rattle.world_core.specs.World.{Logs, log_of};
ghost use Rattle.comm_rank.specs.Agrees.{Agrees, MayTurn, PutsData};
ghost use Rattle.comm_rank.specs.Rank.{HasSent, IsIdle, Rank, ran_at, ran_from, sent_to};
ghost use Rattle.comm_rank.specs.Turns.{CutOff, Gained};

use crate::Handler;

/// In a sound world, what ran at a rank from a sender is a prefix of what that sender sent there: each letter ran at
/// most once, and in order. This is so at every moment, whatever carries the letters.
pub fn what_ran_is_the_beginning_of_what_was_sent<H>()
    ensures { (world : Logs) (sender me : Rank H) → IsSound world →
        sender.here < world.layout.ranks → me.here < world.layout.ranks →
        IsPrefix (ran_from me (log_of world me.here) sender.here) (sent_to sender (log_of world sender.here) me.here) }
{}

/// Where what came for a rank is some letters and then those that still wait, those letters ran.
pub fn what_ran_is_what_came_without_what_waits<H>()
    ensures { (me : Rank H) (log : List Entry) (run : List Letter) →
        arrived me.here log ≡ run ++ for_rank me.here me.waiting → ran_at me log ≡ run }
{}

/// What came for a rank is what ran, followed by what still waits: while the rank agrees with its log, and after a turn
/// that was cut off.
pub fn what_came_has_run_or_waits<H: Handler>()
    ensures agrees { (me : Rank H) (log : List Entry) → Agrees H.apply H.start me log →
        arrived me.here log ≡ ran_at me log ++ for_rank me.here me.waiting }
    ensures cut_off { (old me : Rank H) (before after : List Entry) →
        me.here ≡ old.here → CutOff H.apply old me before after →
        arrived me.here after ≡ ran_at me after ++ for_rank me.here me.waiting }
{}

/// A letter that a rank sent is the last to its destination, and what the rank has sent to others is unchanged.
pub fn a_letter_that_is_sent_is_the_last_to_its_destination<H>()
    ensures last { (old new : Rank H) (l : Letter) (log : List Entry) →
        IsTrue (is_data l) → l.from ≡ old.here → HasSent old new l →
        sent_to new log l.to ≡ sent_to old log l.to ++ l ∷ [] }
    ensures others { (old new : Rank H) (l : Letter) (log : List Entry) (to : ℕ) → to ≢ l.to → HasSent old new l →
        sent_to new log to ≡ sent_to old log to }
{}

/// A rank that has put data letters alone may take a turn, and a turn puts data letters alone.
#[tactic(auto, using(crate::proofs::Agrees::MayTurn::may_turn_data, crate::proofs::Agrees::AfterPuts::data_gained))]
pub fn a_turn_puts_data_letters_alone<H>()
    ensures may_turn { (me : Rank H) (log : List Entry) → PutsData log → MayTurn me log }
    ensures after { (before after taken placed : List Entry) → Gained before after taken placed →
        PutsData before → PutsData after }
{}

/// A rank that puts a control letter still agrees with its log: it puts a Count only while it is idle.
pub fn a_control_letter_that_is_put_keeps_agreement<H: Handler>()
    ensures count { (me : Rank H) (log : List Entry) (to : ℕ) (l : Letter) →
        is_count l ≡ true → IsIdle me → Agrees H.apply H.start me log →
        Agrees H.apply H.start me (log ++ Put to (l ∷ []) ∷ []) }
    ensures total { (me : Rank H) (log : List Entry) (to : ℕ) (l : Letter) →
        is_total l ≡ true → Agrees H.apply H.start me log →
        Agrees H.apply H.start me (log ++ Put to (l ∷ []) ∷ []) }
{}
