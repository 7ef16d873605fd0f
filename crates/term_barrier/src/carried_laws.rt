//! What a rank carries through a job: its phases, from its first turn until all ranks have passed their last barrier.
//! Each law is the contract of a function that does nothing. It takes what the contracts of calls say, as they say it.
ghost use Rattle.std.specs.Prelude.{◌≡◌, ◌≢◌, ◌<◌, ℕ, false, true, List, [], ◌∷◌};
ghost use Rattle.list_facts.specs.Prefix.{IsPrefix};
ghost use Rattle.msg_codec.specs.declared.letter.Letter.{Letter};
ghost use Rattle.ygm_route.specs.declared.scheme.Scheme.{Scheme};
ghost use Rattle.ygm_route.specs.Layout.{Shape};
ghost use Rattle.world_core.specs.declared.entry.Entry.{Entry};
ghost use Rattle.world_core.specs.Post.{PostState, SamePost};
ghost use Rattle.world_core.specs.Sound.{IsSound};
ghost use Rattle.world_core.specs.World.{Logs, log_of};
ghost use Rattle.comm_rank.specs.declared.turn.Turn.{Turn};
ghost use Rattle.comm_rank.specs.Agrees.{Agrees, Belongs};
ghost use Rattle.comm_rank.specs.Fold.{Applies};
ghost use Rattle.comm_rank.specs.Rank.{HasSent, IsSameRank, Rank, Worked, fresh_rank, held_letters, local_of};
ghost use Rattle.comm_rank.specs.Turns.{HasEnded};
ghost use Rattle.ygm_taps.specs.Heard.{Heard};
ghost use Rattle.term_barrier.specs.declared.polled.Polled.TheVariants.{Left, Waiting as Waits};
ghost use Rattle.term_barrier.specs.declared.polled.Waiting.{Waiting};
ghost use Rattle.term_barrier.specs.Account.{handler_at, with_more};
ghost use Rattle.term_barrier.specs.Barriers.{BarrierState, fresh_barrier};
ghost use Rattle.term_barrier.specs.Carried.{AllCarry, Carries, own_cuts, with_round};
ghost use Rattle.term_barrier.specs.CompleteRun.{OwnLetters};
ghost use Rattle.term_barrier.specs.Cuts.{AreQuietCuts};
ghost use Rattle.term_barrier.specs.Left.{HaveLeft, left_cuts};
ghost use Rattle.term_barrier.specs.Passed.{HasPassed};
ghost use Rattle.term_barrier.specs.Polls.{PollEnded, PolledLeft};
ghost use Rattle.term_barrier.specs.SilentRun.{HavePassed};

use comm_rank::Handler;

/// A new rank with a new barrier carries phase 0, without own letters. As long as it is outside, each own letter that it
/// sends is one more of its phase.
pub fn a_rank_outside_carries_its_own_letters<H: Handler>()
    ensures new { (layout : Shape) (scheme : Scheme) (here most limit : ℕ) (contents : H) (heard : Heard) (rounds : ℕ → ℕ)
        (post : PostState) → let me : Rank H = fresh_rank layout scheme here most contents heard in
        Belongs H.apply H.start me post → post.log here ≡ [] →
        Carries H.apply H.start (λ phase to. []) rounds (fresh_barrier layout here limit) me post }
    ensures sent { (own : ℕ → ℕ → List Letter) (rounds : ℕ → ℕ) (barrier : BarrierState) (old new : Rank H) (l : Letter)
        (post : PostState) → barrier.inside ≡ false → HasSent old new l →
        ((log : List Entry) → Agrees H.apply H.start old log → Agrees H.apply H.start new log) →
        Carries H.apply H.start own rounds barrier old post →
        Carries H.apply H.start (with_more old.here own barrier.left (l ∷ [])) rounds barrier new post }
    ensures entered { (own : ℕ → ℕ → List Letter) (rounds : ℕ → ℕ) (barrier : BarrierState) (me : Rank H)
        (post : PostState) → Carries H.apply H.start own rounds barrier me post →
        Carries H.apply H.start own rounds (record barrier { inside = true }) me post }
{}

/// What a rank carries speaks of its own letters and of its rounds value by value: others with the same values serve as
/// well. Of the rounds, those of the barriers that it has left count.
pub fn the_same_letters_and_rounds_are_carried_too<C>()
    ensures { (apply : Applies C) (start : C → C) (own other : ℕ → ℕ → List Letter) (rounds other_rounds : ℕ → ℕ)
        (barrier : BarrierState) (me : Rank C) (post : PostState) → ((k to : ℕ) → other k to ≡ own k to) →
        ((k : ℕ) → k < barrier.left → other_rounds k ≡ rounds k) →
        Carries apply start own rounds barrier me post → Carries apply start other other_rounds barrier me post }
{}

/// A turn of a rank, outside or inside, keeps what it carries, and so does what happens to any other rank.
pub fn turns_keep_what_a_rank_carries<H: Handler>()
    ensures turned { (own : ℕ → ℕ → List Letter) (rounds : ℕ → ℕ) (barrier : BarrierState) (old new : Rank H)
        (before after : PostState) (turn : Turn) → Worked (record old { stopped = false }) new →
        HasEnded H.apply H.start old new before after turn → Carries H.apply H.start own rounds barrier old before →
        Carries H.apply H.start own rounds barrier new after }
    ensures other { (own : ℕ → ℕ → List Letter) (rounds : ℕ → ℕ) (barrier : BarrierState) (me : Rank H) (here : ℕ)
        (before after : PostState) → me.here ≢ here → SamePost here before after →
        Carries H.apply H.start own rounds barrier me before → Carries H.apply H.start own rounds barrier me after }
{}

/// A poll that waits keeps what its rank carries. One by which the rank leaves its barrier ends the phase: the rank carries
/// the next, without own letters of it, and with the round at which it left. The barrier's number is that of the phase. As
/// the log grows, the cuts of the barriers that the rank has left stay where they are.
pub fn polls_keep_what_a_rank_carries<H: Handler>()
    ensures waited { (own : ℕ → ℕ → List Letter) (rounds : ℕ → ℕ) (old new : BarrierState) (one me : Rank H)
        (before after : PostState) (why : Waiting) → Worked (record one { stopped = false }) me →
        PollEnded H.apply H.start old new one me before after (Waits why) →
        Carries H.apply H.start own rounds old one before → Carries H.apply H.start own rounds new me after }
    ensures left { (own : ℕ → ℕ → List Letter) (rounds : ℕ → ℕ) (old new : BarrierState) (one me : Rank H)
        (before after : PostState) (number round : ℕ) → Worked (record one { stopped = false }) me →
        PollEnded H.apply H.start old new one me before after (Left number round) →
        Carries H.apply H.start own rounds old one before →
        Carries H.apply H.start own (with_round rounds old.left round) new me after }
    ensures number { (old new : BarrierState) (one me : Rank H) (before after : PostState) (number round : ℕ) →
        PollEnded H.apply H.start old new one me before after (Left number round) →
        PolledLeft old new (local_of me (after.log one.here)) number round }
    ensures cuts_stay { (own : ℕ → ℕ → List Letter) (rounds : ℕ → ℕ) (barrier : BarrierState) (one me : Rank H)
        (before after : PostState) → IsSameRank one me → IsPrefix (before.log one.here) (after.log one.here) →
        Carries H.apply H.start own rounds barrier one before → (k : ℕ) → k < barrier.left →
        own_cuts (local_of me (after.log one.here)) rounds k ≡ own_cuts (local_of one (before.log one.here)) rounds k }
{}

/// Where all ranks of a sound world carry their phases and have left so many barriers, each left these at the rounds that
/// it carries, their cuts are quiet, and each rank has passed them. Where none has sent an own letter since, they have all
/// passed their last barrier.
pub fn ranks_that_carry_all_phases_have_passed<H: Handler>()
    ensures left { (world : Logs) (barriers : ℕ) (own : OwnLetters) (rounds : ℕ → ℕ → ℕ) (states : ℕ → BarrierState)
        (members : ℕ → Rank H) (posts : ℕ → PostState) →
        AllCarry H.apply H.start world barriers own rounds states members posts → HaveLeft world barriers rounds }
    ensures quiet { (world : Logs) (barriers : ℕ) (own : OwnLetters) (rounds : ℕ → ℕ → ℕ) (states : ℕ → BarrierState)
        (members : ℕ → Rank H) (posts : ℕ → PostState) → IsSound world →
        AllCarry H.apply H.start world barriers own rounds states members posts →
        AreQuietCuts world.layout.ranks barriers (log_of world) (left_cuts world rounds) }
    ensures each { (world : Logs) (barriers : ℕ) (own : OwnLetters) (rounds : ℕ → ℕ → ℕ) (states : ℕ → BarrierState)
        (members : ℕ → Rank H) (posts : ℕ → PostState) →
        AllCarry H.apply H.start world barriers own rounds states members posts →
        (rank : ℕ) → rank < world.layout.ranks →
        HasPassed (handler_at H.apply world.layout.ranks (λ one. H.start (members one).contents) rank) (own rank)
        (left_cuts world rounds rank) barriers (held_letters (members rank)) (log_of world rank) }
    ensures all { (world : Logs) (barriers : ℕ) (own : OwnLetters) (rounds : ℕ → ℕ → ℕ) (states : ℕ → BarrierState)
        (members : ℕ → Rank H) (posts : ℕ → PostState) → IsSound world →
        AllCarry H.apply H.start world barriers own rounds states members posts →
        ((rank to : ℕ) → rank < world.layout.ranks → own rank barriers to ≡ []) →
        HavePassed H.apply world.layout.ranks barriers (λ one. H.start (members one).contents) own
        (left_cuts world rounds) (λ one. held_letters (members one)) (log_of world) }
{}
