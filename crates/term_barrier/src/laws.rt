//! What the logs of ranks that pass barriers add up to: a complete run of the letters that ranks send by themselves.
//! Each law is the contract of a function that does nothing. The laws speak of logs alone, whatever carries the letters,
//! and of any handler.
//!
//! A rank has an account of its own log. It begins with one, and its turns, its own letters, its polls and the ends of
//! its phases keep it. Once all ranks have passed their last barrier, their accounts and quiet cuts make a complete run.
//!
//! What a barrier knows of rounds is that of its rank's log, while it agrees with that log.
//!
//! A rank learns from the Totals that it took at which round it left a barrier. That round is the same for all ranks, and
//! gives each the place of the barrier's quiet cut in its own log.
ghost use Rattle.std.specs.Prelude.{◌≡◌, ◌⊎◌, ◌+◌, ◌-◌, ◌<◌, ◌≤◌, ℕ, suc, pred, true, false, IsTrue, None, is_some, List, [], ◌∷◌, ◌++◌, drop, length, take, sum_by};
ghost use Rattle.std.specs.List.{AllByRecursion};
ghost use Rattle.list_facts.specs.Sublist.{IsSublist};
ghost use Rattle.msg_codec.specs.declared.letter.Letter.{Letter};
ghost use Rattle.ygm_route.specs.declared.scheme.Scheme.{Scheme};
ghost use Rattle.ygm_route.specs.Layout.{Shape};
ghost use Rattle.world_core.specs.declared.entry.Entry.{Entry};
ghost use Rattle.world_core.specs.ControlRules.{is_counted, run_taken, sent_taken};
ghost use Rattle.world_core.specs.Counts.{before_count, count_taken, counts, totals};
ghost use Rattle.world_core.specs.Local.{Local, having_put, local_rank};
ghost use Rattle.world_core.specs.Log.{letters_put, letters_taken};
ghost use Rattle.world_core.specs.Modest.{IsModest};
ghost use Rattle.world_core.specs.Pairs.{arrived, is_data, of_pair};
ghost use Rattle.world_core.specs.Sound.{IsSound};
ghost use Rattle.world_core.specs.Rounds.{barrier_start, rounds_known, sums_told};
ghost use Rattle.world_core.specs.Wave.{EndsBarrier, IsComplete, IsQuiet, sums_at};
ghost use Rattle.world_core.specs.World.{Logs, local, log_of};
ghost use Rattle.comm_rank.specs.declared.turn.Turn.{Turn};
ghost use Rattle.comm_rank.specs.Agrees.{Agrees, IsServed};
ghost use Rattle.comm_rank.specs.Fold.{Applies, fold_from};
ghost use Rattle.comm_rank.specs.Rank.{HasSent, IsSameRank, Rank, held_letters, local_of};
ghost use Rattle.comm_rank.specs.Turns.{Turned};
ghost use Rattle.term_barrier.specs.Account.{Account, IsUpToDate, RankHandler, handler_at, handler_of, with_more};
ghost use Rattle.term_barrier.specs.Barriers.{AreItsRounds, BarrierAgrees, BarrierState, HasEveryCount, HasRoom, InRange, control_letters, fresh_barrier, heard_of, round_sums, with_letter, with_letters};
ghost use Rattle.term_barrier.specs.CompleteRun.{IsCompleteRun, OwnLetters, earlier};
ghost use Rattle.term_barrier.specs.CountedPlace.{AreCountedPlaces, IsCountedPlace, MovesNone};
ghost use Rattle.term_barrier.specs.Cuts.{AreQuietCuts, IsQuietCut, arrivals_of, phase_part, phase_start};
ghost use Rattle.term_barrier.specs.Left.{HasLeft, HaveLeft, barriers_left, gained, left_cut, left_cuts};
ghost use Rattle.term_barrier.specs.Merge.{IsMerge};
ghost use Rattle.term_barrier.specs.Passed.{HasPassed, LevelsRise, TookPrefixes};
ghost use Rattle.term_barrier.specs.Polls.{HasPolled};
ghost use Rattle.term_barrier.specs.Served.{IsSettledCut};
ghost use Rattle.term_barrier.specs.Worked.{lone_rank};

use comm_rank::Handler;

/// A merge has the elements of both lists, each in its own order, and no others: whatever weights elements have, those
/// of the merge add up to those of both. A merge with no elements of the one list is the other.
pub fn a_merge_has_both_lists_in_order<X>()
    ensures one { (one other merged : List X) → IsMerge one other merged → IsSublist one merged }
    ensures other { (one other merged : List X) → IsMerge one other merged → IsSublist other merged }
    ensures weights { (weight : X → ℕ) (one other merged : List X) → IsMerge one other merged →
        sum_by weight merged ≡ sum_by weight one + sum_by weight other }
    ensures with_none { (other merged : List X) → IsMerge [] other merged → merged ≡ other }
{}

/// A rank with an empty log that holds no letter of its own has an account: in phase 0, without own letters.
pub fn a_fresh_rank_has_an_account<C>()
    ensures { (handler : RankHandler C) (cut : ℕ → ℕ) (held : List Letter) →
        ((to : ℕ) → of_pair handler.here to held ≡ []) → Account handler (λ phase to. []) cut 0 held [] }
{}

/// A rank that agrees with its log is up to date with it, and is so again after each turn.
pub fn a_rank_is_up_to_date_with_its_log<H: Handler>()
    ensures agrees { (me : Rank H) (log : List Entry) → Agrees H.apply H.start me log →
        IsUpToDate H.apply H.start me log }
    ensures turned { (old new : Rank H) (before after : List Entry) (turn : Turn) →
        IsUpToDate H.apply H.start old before → IsSameRank old new → Turned H.apply old new before after turn →
        IsUpToDate H.apply H.start new after }
{}

/// A turn keeps the account of its rank and each counted place: it sends what the handler gave, and no own letters.
pub fn a_turn_keeps_the_account<H: Handler>()
    ensures account { (own : ℕ → ℕ → List Letter) (cut : ℕ → ℕ) (phase : ℕ)
        (old new : Rank H) (before after : List Entry) (turn : Turn) →
        IsUpToDate H.apply H.start old before → IsSameRank old new → Turned H.apply old new before after turn →
        Account (handler_of H.apply H.start old) own cut phase (held_letters old) before →
        Account (handler_of H.apply H.start new) own cut phase (held_letters new) after }
    ensures counted { (own : ℕ → List Letter) (begin place : ℕ)
        (old new : Rank H) (before after : List Entry) (turn : Turn) →
        IsUpToDate H.apply H.start old before → IsSameRank old new → Turned H.apply old new before after turn →
        IsCountedPlace (handler_of H.apply H.start old) own begin place (held_letters old) before →
        IsCountedPlace (handler_of H.apply H.start new) own begin place (held_letters new) after }
{}

/// An own letter that a rank sends is one more of the present phase.
pub fn an_own_letter_is_one_more_of_its_phase<H: Handler>()
    ensures { (own : ℕ → ℕ → List Letter) (cut : ℕ → ℕ) (phase : ℕ)
        (old new : Rank H) (l : Letter) (log : List Entry) → HasSent old new l →
        Account (handler_of H.apply H.start old) own cut phase (held_letters old) log →
        Account (handler_of H.apply H.start new) (with_more old.here own phase (l ∷ [])) cut phase (held_letters new) log }
{}

/// Entries that move no letter of a rank, as those of Counts and Totals, keep its account and each counted place.
pub fn control_letters_keep_the_account<C>()
    ensures none { (here : ℕ) (entries : List Entry) →
        AllByRecursion (λ l. is_data l ≡ false) (letters_put entries) →
        AllByRecursion (λ l. is_data l ≡ false) (letters_taken entries) → MovesNone here entries }
    ensures account { (handler : RankHandler C) (own : ℕ → ℕ → List Letter) (cut : ℕ → ℕ) (phase : ℕ)
        (held : List Letter) (log entries : List Entry) → MovesNone handler.here entries →
        Account handler own cut phase held log → Account handler own cut phase held (log ++ entries) }
    ensures counted { (handler : RankHandler C) (own : ℕ → List Letter) (begin place : ℕ)
        (held : List Letter) (log entries : List Entry) → MovesNone handler.here entries →
        IsCountedPlace handler own begin place held log →
        IsCountedPlace handler own begin place held (log ++ entries) }
{}

/// A Count that a rank puts while it holds no letter of its own is put at a counted place. The entries are that of the
/// Count and any that move no letter of the rank either.
pub fn a_count_with_nothing_held_is_at_a_counted_place<C>()
    ensures { (handler : RankHandler C) (own : ℕ → ℕ → List Letter) (cut : ℕ → ℕ) (phase : ℕ)
        (held : List Letter) (log entries : List Entry) →
        ((to : ℕ) → of_pair handler.here to held ≡ []) → MovesNone handler.here entries →
        Account handler own cut phase held log →
        IsCountedPlace handler (own phase) (phase_start cut phase) (length log) held (log ++ entries) }
{}

/// A rank that leaves a barrier goes on to its next phase: where the cut of its phase is a counted place, the phase ends
/// there, and the next begins without own letters. The account of a phase says nothing of later own letters, nor of the
/// cuts of this phase and later ones.
pub fn a_counted_place_ends_a_phase<C>()
    ensures next { (handler : RankHandler C) (own : ℕ → ℕ → List Letter) (cut : ℕ → ℕ) (phase : ℕ)
        (held : List Letter) (log : List Entry) → Account handler own cut phase held log →
        IsCountedPlace handler (own phase) (phase_start cut phase) (cut phase) held log →
        ((to : ℕ) → own (suc phase) to ≡ []) → Account handler own cut (suc phase) held log }
    ensures same { (handler : RankHandler C) (own other : ℕ → ℕ → List Letter) (cut other_cut : ℕ → ℕ) (phase : ℕ)
        (held : List Letter) (log : List Entry) → ((k : ℕ) → k < phase → other_cut k ≡ cut k) →
        ((k to : ℕ) → k ≤ phase → other k to ≡ own k to) →
        Account handler own cut phase held log → Account handler other other_cut phase held log }
{}

/// A poll keeps the account of its rank and each counted place, and its rank is up to date with its log again. It puts a
/// Count with no letter held, so it puts each Count at a counted place.
pub fn a_poll_keeps_the_account<H: Handler>()
    ensures up_to_date { (old new : Rank H) (before after : List Entry) (turn : Turn) →
        IsUpToDate H.apply H.start old before → IsSameRank old new → HasPolled H.apply old new before after turn →
        IsUpToDate H.apply H.start new after }
    ensures account { (own : ℕ → ℕ → List Letter) (cut : ℕ → ℕ) (phase : ℕ)
        (old new : Rank H) (before after : List Entry) (turn : Turn) →
        IsUpToDate H.apply H.start old before → IsSameRank old new → HasPolled H.apply old new before after turn →
        Account (handler_of H.apply H.start old) own cut phase (held_letters old) before →
        Account (handler_of H.apply H.start new) own cut phase (held_letters new) after }
    ensures counted { (own : ℕ → List Letter) (begin place : ℕ)
        (old new : Rank H) (before after : List Entry) (turn : Turn) →
        IsUpToDate H.apply H.start old before → IsSameRank old new → HasPolled H.apply old new before after turn →
        IsCountedPlace (handler_of H.apply H.start old) own begin place (held_letters old) before →
        IsCountedPlace (handler_of H.apply H.start new) own begin place (held_letters new) after }
    ensures new_count { (own : ℕ → ℕ → List Letter) (cut : ℕ → ℕ) (phase q : ℕ)
        (old new : Rank H) (before after : List Entry) (turn : Turn) →
        IsUpToDate H.apply H.start old before → IsSameRank old new → HasPolled H.apply old new before after turn →
        Account (handler_of H.apply H.start old) own cut phase (held_letters old) before →
        counts before ≤ q → q < counts after →
        IsCountedPlace (handler_of H.apply H.start new) (own phase) (phase_start cut phase)
        (length (before_count q after)) (held_letters new) after }
{}

/// Each Count that a rank puts since it left its last barrier is at a counted place. There is none where the rank is in no
/// counted barrier, and polls and turns keep it.
pub fn each_count_of_a_barrier_is_at_a_counted_place<H: Handler>()
    ensures none { (handler : RankHandler H) (own : ℕ → List Letter) (begin : ℕ) (held : List Letter) (me : Local) →
        is_counted me ≡ false → AreCountedPlaces handler own begin (barrier_start me.here me.log) held me.log }
    ensures polled { (own : ℕ → ℕ → List Letter) (cut : ℕ → ℕ) (phase first : ℕ)
        (old new : Rank H) (before after : List Entry) (turn : Turn) →
        IsUpToDate H.apply H.start old before → IsSameRank old new → HasPolled H.apply old new before after turn →
        Account (handler_of H.apply H.start old) own cut phase (held_letters old) before →
        AreCountedPlaces (handler_of H.apply H.start old) (own phase) (phase_start cut phase) first (held_letters old) before →
        AreCountedPlaces (handler_of H.apply H.start new) (own phase) (phase_start cut phase) first (held_letters new) after }
    ensures turned { (own : ℕ → List Letter) (begin first : ℕ)
        (old new : Rank H) (before after : List Entry) (turn : Turn) →
        IsUpToDate H.apply H.start old before → IsSameRank old new → Turned H.apply old new before after turn →
        AreCountedPlaces (handler_of H.apply H.start old) own begin first (held_letters old) before →
        AreCountedPlaces (handler_of H.apply H.start new) own begin first (held_letters new) after }
    ensures later { (handler : RankHandler H) (own : ℕ → List Letter) (begin first later : ℕ) (held : List Letter)
        (log : List Entry) → first ≤ later →
        AreCountedPlaces handler own begin first held log → AreCountedPlaces handler own begin later held log }
{}

/// A rank leaves a barrier at a round after the first of that barrier, whether the rank's log or its barrier says which was
/// the first; and it put its Count of that round. So where each Count since the first round is at a counted place, so is
/// the cut of the barrier, and the phase of the rank ends there.
pub fn leaving_a_barrier_ends_a_phase<C>()
    ensures since { (me : Local) (more : List Entry) (round : ℕ) →
        HasLeft (gained me more) (barriers_left me) round → barrier_start me.here me.log < round }
    ensures after_first { (barrier : BarrierState) (kept : List Letter) (me : Local) (more : List Entry) (round : ℕ) →
        IsModest me → BarrierAgrees barrier kept me → HasLeft (gained me more) barrier.left round →
        barrier.first < round }
    ensures put { (me : Local) (barrier round : ℕ) → IsModest me → HasLeft me barrier round → round < counts me.log }
    ensures cut { (handler : RankHandler C) (own : ℕ → List Letter) (begin first : ℕ) (held : List Letter) (me : Local)
        (round : ℕ) → AreCountedPlaces handler own begin first held me.log → first ≤ pred round →
        pred round < counts me.log → IsCountedPlace handler own begin (left_cut me round) held me.log }
    ensures next { (handler : RankHandler C) (own : ℕ → ℕ → List Letter) (cut : ℕ → ℕ) (phase first : ℕ)
        (held : List Letter) (me : Local) (barrier round : ℕ) → IsModest me → HasLeft me barrier round → first < round →
        AreCountedPlaces handler (own phase) (phase_start cut phase) first held me.log →
        cut phase ≡ left_cut me round → ((to : ℕ) → own (suc phase) to ≡ []) →
        Account handler own cut phase held me.log → Account handler own cut (suc phase) held me.log }
{}

/// Worlds give what the laws below ask for. The cut at a quiet round is quiet, by the places of its Counts. In a sound
/// world, what was taken is a prefix of what was put. What a modest log took came from ranks of the world.
pub fn worlds_give_what_these_laws_ask()
    ensures quiet { (world : Logs) (q : ℕ) → IsQuiet world q →
        IsQuietCut world.layout.ranks (log_of world) (λ rank. length (before_count q (log_of world rank))) }
    ensures took { (world : Logs) → IsSound world → TookPrefixes (log_of world) }
    ensures senders { (me : Local) → IsModest me →
        AllByRecursion (λ l. l.from < me.layout.ranks) (arrived me.here me.log) }
{}

/// Where every rank has an account of all phases, and the cut that ends each phase is quiet, the own letters have a
/// complete run: what arrived in each phase.
pub fn accounts_and_quiet_cuts_make_a_complete_run<C>()
    ensures { (apply : Applies C) (ranks phases : ℕ) (start : ℕ → C) (own : OwnLetters)
        (cuts : ℕ → ℕ → ℕ) (held : ℕ → List Letter) (logs : ℕ → List Entry) →
        ((rank : ℕ) → rank < ranks →
        HasPassed (handler_at apply ranks start rank) (own rank) (cuts rank) phases (held rank) (logs rank)) →
        AreQuietCuts ranks phases logs cuts →
        IsCompleteRun apply ranks phases start own (arrivals_of logs cuts) }
{}

/// Where no rank sent an own letter after its last cut, nothing arrived after it, if each letter that a handler gives has
/// a higher level than the letter by which it gave it. Without levels, letters might give one another after that cut.
pub fn nothing_arrives_after_the_last_cut<C>()
    ensures { (apply : Applies C) (level : Letter → ℕ) (ranks phases : ℕ) (start : ℕ → C) (own : OwnLetters)
        (cuts : ℕ → ℕ → ℕ) (held : ℕ → List Letter) (logs : ℕ → List Entry) →
        ((rank : ℕ) → rank < ranks →
        HasPassed (handler_at apply ranks start rank) (own rank) (cuts rank) phases (held rank) (logs rank)) →
        ((rank to : ℕ) → rank < ranks → own rank phases to ≡ []) →
        AreQuietCuts ranks phases logs cuts → TookPrefixes logs → LevelsRise apply level →
        (rank : ℕ) → rank < ranks → arrived rank (drop (phase_start (cuts rank) phases) (logs rank)) ≡ [] }
{}

/// Where nothing arrived at a rank after its last cut, its contents are the fold of what arrived in all phases.
pub fn contents_are_the_fold_of_all_phases<H: Handler>()
    ensures { (me : Rank H) (log : List Entry) (own : ℕ → ℕ → List Letter) (cut : ℕ → ℕ) (phases : ℕ) →
        IsUpToDate H.apply H.start me log → Account (handler_of H.apply H.start me) own cut phases (held_letters me) log →
        arrived me.here (drop (phase_start cut phases) log) ≡ [] →
        me.contents ≡ fold_from H.apply me.here me.layout.ranks (H.start me.contents)
        (earlier (λ phase. arrived me.here (phase_part cut phase log)) phases) }
{}

/// What a rank was told of a round that it knows is so: every rank put its Count of that round, and the sums are those of
/// the world. So the round at which a rank left a barrier ends that barrier in the world.
pub fn what_a_rank_was_told_is_so()
    ensures complete { (world : Logs) (rank q : ℕ) → IsSound world → q < rounds_known rank (log_of world rank) →
        IsComplete world q }
    ensures sums { (world : Logs) (rank q : ℕ) → IsSound world → q < rounds_known rank (log_of world rank) →
        sums_told rank (log_of world rank) q ≡ sums_at world q }
    ensures left { (world : Logs) (rank barrier round : ℕ) → IsSound world →
        HasLeft (local world rank) barrier round → EndsBarrier world barrier round }
{}

/// One round ends each barrier, so all ranks that left a barrier left it at the same round. The rounds rise with the
/// barriers, and a barrier has at least two.
pub fn one_round_ends_each_barrier()
    ensures one { (world : Logs) (barrier q p : ℕ) →
        EndsBarrier world barrier q → EndsBarrier world barrier p → q ≡ p }
    ensures same { (world : Logs) (one other barrier q p : ℕ) → IsSound world →
        HasLeft (local world one) barrier q → HasLeft (local world other) barrier p → q ≡ p }
    ensures rise { (world : Logs) (barrier later q p : ℕ) →
        EndsBarrier world barrier q → EndsBarrier world later p → barrier < later → suc q < p }
{}

/// A rank that has left a barrier has left each earlier one too, and has left it for good: whatever its log gains, it left
/// that barrier at that round, and the cut stays where it is.
pub fn a_rank_leaves_a_barrier_for_good()
    ensures earlier { (me : Local) (barrier round earlier : ℕ) → HasLeft me barrier round → earlier < barrier →
        (q : ℕ) × (q < round) × HasLeft me earlier q }
    ensures stays { (me : Local) (more : List Entry) (barrier round : ℕ) → HasLeft me barrier round →
        HasLeft (gained me more) barrier round }
    ensures cut_stays { (world : Logs) (rank barrier round : ℕ) (more : List Entry) → IsSound world →
        rank < world.layout.ranks → HasLeft (local world rank) barrier round →
        left_cut (gained (local world rank) more) round ≡ left_cut (local world rank) round }
{}

/// A barrier that ended has a quiet cut, at the round before the one that ends it. So the cuts of barriers that every rank
/// has left are quiet, by the places that each rank knows from the rounds at which it left. These are in order, and within
/// the logs.
pub fn barriers_end_at_quiet_cuts()
    ensures quiet { (world : Logs) (barrier round : ℕ) → IsSound world → EndsBarrier world barrier round →
        (0 < round) × IsQuiet world (pred round) }
    ensures part { (me : Local) (round : ℕ) → take (left_cut me round) me.log ≡ before_count (pred round) me.log }
    ensures within { (me : Local) (round : ℕ) → left_cut me round ≤ length me.log }
    ensures cuts { (world : Logs) (barriers : ℕ) (rounds : ℕ → ℕ → ℕ) → IsSound world →
        HaveLeft world barriers rounds →
        AreQuietCuts world.layout.ranks barriers (log_of world) (left_cuts world rounds) }
    ensures order { (world : Logs) (barriers : ℕ) (rounds : ℕ → ℕ → ℕ) → IsSound world →
        HaveLeft world barriers rounds → (rank barrier : ℕ) → rank < world.layout.ranks → barrier < barriers →
        phase_start (left_cuts world rounds rank) barrier ≤ left_cuts world rounds rank barrier }
{}

/// A new barrier agrees with the empty log.
pub fn a_new_barrier_agrees_with_the_empty_log()
    ensures { (layout : Shape) (scheme : Scheme) (here rounds : ℕ) →
        BarrierAgrees (fresh_barrier layout here rounds) [] (local_rank layout scheme here []) }
{}

/// A barrier stays in agreement with its log as the log gains entries that put neither Counts nor Totals: of a put of data
/// letters, and of a turn. The control letters that the rank takes then are kept. It stays so
/// too as letters that were kept are handed over, where its rounds are those of all letters handed to it.
pub fn a_barrier_stays_in_agreement<C>()
    ensures gained { (barrier : BarrierState) (kept : List Letter) (me : Local) (more : List Entry) →
        counts more ≡ 0 → ((to : ℕ) → totals to more ≡ 0) → BarrierAgrees barrier kept me →
        BarrierAgrees barrier (kept ++ control_letters more) (gained me more) }
    ensures put { (barrier : BarrierState) (kept : List Letter) (me : Local) (to : ℕ) (letters : List Letter) →
        AllByRecursion (λ l. IsTrue (is_data l)) letters → BarrierAgrees barrier kept me →
        BarrierAgrees barrier kept (having_put me to letters) }
    ensures turned { (apply : Applies C) (old new : Rank C) (before after : List Entry) (turn : Turn)
        (barrier : BarrierState) (kept : List Letter) (turned : Turned apply old new before after turn) →
        IsSameRank old new →
        BarrierAgrees barrier kept (local_of old before) →
        BarrierAgrees barrier (kept ++ control_letters turned.taken) (local_of new after) }
    ensures handed { (old new : BarrierState) (letters kept : List Letter) (me : Local)
        (agrees : BarrierAgrees old (letters ++ kept) me) → new.layout ≡ old.layout → new.here ≡ old.here →
        AreItsRounds new (agrees.handed ++ letters) me.log → (new.inside ≡ false → is_counted me ≡ false) →
        BarrierAgrees new kept me }
{}

/// The rounds of a barrier that was handed letters, of whatever kind, are those of these letters too. So after it was
/// handed all that its rank keeps, it agrees with the log and nothing is kept.
pub fn a_barrier_is_handed_control_letters()
    ensures letter { (barrier : BarrierState) (letters : List Letter) (log : List Entry) (l : Letter) →
        length barrier.heard ≡ barrier.layout.ranks → AreItsRounds barrier letters log →
        AreItsRounds (with_letter barrier l) (letters ++ l ∷ []) log }
    ensures letters { (barrier : BarrierState) (letters more : List Letter) (log : List Entry) →
        length barrier.heard ≡ barrier.layout.ranks → AreItsRounds barrier letters log →
        AreItsRounds (with_letters barrier more) (letters ++ more) log }
    ensures agrees { (barrier : BarrierState) (kept : List Letter) (me : Local) → InRange barrier →
        BarrierAgrees barrier kept me → BarrierAgrees (with_letters barrier kept) [] me }
{}

/// Where a barrier agrees with a modest log and its rank keeps no control letter, it knows the rounds of the log: how many
/// the rank knows, where the present barrier begins, how many it left, and the sums of the last round. It knows which Counts
/// the log took, and once it has those of all ranks, their sums over the round that comes after those that are over. Where
/// a barrier begins after the last round that it knows, that round ended the barrier before.
pub fn a_barrier_knows_the_rounds_of_its_log()
    ensures known { (barrier : BarrierState) (me : Local) → IsModest me → BarrierAgrees barrier [] me →
        barrier.known ≡ rounds_known me.here me.log }
    ensures first { (barrier : BarrierState) (me : Local) → IsModest me → BarrierAgrees barrier [] me →
        barrier.first ≡ barrier_start me.here me.log }
    ensures left { (barrier : BarrierState) (me : Local) → IsModest me → BarrierAgrees barrier [] me →
        barrier.left ≡ barriers_left me }
    ensures last { (barrier : BarrierState) (me : Local) → IsModest me → BarrierAgrees barrier [] me →
        0 < barrier.known → barrier.last ≡ sums_told me.here me.log (pred barrier.known) }
    ensures taken { (barrier : BarrierState) (me : Local) → IsModest me → BarrierAgrees barrier [] me →
        (from q : ℕ) → from < me.layout.ranks → q < (heard_of barrier from).rounds →
        is_some (count_taken from q me.log) ≡ true }
    ensures not_taken { (barrier : BarrierState) (me : Local) → IsModest me → BarrierAgrees barrier [] me →
        (from q : ℕ) → from < me.layout.ranks → (heard_of barrier from).rounds ≤ q →
        count_taken from q me.log ≡ None }
    ensures sums { (barrier : BarrierState) (me : Local) → IsModest me → BarrierAgrees barrier [] me →
        InRange barrier → HasEveryCount barrier →
        ((round_sums barrier).sent ≡ sent_taken me barrier.over) × ((round_sums barrier).run ≡ run_taken me barrier.over) }
    ensures has_left { (barrier : BarrierState) (me : Local) (round : ℕ) → IsModest me → BarrierAgrees barrier [] me →
        barrier.known ≡ suc round → barrier.first ≡ barrier.known → HasLeft me (pred barrier.left) round }
{}

/// A barrier has room for what it is handed, where it agrees with a modest log: the rank took no Total of a round that it
/// didn't count, and at most two Counts of a rank more than there are rounds that are over. So it is handed one Total at
/// most, after which all that holds of each barrier holds of it again. If that ends a barrier, the rank has left it at the
/// round that it was told of last, and may be outside.
pub fn a_barrier_has_room_for_what_it_is_handed()
    ensures room { (barrier : BarrierState) (kept : List Letter) (me : Local) → InRange barrier → IsModest me →
        BarrierAgrees barrier kept me → HasRoom barrier kept }
    ensures in_range { (barrier : BarrierState) (kept : List Letter) → InRange barrier → HasRoom barrier kept →
        InRange (with_letters barrier kept) }
    ensures left_once { (barrier : BarrierState) (kept : List Letter) → InRange barrier → HasRoom barrier kept →
        let now : BarrierState = with_letters barrier kept in
        (now.left ≡ barrier.left)
        ⊎ ((now.left ≡ barrier.left + 1) × (now.first ≡ now.known) × (now.known ≡ barrier.known + 1)) }
    ensures outside { (barrier : BarrierState) (kept : List Letter) (me : Local) → InRange barrier → IsModest me →
        BarrierAgrees barrier kept me → barrier.left < (with_letters barrier kept).left →
        BarrierAgrees (record (with_letters barrier kept) { inside = false }) [] me }
    ensures has_left { (barrier : BarrierState) (kept : List Letter) (me : Local) → InRange barrier → IsModest me →
        BarrierAgrees barrier kept me → barrier.left < (with_letters barrier kept).left →
        HasLeft me barrier.left ((with_letters barrier kept).known - 1) }
{}

/// The theorem of a barrier. Once any rank has left it, all is settled at its cut, where each log is served: the letters
/// from a rank to a rank that were put before the cut arrived before it, and no others, and so did all offspring, which is
/// what handlers gave by letters that arrived before the cut.
pub fn all_is_settled_where_a_barrier_ended<C>()
    ensures { (apply : Applies C) (start : ℕ → C) (world : Logs) (rank barrier round : ℕ) → IsSound world →
        HasLeft (local world rank) barrier round →
        ((one : ℕ) → one < world.layout.ranks →
        IsServed apply one world.layout.ranks (start one) (log_of world one)) →
        IsSettledCut apply start world (pred round) }
{}

/// A worked case: a rank that is alone sent itself a letter, which ran, and then counted twice. It has left barrier 0 at
/// round 1 and not at round 0, and the cut is after the two entries of that letter.
#[tactic(auto, unfolding(list_facts::specs::Below::in_a_row, msg_codec::specs::Control::spelled_counts, msg_codec::specs::Control::round_of, msg_codec::specs::Control::sent_of, msg_codec::specs::Control::run_of, world_core::specs::Counts::total_taken, world_core::specs::Rounds::rounds_known, world_core::specs::Rounds::first_round, world_core::specs::Rounds::ended_below))]
pub fn a_rank_alone_leaves_at_its_second_round()
    ensures left { HasLeft lone_rank 0 1 }
    ensures not_before { HasLeft lone_rank 0 0 → ⊥ }
    ensures cut { left_cut lone_rank 1 ≡ 2 }
{}
