//! What follows from why a run ends, as laws over the stages.
ghost use Rattle.std.specs.Prelude.{◌≡◌, ◌⊎◌, ◌≤◌, ℕ, List, [], ◌∷◌, Some, Result, IsOk, slice_get};
ghost use Rattle.world_core.specs.Limits.{most_letters};
ghost use Rattle.ygm_io.specs.Content.{ExposedBytes};
ghost use Rattle.ygm_io.specs.Rising.{Rose};
ghost use Rattle.ygm_run.specs.declared.status.Status.{Status};
ghost use Rattle.ygm_run.specs.declared.status.Status.TheVariants.{Done, NoMemory};
ghost use Rattle.ygm_run.specs.declared.words.UsageKind.{UsageKind};
ghost use Rattle.ygm_run.specs.BadLines.{tally_wrong};
ghost use Rattle.ygm_run.specs.Ending.{Ends, counts, inputs, opens, words, writes};
ghost use Rattle.ygm_run.specs.Job.{AreExposed, letters_bound, lines_of_each};
ghost use Rattle.ygm_run.specs.Verdict.{Text, tally_verdict};
ghost use Rattle.ygm_run.specs.Words.{Asked};

use ygm_io::Source;

/// With accepted words, files that expose their bytes and have no bad line, few enough lines, and devices that don't fail,
/// only memory can run out.
pub fn only_memory_can_run_out<S: Source>()
    ensures { (order : Result Asked UsageKind) (ranks : ℕ) (contents : List ExposedBytes) (sources : List S)
        (opening opening_now writing writing_now : ℕ) (status : Status) (bytes : List (List ℕ)) (text : List ℕ)
        → Ends (words order sources
        ∷ opens S.left S.faults contents sources opening opening_now
        ∷ counts ranks contents
        ∷ inputs tally_wrong S.left S.faults contents sources
        ∷ writes writing writing_now
        ∷ []) status
        → IsOk order → AreExposed contents bytes → tally_verdict bytes ≡ Text text
        → letters_bound (lines_of_each bytes) ≤ most_letters
        → (Rose opening opening_now → ⊥) → (Rose writing writing_now → ⊥)
        → ((rank : ℕ) (source : S) → slice_get sources rank ≡ Some source → S.faults source ≡ 0)
        → (status ≡ Done) ⊎ (status ≡ NoMemory) }
{}
