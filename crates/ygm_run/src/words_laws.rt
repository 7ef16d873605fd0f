//! What the words of the command line mean, as laws over their definition.
ghost use Rattle.std.specs.Prelude.{◌≡◌, ◌↔◌, ℕ, List, Ok, Err};
ghost use Rattle.ygm_run.specs.declared.words.UsageKind.{UsageKind};
ghost use Rattle.ygm_run.specs.Refusals.{AreAccepted, IsFirst};
ghost use Rattle.ygm_run.specs.Words.{Asked, asked_by, command_of, order_of, refusals};

/// Words are accepted exactly where no refusal holds of them, and then they ask for what their options and files say.
pub fn words_that_are_accepted()
    ensures { (words : List (List ℕ)) (asked : Asked)
        → (order_of words ≡ Ok asked) ↔ (AreAccepted (command_of words) × (asked ≡ asked_by (command_of words))) }
{}

/// Words are refused exactly where a refusal holds of them, and the first that holds is reported.
pub fn the_refusal_is_the_first_that_holds()
    ensures { (words : List (List ℕ)) (kind : UsageKind) → (order_of words ≡ Err kind) ↔ IsFirst refusals (command_of words) kind }
{}
