//! What the bytes of the files decide, as a law over its definition.
ghost use Rattle.std.specs.Prelude.{◌≡◌, ◌↔◌, ℕ, List};
ghost use Rattle.line_input.specs.declared.why.LineWhy.{LineWhy};
ghost use Rattle.ygm_run.specs.BadLines.{tally_wrong};
ghost use Rattle.ygm_run.specs.Job.{lines_of_each};
ghost use Rattle.ygm_run.specs.TallyText.{tally_text};
ghost use Rattle.ygm_run.specs.Verdict.{AreGood, Bad, IsLowestBad, Text, tally_verdict};

/// The verdict is the first bad line of the lowest rank whose file has one, with its reason. If no file has a bad line, it
/// is the text of their lines.
pub fn the_verdict_is_the_lowest_bad_line_or_the_text()
    ensures bad { (files : List (List ℕ)) (rank line : ℕ) (why : LineWhy)
        → (tally_verdict files ≡ Bad rank line why) ↔ IsLowestBad tally_wrong files rank line why }
    ensures text { (files : List (List ℕ)) (text : List ℕ)
        → (tally_verdict files ≡ Text text) ↔ (AreGood tally_wrong files × (text ≡ tally_text (lines_of_each files))) }
{}
