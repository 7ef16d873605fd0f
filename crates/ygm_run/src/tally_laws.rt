//! Why the table of all shards is the text of the lines, as laws: each rank sends letters that count its lines, and all
//! of them arrive.
ghost use Rattle.std.specs.Prelude.{◌≡◌, ◌^◌, ◌<◌, ◌≤◌, ℕ, List, All, flat_map, length};
ghost use Rattle.ygm_route.specs.Layout.{max_ranks};
ghost use Rattle.world_core.specs.Limits.{most_letters};
ghost use Rattle.counting_set.specs.Counting.{Counts};
ghost use Rattle.line_input.specs.Limits.{max_line};
ghost use Rattle.ygm_run.specs.TallyRun.{CountLines, IsTally, IsTallyRun, own_letters};
ghost use Rattle.ygm_run.specs.TallyText.{AreCounts, IsTableOf, all_lines, tally_text};

/// One letter for each line, to the owner of the line, counts the lines.
pub fn a_letter_for_each_line_counts_lines()
    ensures { (ranks here : ℕ) (lines : List (List ℕ)) → All (λ line. length line ≤ max_line) lines →
        CountLines ranks lines (own_letters ranks here lines) }
{}

/// Where no line is too long, a complete run of tally is a tally: counting gives no letters, so what arrived are the letters
/// of the lines.
pub fn a_complete_run_is_a_tally()
    ensures { (ranks : ℕ) (files : List (List (List ℕ))) (shards : List Counts) →
        All (λ lines. All (λ line. length line ≤ max_line) lines) files →
        IsTallyRun ranks files shards → IsTally ranks files shards }
{}

/// Where no rank has more lines than it may send letters, no count of lines gets to its limit.
pub fn lines_fit_a_count()
    ensures { (files : List (List (List ℕ))) → length files ≤ max_ranks →
        All (λ lines. length lines ≤ most_letters) files → length (all_lines files) < 2 ^ 64 }
{}

/// All shards of a tally together have each distinct line of the files once, with the number of lines equal to it, and
/// nothing else. So a table of what they have is the text of the files.
pub fn shards_have_the_counts_of_all_lines()
    ensures counts { (ranks : ℕ) (files : List (List (List ℕ))) (shards : List Counts) → 0 < ranks →
        length files ≤ ranks → length (all_lines files) < 2 ^ 64 → IsTally ranks files shards →
        AreCounts (flat_map (λ shard. shard) shards) (all_lines files) }
    ensures text { (ranks : ℕ) (files : List (List (List ℕ))) (shards : List Counts) → 0 < ranks →
        length files ≤ ranks → length (all_lines files) < 2 ^ 64 → IsTally ranks files shards →
        (text : List ℕ) → IsTableOf (flat_map (λ shard. shard) shards) text → text ≡ tally_text files }
{}
