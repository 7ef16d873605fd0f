//! Which lines of a file are bad, as a law.
ghost use Rattle.std.specs.Prelude.{◌≡◌, ℕ, List, None, Some};
ghost use Rattle.line_input.specs.declared.why.LineWhy.TheVariants.{TooLong};
ghost use Rattle.line_input.specs.Lines.{AreShort, IsFirstTooLong, first_too_long};
ghost use Rattle.ygm_run.specs.BadLines.{first_wrong, good_lines, tally_wrong};

/// The first bad line of `tally` is the first raw line that is too long, and that is why it is bad. The good lines are
/// those before it, or all if none is bad.
pub fn the_first_bad_line()
    ensures why { (raws : List (List ℕ)) (number : ℕ) → first_too_long raws ≡ Some number
        → first_wrong tally_wrong raws ≡ Some (number, TooLong) }
    ensures no_why { (raws : List (List ℕ)) → first_too_long raws ≡ None → first_wrong tally_wrong raws ≡ None }
    ensures good { (raws : List (List ℕ)) (number : ℕ) (first : IsFirstTooLong raws number)
        → good_lines tally_wrong raws ≡ first.before }
    ensures all_good { (raws : List (List ℕ)) → AreShort raws → good_lines tally_wrong raws ≡ raws }
{}
