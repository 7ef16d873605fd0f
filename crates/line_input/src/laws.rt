//! What the lines of bytes are, and what the turns of a reader add up to. Each law is the contract of a function that does
//! nothing.
ghost use Rattle.std.specs.Prelude.{◌≡◌, ◌≢◌, ◌↔◌, ℕ, ◌<◌, List, [], ◌∷◌, ◌++◌, None, Some, Ok, Err, length};
ghost use Rattle.list_facts.specs.Prefix.{IsPrefix};
ghost use Rattle.rising_counts.specs.Rising.{max_count};
ghost use Rattle.line_input.specs.declared.line_reader.Got.TheVariants.{End};
ghost use Rattle.line_input.specs.declared.line_reader.LineFault.TheVariants.{LineTooLong};
ghost use Rattle.line_input.specs.Limits.{max_line, max_piece};
ghost use Rattle.line_input.specs.Lines.{AreShort, IsFirstTooLong, LacksLf, first_too_long, lines_of, raw_lines, text_of};
ghost use Rattle.line_input.specs.Reading.{fresh_reading};
ghost use Rattle.line_input.specs.Runs.{InTurn, OneTurn, lines_in};

use crate::{MAX_LINE, READING_SPACE};
use ygm_io::Source;

/// The numbers that bound lines and reads, and the constants that have them.
pub fn the_limits_are_these_numbers()
    ensures line { max_line ≡ 1000000 }
    ensures piece { max_piece ≡ 65536 }
    ensures longest_line { MAX_LINE ≡ max_line }
    ensures reading_space { READING_SPACE ≡ max_piece }
{}

/// The bytes before an LF are a raw line, without the LF. What follows the last LF is a raw line too, unless
/// it is empty.
pub fn lines_end_at_lf()
    ensures none { raw_lines [] ≡ [] }
    ensures at_lf { (raw rest : List ℕ) → LacksLf raw → raw_lines (raw ++ 10 ∷ rest) ≡ raw ∷ raw_lines rest }
    ensures at_end { (raw : List ℕ) → LacksLf raw → 0 < length raw → raw_lines raw ≡ raw ∷ [] }
{}

/// One CR at a raw line's end isn't part of its text. Every other byte is, also a second CR.
pub fn one_cr_is_dropped()
    ensures cr { (line : List ℕ) → text_of (line ++ 13 ∷ []) ≡ line }
    ensures other { (line : List ℕ) (last : ℕ) → last ≢ 13 → text_of (line ++ last ∷ []) ≡ line ++ last ∷ [] }
    ensures none { text_of [] ≡ [] }
{}

/// The first raw line that is too long, by its number from 1, comes after lines that aren't. Where there is none, no raw
/// line is too long.
pub fn the_first_line_that_is_too_long()
    ensures number { (raws : List (List ℕ)) (number : ℕ) → (first_too_long raws ≡ Some number) ↔ IsFirstTooLong raws number }
    ensures no_number { (raws : List (List ℕ)) → (first_too_long raws ≡ None) ↔ AreShort raws }
{}

/// The lines that turns return, one turn after another from the first on, are a prefix of the lines of the source, in
/// order, and all of them once a turn returns the end, however the reads are cut. A line that a turn reports as too long
/// is the first that is.
pub fn turns_return_the_lines_in_order<S: Source>()
    ensures in_order { (source : S) (turns : List (OneTurn S)) (bytes : List ℕ) → S.left source ≡ Some bytes
        → InTurn S.left S.faults fresh_reading source turns → IsPrefix (lines_in turns) (lines_of bytes) }
    ensures all_at_the_end { (source : S) (turns : List (OneTurn S)) (last : OneTurn S) (bytes : List ℕ) → S.left source ≡ Some bytes
        → InTurn S.left S.faults fresh_reading source (turns ++ last ∷ []) → last.result ≡ Ok End → lines_in turns ≡ lines_of bytes }
    ensures too_long { (source : S) (turns : List (OneTurn S)) (last : OneTurn S) (number : ℕ) (bytes : List ℕ) → S.left source ≡ Some bytes
        → InTurn S.left S.faults fresh_reading source (turns ++ last ∷ []) → last.result ≡ Err (LineTooLong number)
        → length (lines_in turns) < max_count → IsFirstTooLong (raw_lines bytes) number }
{}
