//! The laws of the encodings. Each is the contract of a function that does nothing.
ghost use Rattle.std.specs.Prelude.{◌≡◌, ◌↔◌, ℕ, List, ◌++◌, length, All, Ok, Some};
ghost use Rattle.msg_codec.specs.declared.control.Control.{Control};
ghost use Rattle.msg_codec.specs.declared.control.Control.TheVariants.{Count, Total};
ghost use Rattle.msg_codec.specs.declared.letter.Letter.{Letter};
ghost use Rattle.msg_codec.specs.Control.{letter_of_control, control_of_letter, IsCountFrom, IsTotalTo, ControlFits};
ghost use Rattle.msg_codec.specs.Limits.{max_body};
ghost use Rattle.msg_codec.specs.Placed.{Fits};
ghost use Rattle.msg_codec.specs.Spelling.{spelled_letter, spelling};

use crate::{MAX_BODY, Wire};

/// The number that bounds a letter's body, and the constant that has it.
pub fn the_limit_is_this_number()
    ensures body { max_body ≡ 1048576 }
    ensures constant { MAX_BODY ≡ max_body }
{}

/// No encoding of a value is a prefix of the encoding of another.
pub fn no_spelling_begins_another<W: Wire>()
    ensures { (v w : W) (x y : List ℕ) → W.in_range v → W.in_range w → W.spelled v ++ x ≡ W.spelled w ++ y → (v ≡ w) × (x ≡ y) }
{}

/// What was put is decoded again, whatever follows it.
pub fn what_was_put_is_read_again<W: Wire>()
    ensures { (value : W) (rest : List ℕ) → W.in_range value → W.reading (W.spelled value ++ rest) ≡ Ok (value, length (W.spelled value)) }
{}

/// Different lists of letters have different encodings.
pub fn no_two_lists_are_spelled_alike()
    ensures { (letters others : List Letter) → All Fits letters → All Fits others → spelling letters ≡ spelling others → letters ≡ others }
{}

/// A control is read from its letter again, different controls have different letters, and each has 37 bytes.
pub fn controls_have_letters_of_their_own()
    ensures again { (control : Control) → ControlFits control → control_of_letter (letter_of_control control) ≡ Some control }
    ensures apart { (control other : Control) → ControlFits control → ControlFits other → letter_of_control control ≡ letter_of_control other → control ≡ other }
    ensures bytes { (control : Control) → length (spelled_letter (letter_of_control control)) ≡ 37 }
{}

/// Which letters are control letters, by their tag, the length of their body, their ends and their numbers.
pub fn control_letters_are_these()
    ensures counts { (l : Letter) (rank q s r : ℕ) → control_of_letter l ≡ Some (Count rank q s r) ↔ IsCountFrom rank q s r l }
    ensures totals { (l : Letter) (rank q s r : ℕ) → control_of_letter l ≡ Some (Total rank q s r) ↔ IsTotalTo rank q s r l }
{}
