//! What the definitions mean. Each law is the contract of a function that does nothing.
ghost use Rattle.std.specs.Prelude.{◌≡◌, List, [], Some, None, fold};
ghost use Rattle.ygm_taps.specs.Heard.{RanLetter, with_letter};

/// A tap that was started to keep letters, and was then given some, has heard those in order and no others. One that
/// exposes nothing exposes nothing after them either.
pub fn what_was_heard_is_what_ran()
    ensures kept { (letters : List RanLetter) → fold with_letter (Some []) letters ≡ Some letters }
    ensures nothing { (letters : List RanLetter) → fold with_letter None letters ≡ None }
{}
