//! Taps: objects that a caller hands in to learn which letters ran on a rank. There is one that keeps a list, and one
//! that keeps nothing.
#![tactic(auto)]

mod kept_letters;
mod laws;
mod list_tap;
mod quiet_tap;
mod tap;
mod told;

pub use laws::what_was_heard_is_what_ran;
pub use list_tap::ListTap;
pub use quiet_tap::QuietTap;
pub use tap::Tap;
pub use told::Told;

#[cfg(test)]
mod tests;
