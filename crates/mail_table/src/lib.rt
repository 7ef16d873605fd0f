//! Links between all ranks of a world, which threads share: words and slots, under a rule that says their logs are those of
//! a sound world.
#![tactic(auto)]

mod closed;
mod links;
mod pass;
mod passes;
mod plays;
mod post;
mod settings;
mod table;
mod views;

pub use closed::Closed;
pub use pass::Pass;
pub use post::TablePost;
pub use settings::Settings;
pub use table::MailTable;
pub use views::Loads;

#[cfg(test)]
mod tests;
