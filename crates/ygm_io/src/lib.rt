//! Where bytes come from and where they go: sources, sinks and files. There are kinds in memory, kinds
//! that never fail, and kinds over the real system.
#![tactic(auto)]

mod calm_files;
mod calm_sink;
mod calm_source;
mod files;
mod mem_files;
mod mem_sink;
mod mem_source;
mod named;
mod plan;
mod sink;
mod source;
mod std_files;
mod std_sink;
mod std_source;
mod tries;
mod unread;
mod writing;

pub use calm_files::CalmFiles;
pub use calm_sink::CalmSink;
pub use calm_source::CalmSource;
pub use files::{Files, OpenFailed};
pub use mem_files::MemFiles;
pub use mem_sink::MemSink;
pub use mem_source::MemSource;
pub use sink::Sink;
pub use source::{Failed, Source};
pub use std_files::StdFiles;
pub use std_sink::StdSink;
pub use std_source::StdSource;
pub use writing::{WriteFault, write_all};

#[cfg(test)]
mod tests;
