//! The program `ygm_run`: jobs over ranks that count, group and walk large data.
#![tactic(auto)]

ghost use Rattle.std.specs.Prelude.{◌≡◌, ◌⊎◌, drop, IfErr, IfOk};
ghost use Rattle.std.specs.Vec.Iter.{into_iter_items};

pub mod bad_line_laws;
pub mod ending_laws;
mod help;
mod job;
pub mod limit_laws;
pub mod note;
mod ranks;
pub mod run_job;
mod running;
pub mod status;
pub mod tally_laws;
pub mod tally_text;
#[cfg(test)]
mod tests;
pub mod verdict_laws;
pub mod words;
pub mod words_laws;

use crate::help::{asked_text, show};
pub use running::run;
use std::alloc::{AllocError, Global};
use std::env;
use std::io::ErrorKind;
use std::process::ExitCode;
use std::rt::Env;
use std::vec::IntoIter;
use ygm_io::{StdFiles, StdSink};

/// How a run ends if the arguments can't be read: its note and its exit status.
const BAD_WORDS: (&str, u8) = ("a word is no text", 1);

/// How a run ends if memory runs out before it begins.
const NO_MEMORY: (&str, u8) = ("out of memory", 6);

// The arguments after the first, which is the program's name: all of them, or none for lack of memory.
fn behind_name(alloc: Global, args: IntoIter<String>) -> Result<Vec<String>, AllocError>
    ensures { IfOk result (λ words. words.items ≡ drop 1 (into_iter_items args)) }
{
    args.skip(1).collect(alloc)
}

// The arguments after the program's name.
fn words_of(rt: &(impl Env + AllocGlobal)) -> Result<Vec<String>, (&'static str, u8)>
    ensures number { IfErr result (λ refusal. (refusal.1 ≡ 1) ⊎ (refusal.1 ≡ 6)) }
{
    let args = match env::args(rt) {
        Ok(args) => args,
        Err(error) if error.kind() == ErrorKind::OutOfMemory => return Err(NO_MEMORY),
        Err(_) => return Err(BAD_WORDS),
    };
    behind_name(rt.alloc(), args).map_err(|_| NO_MEMORY)
}

fn main(rt: HostRuntime) -> ExitCode {
    let words = match words_of(&rt) {
        Ok(words) => words,
        Err((text, number)) => {
            let _ = eprintln!(rt; "ygm_run: {text}");
            return ExitCode::from(number);
        }
    };
    let alloc = rt.alloc();
    let mut out = StdSink::new(rt.stdout());
    let mut notes = StdSink::new(rt.stderr());
    if let Some(text) = asked_text(&words) {
        return ExitCode::from(show(text, &mut out, &mut notes).number());
    }
    let mut files = StdFiles::new(rt);
    let ended = run(&rt, alloc, &words, &mut files, &mut out, &mut notes);
    ExitCode::from(ended.status.number())
}
