//! What the program prints where it is asked for no job: the texts of `--help` and `--version`.
ghost use Rattle.std.specs.Prelude.{◌≡◌, true};
ghost use Rattle.std.specs.Option.{is_some};
ghost use Rattle.ygm_run.specs.CommandLine.{asks_for_text, is_lone};
ghost use Rattle.ygm_run.specs.Ending.{IsWritten, may_write};
ghost use Rattle.ygm_run.specs.Words.{texts_of};

use crate::note::fixed_note;
use crate::running::write_text;
use crate::status::Status;
use ygm_io::{Sink, write_all};

// The text of `--help`.
fn help_text() -> &'static str {
    "\
Usage: ygm_run JOB [OPTION VALUE]... [--] FILE...
       ygm_run --help | -h | --version

Jobs:
  tally          count equal lines: print, for each distinct line of all files and
                 in byte order, how many lines equal it, a TAB and the line

Options, each at most once, before the files:
  --ranks N      number of ranks, at most 32 (default: the number of files);
                 rank i, from 0, reads file i, and a rank without a file reads
                 nothing
  --cores N      number of cores of a node, a divisor of the number of ranks
                 (default: 1)
  --scheme NAME  how letters travel between ranks (default: none):
                 none  straight to the destination
                 nr    to the sender's core of the other node, then within it
                 nlnr  to the core of the sender's node that serves the other
                       node, from there to that node, then within it
  --buffer N     most bytes of a batch of letters, 64 to 65536; a letter with more
                 travels alone (default: 16384)
  --             ends the options

Exit status:
  0  everything was counted and written
  1  the arguments were refused
  2  a file couldn't be opened
  3  a read failed
  4  a line has more than 1,000,000 bytes
  5  the text couldn't be written
  6  memory ran out
  7  a counter reached its limit

Example:
  ygm_run tally --ranks 8 --cores 4 access1.log access2.log
"
}

// The text of `--version`.
fn version_text() -> &'static str {
    "ygm_run 0.1.0\n"
}

// Whether this is the one word.
fn is_lone(words: &[String], word: &str) -> bool
    ensures { result ≡ is_lone word.now (texts_of words.now) }
{
    match words {
        [only] => only.as_str() == word,
        _ => false,
    }
}

/// The text that the words ask for, if they ask for no job.
pub(crate) fn asked_text(words: &[String]) -> Option<&'static str>
    ensures { is_some result ≡ asks_for_text (texts_of words.now) }
{
    if is_lone(words, "--help") || is_lone(words, "-h") {
        Some(help_text())
    } else if is_lone(words, "--version") {
        Some(version_text())
    } else {
        None
    }
}

/// Writes such a text, and a note if that failed. Returns how it ended: `Done`, or `WriteFault`. Takes no memory.
pub(crate) fn show<O: Sink, N: Sink>(text: &str, out: &mut O, notes: &mut N) -> Status
    ensures may_write { may_write result ≡ true }
    ensures text { IsWritten result text.now (O.holds out.old) (O.holds out.new) }
{
    let status = write_text(text.as_bytes(), out);
    if let Some(note) = fixed_note(&status) {
        let _ = write_all(notes, note.as_bytes());
    }
    status
}
