//! The note of a status: what the program writes about how it ended.
ghost use Rattle.std.specs.Prelude.{◌≡◌, true, ℕ, List, IfOk, MatchOption, length, string_bytes};
ghost use Rattle.ygm_run.specs.Notes.{FileIsBelow, note_takes_memory, note_text};
ghost use Rattle.ygm_run.specs.Words.{texts_of};

use crate::status::Status;
use msg_codec::Body2;
use std::alloc::{AllocError, Global};

/// The note of a text that couldn't be written. It takes no memory, so that it can follow a failed write.
pub(crate) const WRITE_FAILED: &str = "ygm_run: write failed\n";

/// The note of memory that ran out. It takes none.
pub(crate) const OUT_OF_MEMORY: &str = "ygm_run: out of memory\n";

/// The note of a status, if it is the same in each run with this status. It takes no memory.
pub(crate) fn fixed_note(status: &Status) -> Option<&'static str>
    ensures { MatchOption result (note_takes_memory status.now ≡ true)
        (λ note. (names : List (List ℕ)) → note.now ≡ note_text status.now names) }
{
    match status {
        Status::Done => Some(""),
        Status::Usage { kind } => Some(kind.note()),
        Status::WriteFault => Some(WRITE_FAILED),
        Status::NoMemory => Some(OUT_OF_MEMORY),
        Status::OpenFault { .. }
        | Status::ReadFault { .. }
        | Status::BadLine { .. }
        | Status::CountFull { .. } => None,
    }
}

/// The text of a status's note.
fn text_of(alloc: Global, status: &Status, names: &[String]) -> Result<String, AllocError>
    requires { FileIsBelow (length names.now) status.now }
    ensures { IfOk result (λ text. string_bytes text ≡ note_text status.now (texts_of names.now)) }
{
    match status {
        Status::Done => Ok(String::new(alloc)),
        Status::Usage { kind } => String::from_str(alloc, kind.note()),
        Status::OpenFault { file } => {
            format!(in alloc; "ygm_run: cannot open {}\n", names[*file as usize])
        }
        Status::ReadFault { rank } => format!(in alloc; "ygm_run: read failed at rank {rank}\n"),
        Status::BadLine { rank, line, why } => {
            format!(in alloc; "ygm_run: rank {rank} line {line}: {}\n", why.text())
        }
        Status::WriteFault => String::from_str(alloc, WRITE_FAILED),
        Status::NoMemory => String::from_str(alloc, OUT_OF_MEMORY),
        Status::CountFull { rank, .. } => {
            format!(in alloc; "ygm_run: rank {rank} is at a limit of its counts\n")
        }
    }
}

/// The note of a status: one line, or no bytes for `Done`. `names` are the files' names in their order.
/// An error is lack of memory.
pub fn note_of(alloc: Global, status: &Status, names: &[String]) -> Result<Body2, AllocError>
    requires { FileIsBelow (length names.now) status.now }
    ensures { IfOk result (λ note. note ≡ note_text status.now (texts_of names.now)) }
{
    let text = text_of(alloc, status, names)?;
    Ok(Body2::from_vec(text.into_bytes()))
}

#[cfg(test)]
mod tests {
    use super::*;
    use crate::words::UsageKind;
    use line_input::LineWhy;
    use msg_codec::Counter;
    use std::test::Fail;

    #[test]
    fn a_note_is_one_line(rt: HostRuntime) -> Result<(), Fail> {
        let alloc = rt.alloc();
        let usage = Status::Usage {
            kind: UsageKind::NoFile,
        };
        assert_eq!(rt;
            note_of(alloc, &usage, &[])?.as_slice(),
            b"ygm_run: no file\n".as_slice()
        );
        let read_fault = Status::ReadFault { rank: 12 };
        assert_eq!(rt;
            note_of(alloc, &read_fault, &[])?.as_slice(),
            b"ygm_run: read failed at rank 12\n".as_slice()
        );
        let bad_line = Status::BadLine {
            rank: 1,
            line: 2,
            why: LineWhy::TooLong,
        };
        assert_eq!(rt;
            note_of(alloc, &bad_line, &[])?.as_slice(),
            b"ygm_run: rank 1 line 2: line too long\n".as_slice()
        );
        assert_eq!(rt;
            note_of(alloc, &Status::WriteFault, &[])?.as_slice(),
            b"ygm_run: write failed\n".as_slice()
        );
        assert_eq!(rt;
            note_of(alloc, &Status::NoMemory, &[])?.as_slice(),
            b"ygm_run: out of memory\n".as_slice()
        );
        Ok(())
    }

    #[test]
    fn a_note_names_the_file(rt: HostRuntime) -> Result<(), Fail> {
        let alloc = rt.alloc();
        let names = vec![in alloc;
            String::from_str(alloc, "a")?,
            String::from_str(alloc, "nowhere")?,
        ]?;
        assert_eq!(rt; names.len(), 2);
        let second = Status::OpenFault { file: 1 };
        assert_eq!(rt;
            note_of(alloc, &second, &names)?.as_slice(),
            b"ygm_run: cannot open nowhere\n".as_slice()
        );
        Ok(())
    }

    #[test]
    fn done_has_no_note(rt: HostRuntime) -> Result<(), Fail> {
        let alloc = rt.alloc();
        assert_eq!(rt;
            note_of(alloc, &Status::Done, &[])?.as_slice(),
            b"".as_slice()
        );
        Ok(())
    }

    #[test]
    fn a_full_counter_is_reported_by_its_rank(rt: HostRuntime) -> Result<(), Fail> {
        let alloc = rt.alloc();
        let at = Counter::new(0).raise(1).err().ok_or("raised")?;
        let full = Status::CountFull { rank: 3, at };
        assert_eq!(rt;
            note_of(alloc, &full, &[])?.as_slice(),
            b"ygm_run: rank 3 is at a limit of its counts\n".as_slice()
        );
        assert_eq!(rt; full.number(), 7);
        Ok(())
    }
}
