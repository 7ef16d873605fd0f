//! The reader of lines.
ghost use Rattle.std.specs.Prelude.{◌≡◌, ℕ, List, false, IfOk};
ghost use Rattle.rising_counts.specs.Rising.{next_count};
ghost use Rattle.line_input.specs.Reading.{fresh_reading};
ghost use Rattle.line_input.specs.Turns.{TookTurn, Turned};

use crate::line::Line;
use crate::pieces::{Pieces, TooLong};
use rising_counts::one_more;
use std::alloc::{AllocError, Global};
use std::marker::Model;
use thiserror::Error;
use ygm_io::Source;

/// What a turn returned.
#[derive(Debug, Drop)]
pub enum Got {
    /// The next line.
    Line(Line),
    /// The turn read bytes, and no line is whole yet.
    More,
    /// The source ended, and every line was returned.
    End,
}

/// Why a turn failed.
#[derive(Clone, Copy, Debug, PartialEq, Eq, Error)]
pub enum LineFault {
    /// A read failed: the source's count of faults rose. The reader is done.
    #[error("the input can't be read")]
    ReadFault,
    /// The line of this number, from 1, has more than 1,000,000 bytes before its LF or the end. The reader is done.
    #[error("line {line} is too long")]
    LineTooLong { line: u64 },
    /// Memory ran out before the read. Nothing changed, and the next turn tries again.
    #[error("out of memory")]
    NoMemory,
}

impl From<AllocError> for LineFault {
    ghost use Rattle.std.specs.Prelude.{◌≡◌};
    ghost use Rattle.line_input.specs.declared.line_reader.LineFault.TheVariants.{NoMemory};

    ghost from_gives = { λ _ e. e ≡ NoMemory };

    fn from(_: AllocError) -> Self {
        LineFault::NoMemory
    }
}

/// Reads lines, at most one piece in each turn. The pieces may have any sizes.
#[derive(Debug, Drop)]
pub struct LineReader {
    pieces: Pieces,
    given: u64,
    done: bool,
}

impl Model for LineReader {
    ghost use Rattle.std.specs.Prelude.{◌≡◌, false};
    ghost use Rattle.line_input.specs.Held.{AreOpen, held_in};
    ghost use Rattle.line_input.specs.Reading.{Reading};

    ghost Value = { Reading };

    ghost view = { λ reader. record { held = held_in reader.pieces; given = reader.given; done = reader.done } };

    ghost invariant = { λ reader. reader.done ≡ false → AreOpen reader.pieces };
}

impl LineReader {
    /// A reader that has read nothing. It takes memory for one piece. Its turns take more for the part of a line
    /// that goes over the end of a piece, and keep that for the next such line.
    pub fn new(alloc: Global) -> Result<LineReader, AllocError>
        ensures { IfOk result (λ reader. reader ≡ fresh_reading) }
    {
        Ok(LineReader {
            pieces: Pieces::new(alloc)?,
            given: 0,
            done: false,
        })
    }

    /// Returns the next line, after at most one read. A line's bytes may come in any pieces.
    ///
    /// The turn takes its memory before it reads, so after `NoMemory` the reader and the source are
    /// unchanged. After `ReadFault`, `LineTooLong` and `End` there is no other turn.
    pub fn turn<S: Source>(&mut self, src: &mut S) -> Result<Got, LineFault>
        requires { self.old.done ≡ false }
        ensures turned { Turned S.left S.faults result self.old self.new src.old src.new }
        ensures each_turn { TookTurn S.left S.faults result self.old self.new src.old src.new }
    {
        if let Some(line) = self.pieces.whole_line()? {
            return Ok(self.give(line));
        }
        self.pieces.gather()?;
        let Ok(count) = self.pieces.read(src) else {
            self.done = true;
            return Err(LineFault::ReadFault);
        };
        if count == 0 {
            let Some(line) = self.pieces.last_line() else {
                self.done = true;
                return Ok(Got::End);
            };
            return Ok(self.give(line));
        }
        match self.pieces.take_piece(count) {
            Ok(Some(line)) => Ok(self.give(line)),
            Ok(None) => Ok(Got::More),
            Err(TooLong) => {
                self.done = true;
                Err(LineFault::LineTooLong {
                    line: one_more(self.given),
                })
            }
        }
    }

    /// Counts a line and returns it.
    fn give(&mut self, line: Line) -> Got
        ensures line { result ≡ Got.Line line }
        ensures counted { self.new ≡ record self.old { given = next_count self.old.given } }
    {
        self.given = one_more(self.given);
        Got::Line(line)
    }

    /// Whether there is no other turn: the last one returned the end, a failed read or a line that is too
    /// long. Takes no memory.
    pub fn done(&self) -> bool
        ensures { result ≡ self.now.done }
    {
        self.done
    }

    /// How many lines were returned. The count stays at 2^64 - 1. Takes no memory.
    pub fn line_number(&self) -> u64
        ensures { result ≡ self.now.given }
    {
        self.given
    }
}
