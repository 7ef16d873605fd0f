//! The bytes that were read and not returned yet.
ghost use Rattle.std.specs.Prelude.{◌≡◌, ◌+◌, ◌<◌, ◌≤◌, [], ◌∷◌, ◌++◌, length, take, drop, vec_len, vec_capacity, IfSome, IfNone, IfOk, OnOk, OnErr};
ghost use Rattle.ygm_io.specs.Content.{CallFailed};
ghost use Rattle.line_input.specs.Held.{AreGathered, AreLastLine, AreOpen, GavePiece, GaveText, IsPartial, IsTooLong, held_in, held_with};
ghost use Rattle.line_input.specs.Limits.{max_line};
ghost use Rattle.line_input.specs.Lines.{LacksLf, text_of};

use crate::line::{IN_PLACE, Line};
use memchr::memchr;
use std::alloc::{AllocError, Global};
use std::mem;
use ygm_io::{Failed, Source};

/// How many bytes one read asks for.
pub const READING_SPACE: usize = 65_536;

/// How many bytes a line has at most, including a CR and without its LF.
pub const MAX_LINE: usize = 1_000_000;

/// The present line has more bytes than a line may have.
pub struct TooLong;

/// The bytes that were read and not returned yet: those of the present line from earlier pieces, and what
/// remains of the last piece. A byte is searched for an LF once.
#[derive(Debug, Drop)]
pub struct Pieces {
    alloc: Global,
    /// What a source reads into. The bytes from `start` to `end` are still to be returned.
    pub buffer: Vec<u8>,
    pub start: usize,
    pub end: usize,
    /// The bytes of the present line from earlier pieces. They have no LF. Its memory is used again for later lines.
    pub carry: Vec<u8>,
}

impl Pieces {
    pub fn new(alloc: Global) -> Result<Pieces, AllocError>
        ensures open { IfOk result (λ pieces. AreOpen pieces) }
        ensures empty { IfOk result (λ pieces. held_in pieces ≡ []) }
    {
        Ok(Pieces {
            alloc,
            buffer: vec![in alloc; 0; READING_SPACE]?,
            start: 0,
            end: 0,
            carry: Vec::new(alloc),
        })
    }

    /// The first line, if the buffer has all of it. It is copied before anything changes.
    pub fn whole_line(&mut self) -> Result<Option<Line>, AllocError>
        requires { AreOpen self.old }
        ensures open { OnOk result (AreOpen self.new) }
        ensures line { IfOk result (λ found. IfSome found (λ line. GaveText (held_in self.old) line (held_in self.new))) }
        ensures none { IfOk result (λ found. IfNone found (LacksLf (held_in self.old))) }
        ensures unchanged { IfOk result (λ found. IfNone found (self.new ≡ self.old)) }
        ensures err { OnErr result (self.new ≡ self.old) }
    {
        let buffered = &self.buffer[self.start..self.end];
        let Some(length) = line_end(buffered) else {
            return Ok(None);
        };
        let raw = &buffered[..length];
        let line = Line::of(self.alloc, &raw[..text_len(raw)])?;
        self.start += length + 1;
        Ok(Some(line))
    }

    /// Moves what is still in the buffer to the carry, and takes memory there for a whole piece more, unless the carry
    /// has it.
    pub fn gather(&mut self) -> Result<(), AllocError>
        requires open { AreOpen self.old }
        requires partial { LacksLf (held_in self.old) }
        ensures open { AreOpen self.new }
        ensures same { held_in self.new ≡ held_in self.old }
        ensures gathered { OnOk result (AreGathered self.new) }
        ensures short { OnOk result (length (held_in self.new) ≤ max_line) }
    {
        let buffered = &self.buffer[self.start..self.end];
        self.carry.reserve(buffered.len() + READING_SPACE)?;
        self.carry.extend_from_slice(buffered)?;
        self.start = 0;
        self.end = 0;
        Ok(())
    }

    /// Reads a piece into the buffer.
    pub fn read<S: Source>(&mut self, src: &mut S) -> Result<usize, Failed>
        requires open { AreOpen self.old }
        requires gathered { AreGathered self.old }
        ensures open { AreOpen self.new }
        ensures gathered { AreGathered self.new }
        ensures same { held_in self.new ≡ held_in self.old }
        ensures piece { IfOk result (λ count. GavePiece S.left S.faults count self.new.buffer.items src.old src.new) }
        ensures failed { OnErr result (CallFailed (S.left src.old) (S.left src.new) (S.faults src.old) (S.faults src.new)) }
        ensures never_falls { S.faults src.old ≤ S.faults src.new }
    {
        src.read(&mut self.buffer)
    }

    /// The last line, which no LF ends, if there is one.
    pub fn last_line(&mut self) -> Option<Line>
        requires open { AreOpen self.old }
        requires gathered { AreGathered self.old }
        ensures open { AreOpen self.new }
        ensures line { IfSome result (λ line. AreLastLine (held_in self.old) line) }
        ensures none { IfNone result (held_in self.old ≡ []) }
        ensures nothing_held { held_in self.new ≡ [] }
    {
        if self.carry.is_empty() {
            return None;
        }
        Some(self.take_carry())
    }

    /// Takes in the piece that was read, and returns the line that it made whole, if it did.
    pub fn take_piece(&mut self, count: usize) -> Result<Option<Line>, TooLong>
        requires open { AreOpen self.old }
        requires gathered { AreGathered self.old }
        requires within { count ≤ READING_SPACE }
        ensures open { OnOk result (AreOpen self.new) }
        ensures line { IfOk result (λ found. IfSome found (λ line. GaveText (held_with count self.old) line (held_in self.new))) }
        ensures none { IfOk result (λ found. IfNone found (IsPartial (held_with count self.old) (held_in self.new))) }
        ensures too_long { OnErr result (IsTooLong (held_with count self.old) (held_in self.new)) }
    {
        let piece = &self.buffer[..count];
        let found = line_end(piece);
        let length = found.unwrap_or(count);
        if self.carry.len() + length > MAX_LINE {
            self.end = count;
            return Err(TooLong);
        }
        self.carry.extend_from_slice(&piece[..length]).unwrap();
        if found.is_none() {
            return Ok(None);
        }
        self.start = length + 1;
        self.end = count;
        Ok(Some(self.take_carry()))
    }

    /// The carry as a line, without a CR at its end. The carry is then empty, and keeps its memory for the next line.
    /// Only where there is none for the line itself, the line gets the carry's, so that this can't fail.
    fn take_carry(&mut self) -> Line
        requires { vec_len self.old.carry ≤ max_line }
        ensures text { result ≡ text_of self.old.carry.items }
        ensures taken { self.new ≡ record self.old { carry = self.new.carry } }
        ensures empty { self.new.carry.items ≡ [] }
        ensures keeps_room { vec_len self.old.carry ≤ IN_PLACE → vec_capacity self.new.carry ≡ vec_capacity self.old.carry }
    {
        let length = text_len(&self.carry);
        self.carry.truncate(length);
        if let Ok(line) = Line::of(self.alloc, &self.carry) {
            self.carry.clear();
            return line;
        }
        Line::from_vec(mem::replace(&mut self.carry, Vec::new(self.alloc)))
    }
}

/// Where the first LF is.
fn line_end(bytes: &[u8]) -> Option<usize>
    ensures within { IfSome result (λ end. end < length bytes.now) }
    ensures partial { IfSome result (λ end. LacksLf (take end bytes.now)) }
    ensures parts { IfSome result (λ end. bytes.now ≡ take end bytes.now ++ 10 ∷ drop (end + 1) bytes.now) }
    ensures none { IfNone result (LacksLf bytes.now) }
{
    memchr(b'\n', bytes)
}

/// How many bytes of a line are its text: all but a CR at its end.
fn text_len(line: &[u8]) -> usize
    ensures within { result ≤ length line.now }
    ensures text { take result line.now ≡ text_of line.now }
{
    if line.last().copied() == Some(b'\r') {
        line.len() - 1
    } else {
        line.len()
    }
}
