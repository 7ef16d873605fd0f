//! What one letter is.
ghost use Rattle.std.specs.Prelude.{◌≡◌, ◌&&◌, ◌==◌};
ghost use Rattle.msg_codec.specs.Control.{is_control, is_count, is_total};
ghost use Rattle.msg_codec.specs.Letter.{letter_of};
ghost use Rattle.world_core.specs.Pairs.{is_data, is_of_pair};
ghost use Rattle.world_core.specs.Rules.{same_letter};

use crate::limits::DATA_TAGS;
use msg_codec::LetterRef;

const COUNT_TAG: u8 = 240;

const TOTAL_TAG: u8 = 241;

const CONTROL_LEN: usize = 24;

pub fn is_data(l: LetterRef<'_>) -> bool
    ensures { result ≡ is_data (letter_of l.entry) }
{
    l.tag < DATA_TAGS
}

pub fn is_count(l: LetterRef<'_>) -> bool
    ensures { result ≡ is_count (letter_of l.entry) }
{
    l.tag == COUNT_TAG && l.body.len() == CONTROL_LEN
}

pub fn is_total(l: LetterRef<'_>) -> bool
    ensures { result ≡ is_total (letter_of l.entry) }
{
    l.tag == TOTAL_TAG && l.body.len() == CONTROL_LEN
}

pub fn is_control(l: LetterRef<'_>) -> bool
    ensures { result ≡ is_control (letter_of l.entry) }
{
    is_count(l) || is_total(l)
}

pub fn is_of_pair(l: LetterRef<'_>, from: u32, to: u32) -> bool
    ensures { result ≡ is_of_pair from to (letter_of l.entry) }
{
    is_data(l) && l.from == from && l.to == to
}

/// Whether a rank sent the letter.
pub fn is_own(l: LetterRef<'_>, rank: u32) -> bool
    ensures { result ≡ (is_data (letter_of l.entry) && (l.entry.from == rank)) }
{
    is_data(l) && l.from == rank
}

/// Whether the letter is to run at a rank.
pub fn is_for(l: LetterRef<'_>, rank: u32) -> bool
    ensures { result ≡ (is_data (letter_of l.entry) && (l.entry.to == rank)) }
{
    is_data(l) && l.to == rank
}

pub fn is_same(a: LetterRef<'_>, b: LetterRef<'_>) -> bool
    ensures { result ≡ same_letter (letter_of a.entry) (letter_of b.entry) }
{
    a.to == b.to && a.from == b.from && a.tag == b.tag && a.body == b.body
}
