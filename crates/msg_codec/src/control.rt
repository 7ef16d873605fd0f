//! Control letters, by which ranks find out that every letter has run.
ghost use Rattle.std.specs.Prelude.{◌≡◌, ◌≢◌, ◌+◌, ◌≤◌, length, drop, IfSome, IfNone};
ghost use Rattle.std.specs.Int.{w64, from_le_bytes};
ghost use Rattle.msg_codec.specs.declared.control.Control.{Control};
ghost use Rattle.msg_codec.specs.Bytes.{AreBytes};
ghost use Rattle.msg_codec.specs.Control.{letter_with, letter_of_control, control_of_letter, ControlFits};
ghost use Rattle.msg_codec.specs.Letter.{letter_of};
ghost use Rattle.msg_codec.specs.Placed.{Fits};
ghost use Rattle.msg_codec.specs.Spelling.{spelled_letter};

use crate::LetterRef;

const COUNT_TAG: u8 = 240;

const TOTAL_TAG: u8 = 241;

const BODY_LEN: u8 = 24;

/// What a control letter says: the number `q` of a round of counts, a number `s` of letters sent and a number
/// `r` of letters that ran.
#[derive(Clone, Copy, Debug, PartialEq, Eq)]
pub enum Control {
    /// What one rank has counted, sent by it to rank 0.
    Count { rank: u32, q: u64, s: u64, r: u64 },
    /// The sums over all ranks, sent by rank 0 to one rank.
    Total { to: u32, q: u64, s: u64, r: u64 },
}

/// The encoding of a letter with these three numbers in its body.
#[tactic(auto, unfolding(crate::specs::Control::spelled_counts))]
fn encoded_with(to: u32, from: u32, tag: u8, q: u64, s: u64, r: u64) -> [u8; 37]
    ensures bytes { result ≡ spelled_letter (letter_with to from tag q s r) }
    ensures fits { Fits (letter_with to from tag q s r) }
{
    let (to, from) = (to.to_le_bytes(), from.to_le_bytes());
    let (q, s, r) = (q.to_le_bytes(), s.to_le_bytes(), r.to_le_bytes());
    [
        to[0], to[1], to[2], to[3], from[0], from[1], from[2], from[3], tag, BODY_LEN, 0, 0, 0,
        q[0], q[1], q[2], q[3], q[4], q[5], q[6], q[7], s[0], s[1], s[2], s[3], s[4], s[5], s[6],
        s[7], r[0], r[1], r[2], r[3], r[4], r[5], r[6], r[7],
    ]
}

/// The encoding of the letter that a control is sent as.
pub(crate) fn encoded(control: Control) -> [u8; 37]
    ensures bytes { result ≡ spelled_letter (letter_of_control control) }
    ensures fits { Fits (letter_of_control control) }
{
    match control {
        Control::Count { rank, q, s, r } => encoded_with(0, rank, COUNT_TAG, q, s, r),
        Control::Total { to, q, s, r } => encoded_with(to, 0, TOTAL_TAG, q, s, r),
    }
}

/// The number that the bytes contain at the place.
fn number_in(bytes: &[u8], place: usize) -> u64
    requires { place + 8 ≤ length bytes.now }
    ensures value { result ≡ from_le_bytes w64 (drop place bytes.now) }
    ensures bytes { AreBytes bytes.now }
{
    let (_, rest) = bytes.split_at(place);
    u64::from_le_bytes([
        rest[0], rest[1], rest[2], rest[3], rest[4], rest[5], rest[6], rest[7],
    ])
}

/// The control that is sent as this letter. `None` if none is: a control letter has a tag, a sender or a
/// destination, and a length of its own.
#[tactic(auto, unfolding(crate::specs::Control::round_of, crate::specs::Control::sent_of, crate::specs::Control::run_of))]
pub fn control_of(letter: LetterRef<'_>) -> Option<Control>
    ensures found { IfSome result (λ control. letter_of letter.entry ≡ letter_of_control control) }
    ensures fits { IfSome result ControlFits }
    ensures none { IfNone result ((control : Control) → letter_of letter.entry ≢ letter_of_control control) }
    ensures exact { result ≡ control_of_letter (letter_of letter.entry) }
{
    if letter.body.len() != BODY_LEN as usize {
        return None;
    }
    let q = number_in(letter.body, 0);
    let s = number_in(letter.body, 8);
    let r = number_in(letter.body, 16);
    if letter.tag == COUNT_TAG && letter.to == 0 {
        return Some(Control::Count {
            rank: letter.from,
            q,
            s,
            r,
        });
    }
    if letter.tag == TOTAL_TAG && letter.from == 0 {
        return Some(Control::Total {
            to: letter.to,
            q,
            s,
            r,
        });
    }
    None
}
