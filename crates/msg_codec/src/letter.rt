//! One message from a rank to a rank.
ghost use Rattle.std.specs.Prelude.{◌≡◌, ◌≤◌, length};
ghost use Rattle.msg_codec.specs.Limits.{max_body};

use crate::Body;

/// The number of bytes of a letter's encoding before its body.
pub(crate) const HEADER_LEN: usize = 13;

/// An owned message: the rank that it goes to, the rank that sent it, the tag that says what its body is,
/// and the body.
#[derive(Debug, Drop)]
pub struct Letter {
    pub to: u32,
    pub from: u32,
    pub tag: u8,
    pub body: Body,
}

/// A borrowed message, as from a batch. Its body has at most `MAX_BODY` bytes.
#[derive(Clone, Copy, Debug)]
pub struct LetterRef<'a> {
    pub to: u32,
    pub from: u32,
    pub tag: u8,
    pub body: &'a [u8],
    pub ghost short: { length body.now ≤ max_body },
}

impl Letter {
    ghost use Rattle.msg_codec.specs.Letter.{letter_of};

    pub fn as_ref(&self) -> LetterRef<'_>
        ensures { letter_of result ≡ self.now }
    {
        LetterRef {
            to: self.to,
            from: self.from,
            tag: self.tag,
            body: self.body.as_slice(),
        }
    }
}

impl LetterRef<'_> {
    ghost use Rattle.msg_codec.specs.Letter.{letter_of};
    ghost use Rattle.msg_codec.specs.Spelling.{spelled_letter};

    /// The length of its encoding: the bytes before its body and those of its body.
    pub fn spelled_len(&self) -> usize
        ensures { result ≡ length (spelled_letter (letter_of self.now)) }
    {
        HEADER_LEN + self.body.len()
    }
}
