//! A letter that ran, as a tap returns it.

/// A letter that ran: the rank that sent it, its tag and its body.
#[derive(Clone, Copy, Debug, PartialEq, Eq)]
pub struct Told<'a> {
    pub from: u32,
    pub tag: u8,
    pub body: &'a [u8],
}
