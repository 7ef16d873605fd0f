//! The handler of the tests: it keeps what came, and answers some letters and passes others on.
ghost use Rattle.std.specs.Prelude.{◌≡◌, ◌<◌, ◌+◌, ◌++◌, [], ◌∷◌, nat_lt, if◌then◌else◌, OnOk, OnErr};

use comm_rank::{Handler, Outgoing};
use msg_codec::{Body, LetterRef};
use std::alloc::{AllocError, Global};
use std::marker::Model;

// The tags of a letter that changes nothing else, of one that asks for two answers, and of one that goes on.
pub(super) const NOTE: u8 = 0;

pub(super) const ASK: u8 = 1;

pub(super) const PASS: u8 = 2;

// Keeps the first byte of each letter's body. It answers one that asks twice, to its sender: by its body, and by an
// empty one. One that goes on it passes on to the next rank, with a first byte that is less by one, until that is 0.
#[derive(Drop)]
pub(super) struct Relay {
    alloc: Global,
    seen: Vec<u8>,
}

impl Model for Relay {
    ghost use Rattle.std.specs.Prelude.{ℕ, List};

    ghost Value = { List ℕ };

    ghost view = { λ relay. relay.seen.items };
}

impl Relay {
    pub(super) fn new(alloc: Global) -> Relay
        ensures { result ≡ [] }
    {
        Relay {
            alloc,
            seen: Vec::new(alloc),
        }
    }

    // The first bytes of the letters that ran.
    pub(super) fn seen(&self) -> &[u8]
        ensures { result.now ≡ self.now }
    {
        self.seen.as_slice()
    }
}

impl Handler for Relay {
    ghost use Rattle.std.specs.Prelude.{ℕ, [], ◌∷◌, ◌++◌, ◌+◌, ◌-◌, ◌&&◌, ◌==◌, nat_lt, if◌then◌else◌};
    ghost use Rattle.std.specs.Prelude.{refl, slice_index_or};

    ghost apply = { λ contents here ranks l.
        let first : ℕ = slice_index_or l.body 0 0 in
        let next : ℕ = if nat_lt (here + 1) ranks then here + 1 else 0 in (
          contents ++ first ∷ [],
          if (l.tag == 1) && (nat_lt l.from ranks)
              then record { to = l.from; tag = 0; body = l.body } ∷ record { to = l.from; tag = 0; body = [] } ∷ []
              else if (l.tag == 2) && (nat_lt 0 first && nat_lt next ranks)
              then record { to = next; tag = 2; body = (first - 1) ∷ [] } ∷ []
              else [],
        ) };

    ghost start = { λ _. [] };

    fn run(
        &mut self,
        here: u32,
        letter: LetterRef<'_>,
        out: &mut Outgoing,
    ) -> Result<(), AllocError> {
        let first = letter.body.first().copied().unwrap_or(0);
        let next = next_rank(here, out.ranks());
        self.seen.reserve(1)?;
        if letter.tag == ASK && letter.from < out.ranks() {
            answer(self.alloc, letter, out)?;
        } else if letter.tag == PASS && first > 0 && next < out.ranks() {
            out.send(next, PASS, Body::of(self.alloc, &[first - 1])?)?;
        }
        self.seen.push_reserved(first);
        Ok(())
    }

    ghost keeps_start = { λ _ _ _ _. refl };
}

// The rank after this one. After the last comes rank 0.
fn next_rank(here: u32, ranks: u32) -> u32
    ensures { result ≡ if nat_lt (here + 1) ranks then here + 1 else 0 }
{
    if ranks > 0 && here < ranks - 1 {
        here + 1
    } else {
        0
    }
}

// Sends both answers, or none.
fn answer(alloc: Global, letter: LetterRef<'_>, out: &mut Outgoing) -> Result<(), AllocError>
    requires { letter.from < out.old.ranks }
    ensures answers { OnOk result (out.new.letters ≡ out.old.letters
        ++ record { to = letter.entry.from; tag = 0; body = letter.entry.body.now }
        ∷ record { to = letter.entry.from; tag = 0; body = [] } ∷ []) }
    ensures none { OnErr result (out.new.letters ≡ out.old.letters) }
    ensures ranks { out.new.ranks ≡ out.old.ranks }
{
    let before = out.count();
    out.send(letter.from, NOTE, Body::of(alloc, letter.body)?)?;
    let second = match Body::of(alloc, b"") {
        Ok(body) => out.send(letter.from, NOTE, body),
        Err(refused) => Err(refused),
    };
    if second.is_err() {
        out.cut(before);
    }
    second
}
