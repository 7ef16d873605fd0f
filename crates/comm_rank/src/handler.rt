//! What a rank does with the letters that reach it.
ghost use Rattle.std.specs.Prelude.{◌≡◌, ◌<◌, ◌≤◌, ℕ, List, [], ◌∷◌, ◌++◌, length, take, OnOk, OnErr};
ghost use Rattle.msg_codec.specs.declared.letter.Letter.{Letter};
ghost use Rattle.world_core.specs.Limits.{data_tags};

use msg_codec::{Body, LetterRef};
use std::alloc::{AllocError, Global};
use std::marker::Model;

/// A letter that a handler sends, without its sender: the destination, the tag, below 240, which says what the body
/// is, and the body.
#[derive(Debug, Drop)]
pub struct Outbound {
    pub to: u32,
    pub tag: u8,
    pub body: Body,
}

/// The letters that a handler sends while it runs one, in order. They are kept here until the handler is done, so
/// that a refusal can take them back.
#[derive(Drop)]
pub struct Outgoing {
    ranks: u32,
    letters: Vec<Outbound>,
}

impl Model for Outgoing {
    ghost use Rattle.std.specs.List.{AllByRecursion};
    ghost use Rattle.comm_rank.specs.Sends.{Sends, IsData};

    ghost Value = { Sends };

    ghost view = { λ out. record { ranks = out.ranks; letters = out.letters.items } };

    ghost invariant = { λ out. AllByRecursion (IsData out.ranks) out.letters.items };
}

impl Outgoing {
    ghost use Rattle.std.specs.Prelude.{Some, map, slice_get};
    ghost use Rattle.std.specs.List.{AllByRecursion};
    ghost use Rattle.msg_codec.specs.Letter.{letter_of};
    ghost use Rattle.comm_rank.specs.Fold.{letter_by};
    ghost use Rattle.comm_rank.specs.Sends.{IsData};

    /// No letters, in a world of this many ranks. It takes memory from `alloc` as letters are sent.
    pub fn new(alloc: Global, ranks: u32) -> Outgoing
        ensures ranks { result.ranks ≡ ranks }
        ensures none { result.letters ≡ [] }
    {
        Outgoing {
            ranks,
            letters: Vec::new(alloc),
        }
    }

    /// Sends a letter, once the handler is done. The sender may be the destination. Out of memory, nothing is sent,
    /// and the body is lost.
    pub fn send(&mut self, to: u32, tag: u8, body: Body) -> Result<(), AllocError>
        requires destination { to < self.old.ranks }
        requires data { tag < data_tags }
        ensures ok { OnOk result (self.new.letters ≡ self.old.letters ++ record { to = to; tag = tag; body = body } ∷ []) }
        ensures err { OnErr result (self.new.letters ≡ self.old.letters) }
        ensures ranks { self.new.ranks ≡ self.old.ranks }
    {
        self.letters.push(Outbound { to, tag, body })?;
        Ok(())
    }

    /// The world's number of ranks.
    pub fn ranks(&self) -> u32
        ensures { result ≡ self.now.ranks }
    {
        self.ranks
    }

    /// The number of letters sent so far.
    pub fn count(&self) -> u64
        ensures { result ≡ length self.now.letters }
    {
        self.letters.len() as u64
    }

    /// The letter number `k`, from 0, with its sender.
    pub(crate) fn letter(&self, here: u32, k: u64) -> LetterRef<'_>
        requires { k < length self.now.letters }
        ensures letter { slice_get (map (letter_by here) self.now.letters) k ≡ Some (letter_of result) }
        ensures destination { result.to < self.now.ranks }
        ensures sender { result.from ≡ here }
        ensures tag { result.tag < data_tags }
    {
        let sent = &self.letters[k as usize];
        LetterRef {
            to: sent.to,
            from: here,
            tag: sent.tag,
            body: sent.body.as_slice(),
        }
    }

    /// Keeps the first `count` letters, so that a handler can take back what it sent before a refusal.
    pub fn cut(&mut self, count: u64)
        requires { count ≤ length self.old.letters }
        ensures data { AllByRecursion (IsData self.old.ranks) self.old.letters }
        ensures letters { self.new.letters ≡ take count self.old.letters }
        ensures ranks { self.new.ranks ≡ self.old.ranks }
    {
        self.letters.truncate(count as usize);
    }
}

/// What a rank keeps, and what it does with each letter that reaches it. That depends only on the letter, on what the
/// rank keeps, on its number and on the number of ranks. So what a rank keeps is a fold over the letters that ran
/// there.
pub trait Handler: Drop {
    ghost use Rattle.comm_rank.specs.declared.handler.Outbound.{Outbound as Sent};
    ghost use Rattle.msg_codec.specs.Letter.{letter_of};

    /// From contents, rank, number of ranks and letter to new contents and what is sent.
    ghost apply: { Self → ℕ → ℕ → Letter → Self × List Sent };

    /// From contents to those that `new` makes with the same parameters.
    ghost start: { Self → Self };

    /// Runs a letter. A letter with another tag than the handler's own, or with a body that encodes nothing, should
    /// change nothing and send nothing. What the handler sends is appended to `out`. Out of memory, contents and `out`
    /// are unchanged.
    fn run(
        &mut self,
        here: u32,
        letter: LetterRef<'_>,
        out: &mut Outgoing,
    ) -> Result<(), AllocError>
        ensures contents { OnOk result (self.new ≡ (apply self.old here out.old.ranks (letter_of letter.entry)).0) }
        ensures sent { OnOk result
            (out.new.letters ≡ out.old.letters ++ (apply self.old here out.old.ranks (letter_of letter.entry)).1) }
        ensures contents_unchanged { OnErr result (self.new ≡ self.old) }
        ensures nothing_sent { OnErr result (out.new.letters ≡ out.old.letters) }
        ensures ranks { out.new.ranks ≡ out.old.ranks };

    /// Running a letter doesn't change the start.
    ghost keeps_start: { (contents : Self) (here ranks : ℕ) (l : Letter) →
        start (apply contents here ranks l).0 ≡ start contents };
}
