//! Random events, tried one after another, and what their logs say by a plain count.
ghost use Rattle.std.specs.Prelude.{◌≡◌, ◌<◌, ◌≤◌};

use super::rounds::rounds_ended;
use super::{byte_of, put, take};
use crate::limits::DATA_TAGS;
use crate::{Entry, Event, StepFault, World};
use msg_codec::{Batch, Control, Letters, control_of};
use std::alloc::{AllocError, Global};
use std::process::Abort;
use std::test::*;
use ygm_route::{Layout, Scheme};

/// How many letters of its own a rank sent, and how many for it ran.
type Sums = (u64, u64);

/// Whether this is the batch of a Count.
fn is_counted(letters: &Letters) -> bool {
    letters.count() == 1
        && matches!(
            control_of(letters.letter_at(0)),
            Some(Control::Count { .. })
        )
}

/// How many of these are data letters, for the rank or from it.
fn data_letters(letters: &Letters, rank: u32, sent: bool) -> u64 {
    let mut count: u64 = 0;
    for k in 0..letters.count() {
        let l = letters.letter_at(k);
        let end = if sent { l.from } else { l.to };
        if l.tag < DATA_TAGS && end == rank {
            count = count.saturating_add(1);
        }
    }
    count
}

/// What the log of a rank sent and ran before each of its Counts, and at last in all.
pub(super) fn cuts_of(alloc: Global, log: &[Entry], rank: u32) -> Result<Vec<Sums>, AllocError> {
    let mut cuts = Vec::new(alloc);
    let mut sums: Sums = (0, 0);
    for entry in log {
        match entry {
            Entry::Put { letters, .. } => {
                if is_counted(letters) {
                    cuts.push(sums)?;
                }
                sums.0 = sums.0.saturating_add(data_letters(letters, rank, true));
            }
            Entry::Took { letters, .. } => {
                sums.1 = sums.1.saturating_add(data_letters(letters, rank, false));
            }
        }
    }
    cuts.push(sums)?;
    Ok(cuts)
}

/// The bytes of the data letters of a pair that a log put, or took, before its Count of this number.
fn bytes_before(
    alloc: Global,
    log: &[Entry],
    mut count: u64,
    pair: (u32, u32),
    sent: bool,
) -> Result<Vec<u8>, Fail> {
    let mut bytes = Vec::new(alloc);
    for entry in log {
        let (letters, put) = match entry {
            Entry::Put { letters, .. } => (letters, true),
            Entry::Took { letters, .. } => (letters, false),
        };
        if put && is_counted(letters) {
            match count.checked_sub(1) {
                Some(fewer) => count = fewer,
                None => return Ok(bytes),
            }
        }
        for k in 0..letters.count() {
            let l = letters.letter_at(k);
            if put == sent && l.tag < DATA_TAGS && (l.from, l.to) == pair {
                bytes.push(byte_of(l)?)?;
            }
        }
    }
    Ok(bytes)
}

/// The sums of a round, if every rank has put its Count of it.
pub(super) fn round_of(all: &[Vec<Sums>], q: usize) -> Option<Sums> {
    let mut sums: Sums = (0, 0);
    for cuts in all {
        // The last of the cuts is no Count's.
        let (_, counted) = cuts.split_last()?;
        let cut = counted.get(q)?;
        sums = (sums.0.saturating_add(cut.0), sums.1.saturating_add(cut.1));
    }
    Some(sums)
}

/// The sums of all rounds that are complete, of which there are at most as many.
fn rounds_of(alloc: Global, all: &[Vec<Sums>], most: usize) -> Result<Vec<Sums>, AllocError> {
    let mut rounds = Vec::new(alloc);
    for q in 0..most {
        match round_of(all, q) {
            Some(sums) => rounds.push(sums)?,
            None => return Ok(rounds),
        }
    }
    Ok(rounds)
}

/// The rounds that end a barrier: the second of two that agree, each in itself and with the other.
fn ends_of(alloc: Global, rounds: &[Sums]) -> Result<Vec<u64>, AllocError> {
    let mut ends = Vec::new(alloc);
    let mut before: Option<Sums> = None;
    for (q, sums) in rounds.iter().enumerate() {
        let settled = sums.0 == sums.1;
        if settled && before == Some(*sums) {
            ends.push(q as u64)?;
            before = None;
        } else {
            before = Some(*sums);
        }
    }
    Ok(ends)
}

/// A world of a few ranks, and the numbers that choose what is tried next.
#[derive(Drop)]
struct Walk {
    alloc: Global,
    world: World,
    ranks: u32,
    seed: u64,
    byte: u8,
    ghost all: { world.layout.ranks ≡ ranks },
    ghost some: { 1 ≤ ranks },
}

impl Walk {
    fn new(alloc: Global, ranks: u32, seed: u64) -> Result<Walk, Fail>
        requires { 1 ≤ ranks }
    {
        Ok(Walk {
            alloc,
            world: World::new(alloc, Layout::new(ranks, 1)?, Scheme::Direct)?,
            ranks,
            seed,
            byte: 0,
        })
    }

    /// A number below another, which is at least 1, as Knuth's MMIX gives it.
    fn below(&mut self, most: u32) -> u32
        requires { 1 ≤ most }
        ensures within { result < most }
        ensures ranks { self.new.ranks ≡ self.old.ranks }
    {
        self.seed = self
            .seed
            .wrapping_mul(6364136223846793005)
            .wrapping_add(1442695040888963407);
        ((self.seed >> 33) % u64::from(most)) as u32
    }

    /// What each rank sent and ran before its Counts and in all.
    fn cuts(&self) -> Result<Vec<Vec<Sums>>, AllocError> {
        let mut all = Vec::new(self.alloc);
        for rank in 0..self.ranks {
            all.push(cuts_of(self.alloc, self.world.log(rank), rank)?)?;
        }
        Ok(all)
    }

    /// The next Count of a rank. One in eight has a wrong number.
    fn count(&mut self, rank: u32) -> Result<Control, Fail>
        requires { rank < self.old.ranks }
    {
        let cuts = cuts_of(self.alloc, self.world.log(rank), rank)?;
        let (s, r) = *cuts.last().ok_or("the whole log is a cut")?;
        let q = cuts.len() as u64 - 1;
        Ok(match self.below(16) {
            0 => Control::Count {
                rank,
                q,
                s: s.saturating_add(1),
                r,
            },
            1 => Control::Count {
                rank,
                q: q.saturating_add(1),
                s,
                r,
            },
            _ => Control::Count { rank, q, s, r },
        })
    }

    /// The next Total to a rank: the sums of the first round whose Total it wasn't sent.
    fn total(&mut self, to: u32) -> Result<Control, Fail> {
        let all = self.cuts()?;
        let q = totals_put(self.world.log(0), to);
        let (s, r) = round_of(&all, q as usize).unwrap_or((0, 0));
        Ok(match self.below(16) {
            0 => Control::Total {
                to,
                q,
                s,
                r: r.saturating_add(1),
            },
            _ => Control::Total { to, q, s, r },
        })
    }

    /// One event, honest or not.
    fn event(&mut self) -> Result<Event, Fail> {
        let rank = self.below(self.ranks);
        let other = self.below(self.ranks);
        match self.below(32) {
            0 => {
                self.byte = self.byte.wrapping_add(1);
                Ok(put(self.alloc, rank, other, &[(other, rank, 16, self.byte)])?)
            }
            1..=20 => Ok(take(rank, other)),
            21..=26 => {
                let control = self.count(rank)?;
                Ok(control_put(self.alloc, rank, 0, control)?)
            }
            _ => {
                let control = self.total(other)?;
                Ok(control_put(self.alloc, 0, other, control)?)
            }
        }
    }

    /// Tries as many events. What breaks a rule doesn't happen.
    fn try_events(&mut self, count: u32) -> Result<u64, Fail> {
        let mut happened: u64 = 0;
        for _ in 0..count {
            let event = self.event()?;
            match self.world.step(event) {
                Ok(()) => happened = happened.saturating_add(1),
                Err(StepFault::Dishonest(_)) => {}
                Err(StepFault::NoMemory) => return Err(AllocError.into()),
            }
        }
        Ok(happened)
    }

    /// Whether each rank took of each before its Count of a round just what the other put before its own.
    fn is_quiet(&self, q: u64) -> Result<bool, Fail> {
        for from in 0..self.ranks {
            for to in 0..self.ranks {
                let put = bytes_before(self.alloc, self.world.log(from), q, (from, to), true)?;
                let taken = bytes_before(self.alloc, self.world.log(to), q, (from, to), false)?;
                if put != taken {
                    return Ok(false);
                }
            }
        }
        Ok(true)
    }

    /// Whether each Total that rank 0 put has the sums of its round.
    fn totals_are_true(&self, rounds: &[Sums]) -> bool {
        for entry in self.world.log(0) {
            if let Entry::Put { letters, .. } = entry
                && letters.count() == 1
                && let Some(Control::Total { q, s, r, .. }) = control_of(letters.letter_at(0))
                && rounds.get(q as usize) != Some(&(s, r))
            {
                return false;
            }
        }
        true
    }
}

/// How many Totals to a rank a log put.
fn totals_put(log: &[Entry], rank: u32) -> u64 {
    let mut count: u64 = 0;
    for entry in log {
        if let Entry::Put { to, letters } = entry
            && *to == rank
            && letters.count() == 1
            && matches!(
                control_of(letters.letter_at(0)),
                Some(Control::Total { .. })
            )
        {
            count = count.saturating_add(1);
        }
    }
    count
}

pub(super) fn control_put(
    alloc: Global,
    from: u32,
    to: u32,
    control: Control,
) -> Result<Event, AllocError> {
    Ok(Event::Put {
        from,
        to,
        letters: Letters::of(alloc, &Batch::of_control(alloc, control))?,
    })
}

/// Compares what the world says of its barriers with the plain count.
fn compare(rt: &impl Abort, walk: &Walk) -> Result<usize, Fail> {
    let all = walk.cuts()?;
    let rounds = rounds_of(walk.alloc, &all, walk.world.log(0).len())?;
    let ends = ends_of(walk.alloc, &rounds)?;
    assert_eq!(rt;
        rounds_ended(walk.alloc, &walk.world)?.as_slice(),
        ends.as_slice()
    );
    assert!(rt; walk.totals_are_true(&rounds));
    for q in &ends {
        assert!(rt;
            walk.is_quiet(q.saturating_sub(1))?,
            "the cut of the barrier that round {q} ends"
        );
    }
    Ok(ends.len())
}

#[test]
fn random_events_keep_the_rounds_true(rt: HostRuntime) -> Result<(), Fail> {
    for (ranks, seed) in [(2, 1), (3, 2), (3, 3)] {
        let mut walk = Walk::new(rt.alloc(), ranks, seed)?;
        let mut ended = 0;
        for _ in 0..10 {
            walk.try_events(200)?;
            ended = compare(&rt, &walk)?;
        }
        assert!(rt; ended > 4, "{ended} barriers ended");
    }
    Ok(())
}
