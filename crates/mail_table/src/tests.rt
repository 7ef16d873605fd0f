ghost use Rattle.std.specs.Prelude.{◌≡◌, ◌<◌, ◌≤◌, ◌+◌, [], ◌∷◌, IfOk, IfSome, length};
ghost use Rattle.mail_table.specs.Carrier.{SameCarrier};
ghost use Rattle.mail_table.specs.Seats.{AreFreshPasses};
ghost use Rattle.mail_table.specs.Table.{IsPassOf};

use super::*;
use msg_codec::{Batch, LetterRef};
use std::alloc::Global;
use std::marker::Model;
use std::test::*;
use std::thread::{Threads, join};
use world_core::{Limits, PutBack};
use ygm_route::{Layout, Scheme, next_hop};

/// A rank that sends letters of its own, each in a batch, and passes on by hand those that it takes for others.
#[derive(Drop)]
struct Carrier {
    pass: Pass,
    layout: Layout,
    scheme: Scheme,
    sent: u64,
    got: u64,
    waiting: Option<Batch>,
}

impl Model for Carrier {
    ghost use Rattle.mail_table.specs.Carrier.{CarrierState, Carries};

    ghost Value = { CarrierState };

    ghost view = { λ c. record { pass = c.pass; layout = c.layout; sent = c.sent; got = c.got } };

    ghost invariant = { λ c. Carries c.layout c.scheme c.pass c.sent c.waiting };
}

/// A batch of one letter, with this byte.
fn one_letter(alloc: Global, from: u32, to: u32, byte: u8) -> Option<Batch>
    ensures { IfSome result (λ batch. batch ≡ record { to = to; from = from; tag = 0; body = byte ∷ [] } ∷ []) }
{
    let mut batch = Batch::empty(alloc);
    let letter = LetterRef {
        to,
        from,
        tag: 0,
        body: &[byte],
    };
    match batch.push(letter) {
        Ok(()) => Some(batch),
        Err(_) => None,
    }
}

/// Sends a letter with the last byte of a number. Says whether the link had room.
fn send(
    alloc: Global,
    table: &MailTable,
    carrier: Carrier,
    to: u32,
    number: u64,
) -> Option<(Carrier, bool)>
    requires pass { IsPassOf table.now carrier.pass }
    requires to { to < carrier.layout.ranks }
    ensures { IfSome result (λ r. SameCarrier carrier r.0) }
{
    let Carrier {
        mut pass,
        layout,
        scheme,
        sent,
        got,
        waiting,
    } = carrier;
    if waiting.is_some() || sent >= 1 << 56 {
        return None;
    }
    let here = pass.rank();
    let batch = one_letter(alloc, here, to, (number % 256) as u8)?;
    let next = next_hop(&layout, scheme, here, to);
    match table.put(&mut pass, next, batch) {
        Ok(()) => {
            let sent = sent + 1;
            let carrier = Carrier {
                pass,
                layout,
                scheme,
                sent,
                got,
                waiting: None,
            };
            Some((carrier, true))
        }
        Err(_) => {
            let carrier = Carrier {
                pass,
                layout,
                scheme,
                sent,
                got,
                waiting: None,
            };
            Some((carrier, false))
        }
    }
}

/// Puts the batch that waits, if there is one and its link has room.
fn pass_on(table: &MailTable, carrier: Carrier) -> Option<Carrier>
    requires { IsPassOf table.now carrier.pass }
    ensures { IfSome result (λ r. SameCarrier carrier r) }
{
    let Carrier {
        mut pass,
        layout,
        scheme,
        sent,
        got,
        waiting,
    } = carrier;
    let Some(batch) = waiting else {
        return Some(Carrier {
            pass,
            layout,
            scheme,
            sent,
            got,
            waiting: None,
        });
    };
    let to = batch.letter_at(0).to;
    let next = next_hop(&layout, scheme, pass.rank(), to);
    match table.put(&mut pass, next, batch) {
        Ok(()) => Some(Carrier {
            pass,
            layout,
            scheme,
            sent,
            got,
            waiting: None,
        }),
        Err(PutBack::Full(batch)) => Some(Carrier {
            pass,
            layout,
            scheme,
            sent,
            got,
            waiting: Some(batch),
        }),
        Err(PutBack::NoMemory(_)) => None,
    }
}

/// Takes a batch of one letter from a rank, if one is there. The letters for the rank itself come in the order in which
/// their bytes rise.
fn take(table: &MailTable, carrier: Carrier, from: u32) -> Option<Carrier>
    requires pass { IsPassOf table.now carrier.pass }
    requires from { from < carrier.layout.ranks }
    ensures { IfSome result (λ r. SameCarrier carrier r) }
{
    let Carrier {
        mut pass,
        layout,
        scheme,
        sent,
        got,
        waiting,
    } = carrier;
    if waiting.is_some() {
        return Some(Carrier {
            pass,
            layout,
            scheme,
            sent,
            got,
            waiting,
        });
    }
    let here = pass.rank();
    let Some(batch) = table.take(&mut pass, from) else {
        return Some(Carrier {
            pass,
            layout,
            scheme,
            sent,
            got,
            waiting: None,
        });
    };
    if batch.count() != 1 {
        return None;
    }
    let letter = batch.letter_at(0);
    let (to, sender, tag) = (letter.to, letter.from, letter.tag);
    if to == here {
        if letter.body.first().copied() != Some((got % 256) as u8) {
            return None;
        }
        let got = got.checked_add(1)?;
        return Some(Carrier {
            pass,
            layout,
            scheme,
            sent,
            got,
            waiting: None,
        });
    }
    if tag >= 240 || to >= layout.ranks() || sender >= layout.ranks() || sender == here {
        return None;
    }
    Some(Carrier {
        pass,
        layout,
        scheme,
        sent,
        got,
        waiting: Some(batch),
    })
}

/// A carrier of the last of these passes.
fn next_carrier(
    table: &MailTable,
    passes: &mut Vec<Pass>,
    layout: Layout,
    scheme: Scheme,
) -> Option<Carrier>
    requires fresh { AreFreshPasses table.now (length passes.old.items) passes.old.items }
    requires few { length passes.old.items ≤ layout.ranks }
    requires layout { table.now.settings.layout ≡ layout }
    requires scheme { table.now.settings.scheme ≡ scheme }
    ensures fresh { AreFreshPasses table.now (length passes.new.items) passes.new.items }
    ensures pass { IfSome result (λ c. IsPassOf table.now c.pass) }
    ensures layout { IfSome result (λ c. c.layout ≡ layout) }
    ensures rank { IfSome result (λ c. c.pass.rank ≡ length passes.new.items) }
    ensures fewer { IfSome result (λ c. length passes.old.items ≡ length passes.new.items + 1) }
{
    let pass = passes.pop()?;
    Some(Carrier {
        pass,
        layout,
        scheme,
        sent: 0,
        got: 0,
        waiting: None,
    })
}

/// The pass of a carrier.
fn pass_of(carrier: Carrier) -> Pass
    ensures { result ≡ carrier.pass }
{
    let Carrier {
        pass,
        layout: _,
        scheme: _,
        sent: _,
        got: _,
        waiting: _,
    } = carrier;
    pass
}

/// Tries to send five letters. Says how many of them were put.
fn send_five(alloc: Global, table: &MailTable, carrier: Carrier, to: u32) -> Option<(Carrier, u64)>
    requires pass { IsPassOf table.now carrier.pass }
    requires to { to < carrier.layout.ranks }
    ensures { IfSome result (λ r. SameCarrier carrier r.0) }
{
    let mut carrier = carrier;
    let mut puts = 0;
    for number in 0..5 {
        let (next, put) = send(alloc, table, carrier, to, number)?;
        carrier = next;
        if put {
            puts += 1;
        }
    }
    Some((carrier, puts))
}

/// Closes a table of two ranks.
fn close_two(alloc: Global, table: MailTable, first: Carrier, second: Carrier) -> Option<()>
    requires two { table.settings.layout.ranks ≡ 2 }
    requires first { IsPassOf table first.pass }
    requires second { IsPassOf table second.pass }
    requires ranks { (first.pass.rank ≡ 0) × (second.pass.rank ≡ 1) }
{
    let all = vec![in alloc; pass_of(first), pass_of(second)].ok()?;
    table.close(all).holds();
    Some(())
}

/// Rank 0 of two tries to put five letters to rank 1, which took none and then takes one. Then it tries once more. Returns
/// how many of the five it put, how many letters rank 1 got, and whether there was room in the end.
fn fill(alloc: Global, ring: u32, limits: Limits) -> Result<(u64, u64, bool), Fail>
    requires some { 1 ≤ ring }
    requires few { ring ≤ 4 }
{
    let layout = Layout::new(2, 1)?;
    let (table, mut passes) = MailTable::new(alloc, layout, Scheme::Direct, ring, limits)?;
    let receiver = next_carrier(&table, &mut passes, layout, Scheme::Direct).ok_or("two passes")?;
    let sender = next_carrier(&table, &mut passes, layout, Scheme::Direct).ok_or("two passes")?;
    let receiver = take(&table, receiver, 0).ok_or("an empty link gives nothing")?;
    let (sender, puts) = send_five(alloc, &table, sender, 1).ok_or("letters are made")?;
    let receiver = take(&table, receiver, 0).ok_or("the first letter comes first")?;
    let got = receiver.got;
    let (sender, room) = send(alloc, &table, sender, 1, 5).ok_or("a letter is made")?;
    close_two(alloc, table, sender, receiver).ok_or("there is memory for a list")?;
    Ok((puts, got, room))
}

#[test]
fn a_link_holds_as_many_batches_as_its_ring(rt: HostRuntime) -> Result<(), Fail> {
    let alloc = rt.alloc();
    let one = fill(alloc, 1, Limits::FULL)?;
    let four = fill(alloc, 4, Limits::FULL)?;
    let limits = Limits {
        letters: 9,
        rounds: 9,
        batches: 1,
    };
    let spent = fill(alloc, 4, limits)?;
    assert_eq!(rt;
        (one, four, spent),
        ((1, 1, true), (4, 1, true), (1, 1, false))
    );
    Ok(())
}

/// Sends a letter. It tries until the link has room.
fn send_at_last(
    alloc: Global,
    table: &MailTable,
    carrier: Carrier,
    to: u32,
    number: u64,
) -> Option<Carrier>
    requires pass { IsPassOf table.now carrier.pass }
    requires to { to < carrier.layout.ranks }
    ensures { IfSome result (λ r. SameCarrier carrier r) }
{
    let mut carrier = carrier;
    for _ in 0..u64::MAX {
        let (next, put) = send(alloc, table, carrier, to, number)?;
        carrier = next;
        if put {
            return Some(carrier);
        }
    }
    None
}

/// Sends so many letters to each of the ranks 1 to 3.
fn send_all(alloc: Global, table: &MailTable, carrier: Carrier, count: u64) -> Option<Carrier>
    requires pass { IsPassOf table.now carrier.pass }
    requires four { carrier.layout.ranks ≡ 4 }
    ensures { IfSome result (λ r. SameCarrier carrier r) }
{
    let mut carrier = carrier;
    for number in 0..count {
        carrier = send_at_last(alloc, table, carrier, 1, number)?;
        carrier = send_at_last(alloc, table, carrier, 2, number)?;
        carrier = send_at_last(alloc, table, carrier, 3, number)?;
    }
    Some(carrier)
}

/// Takes from each of four ranks, and passes on what isn't for the rank itself.
fn turn(table: &MailTable, carrier: Carrier) -> Option<Carrier>
    requires pass { IsPassOf table.now carrier.pass }
    requires four { carrier.layout.ranks ≡ 4 }
    ensures { IfSome result (λ r. SameCarrier carrier r) }
{
    let mut carrier = carrier;
    for from in 0..4 {
        carrier = pass_on(table, carrier)?;
        carrier = take(table, carrier, from)?;
    }
    pass_on(table, carrier)
}

/// Whether it got as many letters as that, and has none to pass on.
fn is_done(carrier: &Carrier, count: u64) -> bool {
    carrier.got >= count && carrier.waiting.is_none()
}

/// Gives the ranks 1 to 3 turns until each got as many letters as that. A rank that is done still passes on what comes.
fn take_all(
    table: &MailTable,
    carriers: (Carrier, Carrier, Carrier),
    count: u64,
) -> Option<(Carrier, Carrier, Carrier)>
    requires passes { IsPassOf table.now carriers.0.pass × IsPassOf table.now carriers.1.pass × IsPassOf table.now carriers.2.pass }
    requires four { (carriers.0.layout.ranks ≡ 4) × (carriers.1.layout.ranks ≡ 4) × (carriers.2.layout.ranks ≡ 4) }
    ensures { IfSome result (λ r. SameCarrier carriers.0 r.0 × SameCarrier carriers.1 r.1 × SameCarrier carriers.2 r.2) }
{
    let (mut first, mut second, mut third) = carriers;
    for _ in 0..u64::MAX {
        if is_done(&first, count) && is_done(&second, count) && is_done(&third, count) {
            return Some((first, second, third));
        }
        first = turn(table, first)?;
        second = turn(table, second)?;
        third = turn(table, third)?;
    }
    None
}

/// Rank 0 sends and the others take, in two threads.
fn at_once<R: Threads + Sync>(
    rt: &R,
    alloc: Global,
    table: &MailTable,
    source: Carrier,
    others: (Carrier, Carrier, Carrier),
    count: u64,
) -> Option<(Carrier, (Carrier, Carrier, Carrier))>
    requires source { IsPassOf table.now source.pass × (source.layout.ranks ≡ 4) }
    requires passes { IsPassOf table.now others.0.pass × IsPassOf table.now others.1.pass × IsPassOf table.now others.2.pass }
    requires four { (others.0.layout.ranks ≡ 4) × (others.1.layout.ranks ≡ 4) × (others.2.layout.ranks ≡ 4) }
    ensures source { IfSome result (λ r. SameCarrier source r.0) }
    ensures others { IfSome result (λ r. SameCarrier others.0 r.1.0 × SameCarrier others.1 r.1.1 × SameCarrier others.2 r.1.2) }
{
    let (source, others) = join(
        rt,
        move || -> Option<Carrier>
            requires { IsPassOf table.now source.pass × (source.layout.ranks ≡ 4) }
            ensures { IfSome result (λ r. SameCarrier source r) }
        { send_all(alloc, table, source, count) },
        move || -> Option<(Carrier, Carrier, Carrier)>
            requires { IsPassOf table.now others.0.pass × IsPassOf table.now others.1.pass × IsPassOf table.now others.2.pass × (others.0.layout.ranks ≡ 4) × (others.1.layout.ranks ≡ 4) × (others.2.layout.ranks ≡ 4) }
            ensures { IfSome result (λ r. SameCarrier others.0 r.0 × SameCarrier others.1 r.1 × SameCarrier others.2 r.2) }
        { take_all(table, others, count) },
    );
    Some((source?, others?))
}

/// Closes a table of four ranks.
fn close_four(
    alloc: Global,
    table: MailTable,
    source: Carrier,
    others: (Carrier, Carrier, Carrier),
) -> Option<()>
    requires four { table.settings.layout.ranks ≡ 4 }
    requires source { IsPassOf table source.pass × (source.pass.rank ≡ 0) }
    requires first { IsPassOf table others.0.pass × (others.0.pass.rank ≡ 1) }
    requires second { IsPassOf table others.1.pass × (others.1.pass.rank ≡ 2) }
    requires third { IsPassOf table others.2.pass × (others.2.pass.rank ≡ 3) }
{
    let (first, second, third) = others;
    let all = vec![in alloc;
        pass_of(source),
        pass_of(first),
        pass_of(second),
        pass_of(third),
    ]
    .ok()?;
    table.close(all).holds();
    Some(())
}

/// Two threads carry so many letters from rank 0 to each of the ranks 1 to 3. Returns how many each got.
fn carry<R: Threads + Sync>(
    rt: &R,
    alloc: Global,
    scheme: Scheme,
    ring: u32,
    count: u64,
) -> Result<(u64, u64, u64), Fail>
    requires some { 1 ≤ ring }
    requires few { ring ≤ 4 }
{
    let layout = Layout::new(4, 2)?;
    let (table, mut passes) = MailTable::new(alloc, layout, scheme, ring, Limits::FULL)?;
    let third = next_carrier(&table, &mut passes, layout, scheme).ok_or("four passes")?;
    let second = next_carrier(&table, &mut passes, layout, scheme).ok_or("four passes")?;
    let first = next_carrier(&table, &mut passes, layout, scheme).ok_or("four passes")?;
    let source = next_carrier(&table, &mut passes, layout, scheme).ok_or("four passes")?;
    let (source, others) = at_once(rt, alloc, &table, source, (first, second, third), count).ok_or(
        "all letters come",
    )?;
    let got = (others.0.got, others.1.got, others.2.got);
    close_four(alloc, table, source, others).ok_or("there is memory for a list")?;
    Ok(got)
}

#[test]
fn two_threads_carry_letters_in_every_scheme(rt: HostRuntime) -> Result<(), Fail> {
    let alloc = rt.alloc();
    let direct = carry(&rt, alloc, Scheme::Direct, 4, 10_000)?;
    let remote = carry(&rt, alloc, Scheme::Nr, 1, 5_000)?;
    let local = carry(&rt, alloc, Scheme::Nlnr, 4, 5_000)?;
    assert_eq!(rt;
        (direct, remote, local),
        (
            (10_000, 10_000, 10_000),
            (5_000, 5_000, 5_000),
            (5_000, 5_000, 5_000)
        )
    );
    Ok(())
}

/// Looks at the stop until it is raised.
fn look(table: &MailTable, pass: Pass) -> (Pass, bool)
    requires { IsPassOf table.now pass }
    ensures { IsPassOf table.now result.0 }
{
    let mut pass = pass;
    for _ in 0..u64::MAX {
        if table.stopped(&mut pass) {
            return (pass, true);
        }
    }
    (pass, false)
}

/// One rank raises the stop, and another looks for it, in two threads. Returns whether it was raised before, and after.
fn stop<R: Threads + Sync>(rt: &R, table: &MailTable, raiser: Pass, looker: Pass) -> (bool, bool)
    requires raiser { IsPassOf table.now raiser }
    requires looker { IsPassOf table.now looker }
{
    let mut raiser = raiser;
    let mut looker = looker;
    let before = table.stopped(&mut looker) || table.stopped(&mut raiser);
    let (_, (_, after)) = join(
        rt,
        move || -> Pass
            requires { IsPassOf table.now raiser }
        {
            table.raise_stop(&mut raiser);
            raiser
        },
        move || -> (Pass, bool)
            requires { IsPassOf table.now looker }
        { look(table, looker) },
    );
    (before, after)
}

#[test]
fn a_stop_is_seen_in_another_thread(rt: HostRuntime) -> Result<(), Fail> {
    let alloc = rt.alloc();
    let layout = Layout::new(2, 1)?;
    let (table, mut passes) = MailTable::new(alloc, layout, Scheme::Direct, 4, Limits::FULL)?;
    let looker = next_carrier(&table, &mut passes, layout, Scheme::Direct).ok_or("two passes")?;
    let raiser = next_carrier(&table, &mut passes, layout, Scheme::Direct).ok_or("two passes")?;
    assert_eq!(rt;
        stop(&rt, &table, pass_of(raiser), pass_of(looker)),
        (false, true)
    );
    Ok(())
}
