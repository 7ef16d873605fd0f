//! The words and the slots of all links, and the steps that ranks make on them.
ghost use Rattle.std.specs.Prelude.{◌≡◌, ◌<◌, ◌≤◌, ◌+◌, ◌-◌, ◌^◌, true, ℕ, None, Some, [], ◌∷◌, length, IfOk, IfErr, OnOk, IfSome, IsNone};
ghost use Rattle.ygm_route.specs.Layout.{max_ranks};
ghost use Rattle.world_core.specs.Rules.{first_broken};
ghost use Rattle.world_core.specs.Rules.Deed.{Puts};
ghost use Rattle.mail_table.specs.Seats.{IsAt, IsEmptying, IsFilling, IsLaidOut, SeatFull, SeatNone, SeatPut, SeatTook};
ghost use Rattle.mail_table.specs.Steps.{HeadLoaded, TailLoaded, after_free, after_put, batch_in, local_in, put_in, slot_from, slot_to, taken_in};
ghost use Rattle.mail_table.specs.Table.{IsSettings};
ghost use Rattle.mail_table.specs.Views.{fresh_view, knowing, loaded, mine};
ghost use Rattle.mail_table.specs.Calls.{is_raised};
ghost use Rattle.mail_table.specs.Words.{base, head_at, slot_at, tail_at, words_of};

use crate::plays::{LoadHead, LoadStop, LoadTail, Ruled, StoreHead, StoreStop, StoreTail};
use crate::settings::Settings;
use crate::views::View;
use atomic_table::{Seat, Table};
use msg_codec::Batch;
use std::alloc::{AllocError, Global};
use world_core::laws::{
    a_fresh_world_is_sound, an_honest_put_keeps_a_sound_world,
    taking_the_next_batch_keeps_a_sound_world,
};
use ygm_route::MAX_RANKS;

/// What a rank steps with.
pub type Mail = Seat<Option<Batch>, View>;

/// The words and the slots of all links.
#[derive(Drop)]
pub struct Links {
    pub table: Table<Option<Batch>, View, Settings, Ruled, Global>,
    pub settings: Settings,
    ghost key: { table.shared.key ≡ settings },
    ghost laid_out: { IsLaidOut settings table.shared.table_id },
    ghost bounds: { IsSettings settings },
}

/// The word that each rank may store. It is 1 once a rank raised the stop, and 0 before.
const STOP: usize = 0;

/// Where the words of a rank begin. Rows are so long that words of different rows don't share a cache line: this is the
/// one place that says how far apart they are.
fn row(rank: u32) -> usize
    requires { rank ≤ max_ranks }
    ensures { result ≡ Rattle.mail_table.specs.Words.row rank }
{
    (rank as usize + 1) * (2 * MAX_RANKS as usize + 16)
}

/// The word with the number of batches that a rank put to a rank.
fn tail_word(from: u32, to: u32) -> usize
    requires { (from < max_ranks) × (to < max_ranks) }
    ensures { result ≡ tail_at from to }
{
    row(from) + to as usize
}

/// The word with the number of batches that were taken from a link and their slots freed.
fn head_word(from: u32, to: u32) -> usize
    requires { (from < max_ranks) × (to < max_ranks) }
    ensures { result ≡ head_at from to }
{
    row(to) + MAX_RANKS as usize + from as usize
}

/// The slot of a batch of a link, by the batch's number.
fn slot(settings: &Settings, from: u32, to: u32, number: u64) -> usize
    requires bounds { IsSettings settings.now }
    requires ranks { (from < settings.now.layout.ranks) × (to < settings.now.layout.ranks) }
    ensures { result ≡ slot_at settings.now.layout.ranks settings.now.ring from to number }
{
    let place = from as usize * settings.layout.ranks() as usize + to as usize;
    place * settings.ring as usize + (number % settings.ring) as usize
}

impl Links {
    /// Empty links, and the seat with all ranks.
    pub fn new(alloc: Global, settings: Settings) -> Result<(Links, Mail), AllocError>
        requires { IsSettings settings }
        ensures settings { IfOk result (λ made. made.0.settings ≡ settings) }
        ensures seat { IfOk result (λ made. (made.1.table_id ≡ made.0.table.shared.table_id) × (made.1.me ≡ (fresh_view settings, []))) }
    {
        a_fresh_world_is_sound();
        let ranks = settings.layout.ranks();
        let words = Vec::from_elem(alloc, 0, row(ranks))?;
        let slots = ranks as usize * ranks as usize * settings.ring as usize;
        let (table, seat) = Table::vacant(alloc, words.as_slice(), slots, &settings)?;
        Ok((Links { table, settings }, seat))
    }

    /// Loads the head word of a link. Where it shows room, the seat takes the slot of the next batch.
    fn load_head(&self, seat: &mut Mail, rank: u32, to: u32) -> u64
        requires table { seat.old.table_id ≡ self.now.table.shared.table_id }
        requires at { IsAt self.now.settings rank seat.old.me }
        requires receiver { to < self.now.settings.layout.ranks }
        ensures table { seat.new.table_id ≡ seat.old.table_id }
        ensures loaded { HeadLoaded to result seat.old.me seat.new.me }
    {
        self.table
            .shared
            .load::<LoadHead>(seat, head_word(rank, to))
    }

    /// Puts the batch in the slot that the seat has.
    fn store_tail(&self, seat: &mut Mail, rank: u32, to: u32, made: u64)
        requires table { seat.old.table_id ≡ self.now.table.shared.table_id }
        requires filling { IsFilling self.now.settings rank to made (Some (batch_in seat.old.me.1)) seat.old.me }
        requires few { made < self.now.settings.batches }
        requires honest { first_broken (local_in seat.old.me.0) (Puts to (batch_in seat.old.me.1)) ≡ None }
        ensures table { seat.new.table_id ≡ seat.old.table_id }
        ensures put { seat.new.me ≡ (after_put seat.old.me.0 (batch_in seat.old.me.1), []) }
    {
        an_honest_put_keeps_a_sound_world();
        self.table
            .shared
            .store::<StoreTail>(seat, tail_word(rank, to), made + 1);
    }

    /// Loads the tail word of a link. Where there is a batch more, the seat takes its slot.
    fn load_tail(&self, seat: &mut Mail, rank: u32, from: u32) -> u64
        requires table { seat.old.table_id ≡ self.now.table.shared.table_id }
        requires at { IsAt self.now.settings rank seat.old.me }
        requires sender { from < self.now.settings.layout.ranks }
        ensures table { seat.new.table_id ≡ seat.old.table_id }
        ensures loaded { TailLoaded from result seat.old.me seat.new.me }
    {
        taking_the_next_batch_keeps_a_sound_world();
        self.table
            .shared
            .load::<LoadTail>(seat, tail_word(from, rank))
    }

    /// Gives back the slot that the seat emptied.
    fn store_head(&self, seat: &mut Mail, rank: u32, from: u32, made: u64)
        requires table { seat.old.table_id ≡ self.now.table.shared.table_id }
        requires emptying { IsEmptying self.now.settings rank from made None seat.old.me }
        requires few { made < 2 ^ 64 - 1 }
        ensures table { seat.new.table_id ≡ seat.old.table_id }
        ensures freed { seat.new.me ≡ (after_free seat.old.me.0, []) }
    {
        self.table
            .shared
            .store::<StoreHead>(seat, head_word(from, rank), made + 1);
    }

    /// Puts a batch, as the rank `rank`, which has put so many to this rank before.
    pub fn put_at(
        &self,
        seat: &mut Mail,
        rank: u32,
        to: u32,
        made: u64,
        batch: Batch,
    ) -> Result<(), Batch>
        requires table { seat.old.table_id ≡ self.now.table.shared.table_id }
        requires at { IsAt self.now.settings rank seat.old.me }
        requires receiver { to < self.now.settings.layout.ranks }
        requires made { made ≡ put_in seat.old.me.0 to }
        requires honest { first_broken (local_in seat.old.me.0) (Puts to batch) ≡ None }
        ensures table { seat.new.table_id ≡ seat.old.table_id }
        ensures done { OnOk result (SeatPut to batch seat.old.me seat.new.me) }
        ensures full { IfErr result (λ back. (back ≡ batch) × SeatFull to seat.old.me seat.new.me) }
    {
        let head = self.load_head(seat, rank, to);
        if made - head >= self.settings.ring || made >= self.settings.batches {
            return Err(batch);
        }
        self.table
            .shared
            .exchange(seat, slot(&self.settings, rank, to, made), Some(batch));
        self.store_tail(seat, rank, to, made);
        Ok(())
    }

    /// Takes the oldest batch of a link, as the rank `rank`, which has taken so many from this rank before.
    pub fn take_at(&self, seat: &mut Mail, rank: u32, from: u32, made: u64) -> Option<Batch>
        requires table { seat.old.table_id ≡ self.now.table.shared.table_id }
        requires at { IsAt self.now.settings rank seat.old.me }
        requires sender { from < self.now.settings.layout.ranks }
        requires made { made ≡ taken_in seat.old.me.0 from }
        ensures table { seat.new.table_id ≡ seat.old.table_id }
        ensures few { IfSome result (λ batch. made + 1 < 2 ^ 64) }
        ensures took { IfSome result (λ batch. SeatTook from batch seat.old.me seat.new.me) }
        ensures none { IsNone result → SeatNone from seat.old.me seat.new.me }
    {
        let tail = self.load_tail(seat, rank, from);
        if tail <= made {
            return None;
        }
        match self
            .table
            .shared
            .exchange(seat, slot(&self.settings, from, rank, made), None)
        {
            Some(batch) => {
                self.store_head(seat, rank, from, made);
                Some(batch)
            }
            None => unreachable!(),
        }
    }

    /// Raises the stop.
    pub fn raise_at(&self, seat: &mut Mail)
        requires table { seat.old.table_id ≡ self.now.table.shared.table_id }
        requires at { IsAt self.now.settings seat.old.me.0.first seat.old.me }
        ensures table { seat.new.table_id ≡ seat.old.table_id }
        ensures raised { seat.new.me ≡ (knowing seat.old.me.0 (record (mine seat.old.me.0) { raised = true }), []) }
    {
        self.table.shared.store::<StoreStop>(seat, STOP, 1);
    }

    /// Loads the stop word.
    pub fn look_at(&self, seat: &mut Mail) -> u64
        requires table { seat.old.table_id ≡ self.now.table.shared.table_id }
        requires at { IsAt self.now.settings seat.old.me.0.first seat.old.me }
        ensures table { seat.new.table_id ≡ seat.old.table_id }
        ensures after { seat.new.me ≡ (knowing seat.old.me.0 (record (mine seat.old.me.0) { stop = loaded (mine seat.old.me.0).stop result }), []) }
        ensures own { (mine seat.old.me.0).raised ≡ true → is_raised result ≡ true }
    {
        self.table.shared.load::<LoadStop>(seat, STOP)
    }
}
