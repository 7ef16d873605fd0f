//! What remains of a table once all passes are joined.
ghost use Rattle.std.specs.Prelude.{◌≡◌};
ghost use Rattle.world_core.specs.Modest.{IsWorld};
ghost use Rattle.mail_table.specs.Rule.{world_in};

use crate::links::Mail;
use std::marker::Model;

/// The logs of a table, once all passes were joined. They are those of a sound world. `MailTable::close` alone makes one.
#[derive(Drop)]
pub struct Closed {
    seat: Mail,
}

impl Model for Closed {
    ghost use Rattle.world_core.specs.Modest.{IsWorld};
    ghost use Rattle.world_core.specs.World.{Logs};
    ghost use Rattle.mail_table.specs.Rule.{world_in};

    ghost Value = { Logs };

    ghost view = { λ c. world_in c.seat.me.0.settings c.seat.me.0.ranks };

    ghost invariant = { λ c. IsWorld (world_in c.seat.me.0.settings c.seat.me.0.ranks) };
}

impl Closed {
    /// The logs that a seat of all passes knows.
    pub(crate) fn of(seat: Mail) -> Closed
        requires { IsWorld (world_in seat.me.0.settings seat.me.0.ranks) }
        ensures { result ≡ world_in seat.me.0.settings seat.me.0.ranks }
    {
        Closed { seat }
    }

    /// It does nothing. The logs are those of a sound world.
    pub fn holds(&self)
        ensures { IsWorld self.now }
    {
        let _ = &self.seat;
    }
}
