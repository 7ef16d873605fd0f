//! What a rank reaches its links with.
ghost use Rattle.std.specs.Prelude.{◌≡◌, ◌<◌, length};

use crate::links::Mail;
use std::marker::Model;

/// What one rank reaches the links of a table with. It knows its log, and whether its rank raised the stop.
#[derive(Drop)]
pub struct Pass {
    pub(crate) rank: u32,
    pub(crate) puts: Vec<u64>,
    pub(crate) takes: Vec<u64>,
    pub(crate) seat: Mail,
}

impl Model for Pass {
    ghost use Rattle.mail_table.specs.Seats.{IsPass, pass_of};
    ghost use Rattle.mail_table.specs.Table.{PassState};

    ghost Value = { PassState };

    ghost view = { λ p. pass_of p.seat.table_id p.rank p.seat.me.0 };

    ghost invariant = { λ p. IsPass p.rank p.puts.items p.takes.items p.seat.me };
}

impl Pass {
    /// Its rank, which never changes. It counts the loads of the words of each link of its rank.
    pub fn rank(&self) -> u32
        ensures value { result ≡ self.now.rank }
        ensures within { result < self.now.settings.layout.ranks }
        ensures heads { length self.now.heads ≡ self.now.settings.layout.ranks }
        ensures tails { length self.now.tails ≡ self.now.settings.layout.ranks }
    {
        self.rank
    }
}
