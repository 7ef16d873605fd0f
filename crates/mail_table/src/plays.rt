//! The rule of a table, and what each kind of step on its words does.
use crate::settings::Settings;
use crate::views::View;
use atomic_table::{Join, Play, Split, TableRule};
use msg_codec::Batch;

/// The rule that the words, the slots and all views keep.
pub struct Ruled;

impl TableRule<Option<Batch>, View, Settings> for Ruled {
    ghost use Rattle.mail_table.specs.Rule.{Rule};
    ghost use Rattle.mail_table.specs.Views.{fresh_view};

    ghost holds = { Rule };

    ghost first = { fresh_view };
}

/// The sender loads a head word, and takes a slot where there is room.
pub struct LoadHead;

impl Play<Option<Batch>, View> for LoadHead {
    ghost use Rattle.mail_table.specs.Steps.{LoadsHead};

    ghost then = { LoadsHead };
}

/// The sender stores a tail word: the put.
pub struct StoreTail;

impl Play<Option<Batch>, View> for StoreTail {
    ghost use Rattle.mail_table.specs.Steps.{StoresTail};

    ghost then = { StoresTail };
}

/// The receiver loads a tail word: the take, where there is a batch more.
pub struct LoadTail;

impl Play<Option<Batch>, View> for LoadTail {
    ghost use Rattle.mail_table.specs.Steps.{LoadsTail};

    ghost then = { LoadsTail };
}

/// The receiver stores a head word, and gives a slot back.
pub struct StoreHead;

impl Play<Option<Batch>, View> for StoreHead {
    ghost use Rattle.mail_table.specs.Steps.{StoresHead};

    ghost then = { StoresHead };
}

/// A rank raises the stop.
pub struct StoreStop;

impl Play<Option<Batch>, View> for StoreStop {
    ghost use Rattle.mail_table.specs.Steps.{StoresStop};

    ghost then = { StoresStop };
}

/// A rank looks at the stop.
pub struct LoadStop;

impl Play<Option<Batch>, View> for LoadStop {
    ghost use Rattle.mail_table.specs.Steps.{LoadsStop};

    ghost then = { LoadsStop };
}

/// The seat of all ranks learns that their logs are a sound world.
pub struct Learn;

impl Play<Option<Batch>, View> for Learn {
    ghost use Rattle.mail_table.specs.Steps.{LearnsAll};

    ghost then = { LearnsAll };
}

/// A seat gives its first rank away.
pub struct Deal;

impl Split<View> for Deal {
    ghost use Rattle.mail_table.specs.Views.{first_part, other_part};

    ghost left = { other_part };

    ghost right = { first_part };
}

/// A seat takes in the ranks that come next.
pub struct Gather;

impl Join<View> for Gather {
    ghost use Rattle.mail_table.specs.Views.{joined, spent};

    ghost both = { joined };

    ghost spent = { spent };
}
