//! The entries of a recording.

ghost use Rattle.std.specs.Prelude.{◌≡◌};
ghost use Rattle.stack_core.specs.Entries.{item_shown};
ghost use Rattle.stack_core.specs.Keys.{key_shown};

use crate::item::Item;
use crate::tick::{Key, Tick};
use case_forms::Host;
use std::marker::Model;

/// An item under its key. Contracts see it as an entry of a host's book.
#[derive(Drop)]
pub struct Entry {
    pub(crate) host: Host,
    pub(crate) tick: Tick,
    pub(crate) item: Item,
}

impl Model for Entry {
    ghost use Rattle.spec_merge.specs.Recordings.{TcpEntry};
    ghost use Rattle.stack_core.specs.Entries.{entry_at, item_shown};

    ghost Value = { TcpEntry };

    ghost view = { λ a. entry_at a.host a.tick (item_shown a.item) };
}

impl Entry {
    /// Its key.
    pub fn key(&self) -> Key
        ensures { key_shown result ≡ self.now.key }
    {
        Key {
            moment: self.tick.moment,
            counter: self.tick.counter,
            host: self.host,
        }
    }

    /// The item under its key.
    pub fn item(&self) -> &Item
        ensures { item_shown result.now ≡ self.now.item }
    {
        &self.item
    }
}
