//! What is kept for the stricter duties. It takes no room until a case of version 6 needs it.
//! `lib.rt` says why functions here are inlined.

ghost use Rattle.std.specs.Prelude.{◌≡◌, nat_eq, unwrap_or, IfOk, OnOk};
ghost use Rattle.std.specs.Map.{lookup};
ghost use Rattle.std.specs.Option.{option_map_or};
ghost use Rattle.indexmap.specs.IndexMap.{insert_entry};
ghost use Rattle.spec_network.specs.Tables.{pick, waiting, with_host};
ghost use Rattle.spec_duties.specs.Credits.{credit_of, earned, has_credit, spent};
ghost use Rattle.spec_duties.specs.Strict.{nothing_strict};
ghost use Rattle.duties.specs.StrictTables.{none_kept};

use crate::credits::Credits;
use crate::per_host::PerHost;
use crate::strict::nothing_strict;
use case_forms::{Host, OutOfMemory};
use spec_duties::{StrictOwed, Unsent};
use std::alloc::Global;
use std::marker::Model;
use std::mem::replace;
use tables::Table;

// The tables themselves.
#[derive(Drop)]
struct Tables {
    owed: PerHost<Table<StrictOwed>>,
    unsent: Table<Option<Unsent>>,
    credits: PerHost<Credits>,
}

impl Model for Tables {
    ghost use Rattle.duties.specs.HostTables.{entries_of};
    ghost use Rattle.duties.specs.StrictTables.{StrictKept};

    ghost Value = { StrictKept };

    ghost view = { λ a. record { owed = entries_of a.owed; unsent = a.unsent.entries; credits = a.credits } };
}

impl Tables {
    fn new(alloc: Global) -> Tables
        ensures { result ≡ none_kept }
    {
        Tables {
            owed: PerHost::new(Table::new(alloc), Table::new(alloc)),
            unsent: Table::new(alloc),
            credits: PerHost::new(Credits::new(alloc), Credits::new(alloc)),
        }
    }

    fn insert_owed(&mut self, host: Host, place: u32, owed: StrictOwed) -> Result<(), OutOfMemory>
        ensures { OnOk result (self.new ≡ record self.old {
          owed = with_host self.old.owed host (insert_entry nat_eq (pick self.old.owed host) place owed);
        }) }
    {
        self.owed.get_mut(host).insert(u64::from(place), owed)
    }

    fn insert_unsent(&mut self, number: u32, unsent: Option<Unsent>) -> Result<(), OutOfMemory>
        ensures { OnOk result (self.new
            ≡ record self.old { unsent = insert_entry nat_eq self.old.unsent number unsent }) }
    {
        self.unsent.insert(u64::from(number), unsent)
    }

    fn earn(&mut self, host: Host, place: u32, moment: u64) -> Result<(), OutOfMemory>
        ensures { OnOk result (self.new ≡ record self.old {
          credits = with_host self.old.credits host (earned (credit_of place moment) (pick self.old.credits host));
        }) }
    {
        self.credits.get_mut(host).earn(place, moment)
    }

    fn spend(&mut self, host: Host, place: u32, moment: u64) -> Result<(), OutOfMemory>
        ensures { OnOk result (self.new ≡ record self.old {
          credits = with_host self.old.credits host (spent place moment (pick self.old.credits host));
        }) }
    {
        self.credits.get_mut(host).spend(place, moment)
    }
}

/// The tables of the stricter duties: none before the first entry.
#[derive(Drop)]
pub(crate) struct StrictTables {
    alloc: Global,
    tables: Option<Box<Tables>>,
}

impl Model for StrictTables {
    ghost use Rattle.std.specs.Option.{option_map_or};
    ghost use Rattle.duties.specs.StrictTables.{StrictKept, none_kept};

    ghost Value = { StrictKept };

    ghost view = { λ a. option_map_or (λ tables. tables.value) a.tables none_kept };
}

impl StrictTables {
    /// Without an entry.
    pub(crate) fn new(alloc: Global) -> StrictTables
        ensures { result ≡ none_kept }
    {
        StrictTables {
            alloc,
            tables: None,
        }
    }

    /// What the endpoint at a place owes.
    #[inline(always)]
    pub(crate) fn owed_by(&self, host: Host, place: u32) -> StrictOwed
        ensures { result ≡ unwrap_or (lookup (nat_eq place) (pick self.now.owed host)) nothing_strict }
    {
        let Some(tables) = &self.tables else {
            return nothing_strict();
        };
        match tables.owed.get(host).get(u64::from(place)) {
            Some(owed) => *owed,
            None => nothing_strict(),
        }
    }

    /// The segment of a number, if it was built and not sent.
    #[inline(always)]
    pub(crate) fn unsent_at(&self, number: u32) -> Option<Unsent>
        ensures { result ≡ waiting number self.now.unsent }
    {
        let Some(tables) = &self.tables else {
            return None;
        };
        match tables.unsent.get(u64::from(number)) {
            Some(unsent) => *unsent,
            None => None,
        }
    }

    /// Whether the endpoint at a place has a credit that it earned at this moment or later.
    pub(crate) fn has_credit(&self, host: Host, place: u32, moment: u64) -> bool
        ensures { result ≡ has_credit place moment (pick self.now.credits host) }
    {
        match &self.tables {
            Some(tables) => tables.credits.get(host).has(place, moment),
            None => false,
        }
    }

    /// The segments that were built, each with its number; None once it was sent.
    pub(crate) fn unsent(&self) -> &[(u64, Option<Unsent>)]
        ensures { result.now ≡ self.now.unsent }
    {
        match &self.tables {
            Some(tables) => tables.unsent.entries(),
            None => &[],
        }
    }

    // The tables, taken out, or new ones.
    fn take(&mut self) -> Result<Box<Tables>, OutOfMemory>
        ensures { IfOk result (λ tables. tables.value ≡ self.old) }
    {
        match replace(&mut self.tables, None) {
            Some(tables) => Ok(tables),
            None => Ok(Box::new(self.alloc, Tables::new(self.alloc))?),
        }
    }

    /// Notes what the endpoint at a place owes. If memory runs out, nothing of it is of use any more.
    pub(crate) fn insert_owed(
        &mut self,
        host: Host,
        place: u32,
        owed: StrictOwed,
    ) -> Result<(), OutOfMemory>
        ensures { OnOk result (self.new ≡ record self.old {
          owed = with_host self.old.owed host (insert_entry nat_eq (pick self.old.owed host) place owed);
        }) }
    {
        let mut tables = self.take()?;
        tables.insert_owed(host, place, owed)?;
        self.tables = Some(tables);
        Ok(())
    }

    /// Notes a segment, or that it was sent. If memory runs out, nothing of it is of use any more.
    pub(crate) fn insert_unsent(
        &mut self,
        number: u32,
        unsent: Option<Unsent>,
    ) -> Result<(), OutOfMemory>
        ensures { OnOk result (self.new
            ≡ record self.old { unsent = insert_entry nat_eq self.old.unsent number unsent }) }
    {
        let mut tables = self.take()?;
        tables.insert_unsent(number, unsent)?;
        self.tables = Some(tables);
        Ok(())
    }

    /// The endpoint at a place earns a credit. If memory runs out, nothing of it is of use any more.
    pub(crate) fn earn(&mut self, host: Host, place: u32, moment: u64) -> Result<(), OutOfMemory>
        ensures { OnOk result (self.new ≡ record self.old {
          credits = with_host self.old.credits host (earned (credit_of place moment) (pick self.old.credits host));
        }) }
    {
        let mut tables = self.take()?;
        tables.earn(host, place, moment)?;
        self.tables = Some(tables);
        Ok(())
    }

    /// The oldest credit that it earned at this moment or later is taken. If memory runs out, nothing of it is of use
    /// any more.
    pub(crate) fn spend(&mut self, host: Host, place: u32, moment: u64) -> Result<(), OutOfMemory>
        ensures { OnOk result (self.new ≡ record self.old {
          credits = with_host self.old.credits host (spent place moment (pick self.old.credits host));
        }) }
    {
        let mut tables = self.take()?;
        tables.spend(host, place, moment)?;
        self.tables = Some(tables);
        Ok(())
    }
}
