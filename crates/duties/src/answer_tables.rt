//! What is kept of calls that wait. It takes no room until a case of version 6 needs it.
//! `lib.rt` says why functions here are inlined.

ghost use Rattle.std.specs.Prelude.{◌≡◌, nat_eq, IfOk, OnOk};
ghost use Rattle.indexmap.specs.IndexMap.{insert_entry};
ghost use Rattle.spec_network.specs.Tables.{pick, waiting};
ghost use Rattle.spec_duties.specs.Answering.{none_wait, ready_at, with_ready};

use crate::per_host::PerHost;
use case_forms::{Host, OutOfMemory};
use spec_duties::{OpenCall, Ready};
use spec_tcp::SocketTarget;
use std::alloc::Global;
use std::marker::Model;
use std::mem::replace;
use tables::Table;

// The tables themselves.
#[derive(Drop)]
struct Tables {
    threads: Table<Option<OpenCall>>,
    endpoints: PerHost<Table<Option<Ready>>>,
    listeners: PerHost<Table<Option<Ready>>>,
}

impl Model for Tables {
    ghost use Rattle.duties.specs.HostTables.{entries_of};
    ghost use Rattle.spec_duties.specs.Answering.{Waits};

    ghost Value = { Waits };

    ghost view = { λ a. record {
      threads = a.threads.entries;
      endpoints = entries_of a.endpoints;
      listeners = entries_of a.listeners;
    } };
}

// The value under a number, if there is one.
fn waiting_in(table: &Table<Option<Ready>>, place: u32) -> Option<Ready>
    ensures { result ≡ waiting place table.now.entries }
{
    match table.get(u64::from(place)) {
        Some(ready) => *ready,
        None => None,
    }
}

impl Tables {
    fn new(alloc: Global) -> Tables
        ensures { result ≡ none_wait }
    {
        Tables {
            threads: Table::new(alloc),
            endpoints: PerHost::new(Table::new(alloc), Table::new(alloc)),
            listeners: PerHost::new(Table::new(alloc), Table::new(alloc)),
        }
    }

    fn ready_at(&self, host: Host, target: SocketTarget) -> Option<Ready>
        ensures { result ≡ ready_at self.now host target }
    {
        match target {
            SocketTarget::EndpointAt(place) => waiting_in(self.endpoints.get(host), place),
            SocketTarget::ListenerAt(place) => waiting_in(self.listeners.get(host), place),
        }
    }

    fn insert_thread(&mut self, thread: u32, call: Option<OpenCall>) -> Result<(), OutOfMemory>
        ensures { OnOk result (self.new
            ≡ record self.old { threads = insert_entry nat_eq self.old.threads thread call }) }
    {
        self.threads.insert(u64::from(thread), call)
    }

    fn insert_ready(
        &mut self,
        host: Host,
        target: SocketTarget,
        ready: Option<Ready>,
    ) -> Result<(), OutOfMemory>
        ensures { OnOk result (self.new ≡ with_ready self.old host target ready) }
    {
        match target {
            SocketTarget::EndpointAt(place) => {
                self.endpoints.get_mut(host).insert(u64::from(place), ready)
            }
            SocketTarget::ListenerAt(place) => {
                self.listeners.get_mut(host).insert(u64::from(place), ready)
            }
        }
    }
}

/// The tables of calls that wait: none before the first entry.
#[derive(Drop)]
pub(crate) struct AnswerTables {
    alloc: Global,
    tables: Option<Box<Tables>>,
}

impl Model for AnswerTables {
    ghost use Rattle.std.specs.Option.{option_map_or};
    ghost use Rattle.spec_duties.specs.Answering.{Waits, none_wait};

    ghost Value = { Waits };

    ghost view = { λ a. option_map_or (λ tables. tables.value) a.tables none_wait };
}

impl AnswerTables {
    /// Without an entry.
    pub(crate) fn new(alloc: Global) -> AnswerTables
        ensures { result ≡ none_wait }
    {
        AnswerTables {
            alloc,
            tables: None,
        }
    }

    /// The open call of a thread, if it may have to wait.
    pub(crate) fn call_of(&self, thread: u32) -> Option<OpenCall>
        ensures { result ≡ waiting thread self.now.threads }
    {
        let Some(tables) = &self.tables else {
            return None;
        };
        match tables.threads.get(u64::from(thread)) {
            Some(call) => *call,
            None => None,
        }
    }

    /// The open calls that may have to wait, each with its thread; None once it ended.
    pub(crate) fn threads(&self) -> &[(u64, Option<OpenCall>)]
        ensures { result.now ≡ self.now.threads }
    {
        match &self.tables {
            Some(tables) => tables.threads.entries(),
            None => &[],
        }
    }

    /// Since when no call on what a live socket number names has to wait. None: no live number names it.
    pub(crate) fn ready_at(&self, host: Host, target: SocketTarget) -> Option<Ready>
        ensures { result ≡ ready_at self.now host target }
    {
        let Some(tables) = &self.tables else {
            return None;
        };
        tables.ready_at(host, target)
    }

    // The tables, taken out, or new ones.
    fn take(&mut self) -> Result<Box<Tables>, OutOfMemory>
        ensures { IfOk result (λ tables. tables.value ≡ self.old) }
    {
        match replace(&mut self.tables, None) {
            Some(tables) => Ok(tables),
            None => Ok(Box::new(self.alloc, Tables::new(self.alloc))?),
        }
    }

    /// Notes the call of a thread, or that it ended. If memory runs out, nothing of it is of use any more.
    pub(crate) fn insert_thread(
        &mut self,
        thread: u32,
        call: Option<OpenCall>,
    ) -> Result<(), OutOfMemory>
        ensures { OnOk result (self.new
            ≡ record self.old { threads = insert_entry nat_eq self.old.threads thread call }) }
    {
        let mut tables = self.take()?;
        tables.insert_thread(thread, call)?;
        self.tables = Some(tables);
        Ok(())
    }

    /// Notes since when no call on what a socket number names has to wait, or that the number isn't live any more. If
    /// memory runs out, nothing of it is of use any more.
    pub(crate) fn insert_ready(
        &mut self,
        host: Host,
        target: SocketTarget,
        ready: Option<Ready>,
    ) -> Result<(), OutOfMemory>
        ensures { OnOk result (self.new ≡ with_ready self.old host target ready) }
    {
        let mut tables = self.take()?;
        tables.insert_ready(host, target, ready)?;
        self.tables = Some(tables);
        Ok(())
    }
}
