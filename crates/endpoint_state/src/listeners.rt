//! The listeners of a host, found by their ports.

ghost use Rattle.std.specs.Prelude.{◌≡◌, ◌+◌, ◌-◌, ◌<◌, ◌^◌, false, [], ◌∷◌, ◌++◌, None, length, drop, take, slice_get};
ghost use Rattle.std.specs.Prelude.{OnOk, OnErr};
ghost use Rattle.std.specs.Option.{option_copied};
ghost use Rattle.streams.specs.Lists.{modify};
ghost use Rattle.spec_tcp.specs.HostTcp.{last_from, listens_on};

use indexmap::IndexMap;
use segment::OutOfMemory;
use spec_tcp::Listener;
use std::alloc::Global;
use std::marker::Model;

/// The listeners of a host, in the order of opening, which contracts see as a list. No two are open on one port.
#[derive(Drop)]
pub(crate) struct Listeners {
    all: Vec<Listener>,
    /// For each port, the listener opened last there. A hash table will do: ports have 16 bits, so few can collide.
    places: IndexMap<u16, u32>,
}

impl Model for Listeners {
    ghost use Rattle.std.specs.Prelude.{List, nat_eq};
    ghost use Rattle.std.specs.Map.{lookup};
    ghost use Rattle.spec_tcp.specs.declared.endpoint.Listener.{Listener};
    ghost use Rattle.endpoint_state.specs.Indexes.{IsListening};

    ghost Value = { List Listener };

    ghost view = { λ a. a.all.items };

    ghost invariant = { λ a. IsListening (λ port. lookup (nat_eq port) a.places.entries) a.all.items };
}

impl Listeners {
    pub(crate) fn new(alloc: Global) -> Listeners
        ensures { result ≡ [] }
    {
        Listeners {
            all: Vec::new(alloc),
            places: IndexMap::new(alloc),
        }
    }

    pub(crate) fn len(&self) -> usize
        ensures { result ≡ length self.now }
    {
        self.all.len()
    }

    /// The listener at a place.
    pub(crate) fn get(&self, place: u32) -> Option<&Listener>
        ensures { option_copied result ≡ slice_get self.now place }
    {
        self.all.get(place as usize)
    }

    /// The place of the open listener on a port.
    pub(crate) fn listener_on(&self, port: u16) -> Option<u32>
        ensures { result ≡ last_from (listens_on port) 0 None self.now }
    {
        let place = *self.places.get(&port)?;
        let listener = self.get(place)?;
        if listener.is_open { Some(place) } else { None }
    }

    /// Opens a listener on a port with no open listener. If memory runs out, nothing is changed.
    pub(crate) fn add(&mut self, listener: Listener) -> Result<(), OutOfMemory>
        requires room { length self.old + 1 < 2 ^ 32 }
        requires free { last_from (listens_on listener.port) 0 None self.old ≡ None }
        ensures ok { OnOk result (self.new ≡ self.old ++ listener ∷ []) }
        ensures err { OnErr result (self.new ≡ self.old) }
    {
        let place = self.all.len() as u32;
        self.all.reserve(1)?;
        self.places.insert(listener.port, place)?;
        self.all.push_reserved(listener);
        Ok(())
    }

    /// The listener at a place is closed.
    pub(crate) fn close(&mut self, place: u32)
        ensures { self.new ≡ modify self.old place (λ x. record x { is_open = false }) }
    {
        close_at(&mut self.all, place as usize);
    }

    /// A child joins the queue of the listener at a place. If memory runs out, nothing is changed.
    pub(crate) fn join(&mut self, place: u32, child: u32) -> Result<(), OutOfMemory>
        ensures ok { OnOk result (self.new ≡ modify self.old place (λ x. record x { queue = x.queue ++ child ∷ [] })) }
        ensures err { OnErr result (self.new ≡ self.old) }
    {
        join_at(&mut self.all, place as usize, child)
    }

    /// The first child leaves the queue of the listener at a place.
    pub(crate) fn leave(&mut self, place: u32)
        ensures { self.new ≡ modify self.old place (λ x. record x { queue = drop 1 x.queue }) }
    {
        leave_at(&mut self.all, place as usize);
    }

    /// The last child leaves the queue of the listener at a place.
    pub(crate) fn leave_last(&mut self, place: u32)
        ensures { self.new ≡ modify self.old place (λ x. record x { queue = take (length x.queue - 1) x.queue }) }
    {
        leave_last_at(&mut self.all, place as usize);
    }
}

fn close_at(listeners: &mut Vec<Listener>, place: usize)
    ensures { listeners.new.items ≡ modify listeners.old.items place (λ x. record x { is_open = false }) }
{
    if place < listeners.len() {
        let listener = &mut listeners[place];
        listener.is_open = false;
    }
}

fn join_at(listeners: &mut Vec<Listener>, place: usize, child: u32) -> Result<(), OutOfMemory>
    ensures ok { OnOk result (listeners.new.items
        ≡ modify listeners.old.items place (λ x. record x { queue = x.queue ++ child ∷ [] })) }
    ensures err { OnErr result (listeners.new.items ≡ listeners.old.items) }
{
    if place < listeners.len() {
        let listener = &mut listeners[place];
        listener.queue.join(child)?;
        return Ok(());
    }
    Ok(())
}

fn leave_at(listeners: &mut Vec<Listener>, place: usize)
    ensures { listeners.new.items ≡ modify listeners.old.items place (λ x. record x { queue = drop 1 x.queue }) }
{
    if place < listeners.len() {
        let listener = &mut listeners[place];
        listener.queue.leave();
    }
}

fn leave_last_at(listeners: &mut Vec<Listener>, place: usize)
    ensures { listeners.new.items ≡ modify listeners.old.items place
        (λ x. record x { queue = take (length x.queue - 1) x.queue }) }
{
    if place < listeners.len() {
        let listener = &mut listeners[place];
        listener.queue.leave_last();
    }
}
