//! A queue of items that are numbered one after the other and removed in any order.

ghost use Rattle.std.specs.Prelude.{◌≡◌, ◌+◌, ◌<◌, ◌++◌, ◌∷◌, ◌^◌, [], ℕ, filter, length, nat_eq, not, slice_get, None};
ghost use Rattle.std.specs.Prelude.{IfSome, IfNone, OnOk, OnErr};
ghost use Rattle.std.specs.Map.{lookup};
ghost use Rattle.std.specs.Option.{option_copied, option_map};
ghost use Rattle.std.specs.VecDeque.{deque_len};
ghost use Rattle.tables.specs.Queues.{standing, IsTrimmed};

use std::alloc::{AllocError, Global};
use std::collections::VecDeque;
use std::marker::Model;

/// Items numbered one after the other, some of which were removed. After the first remaining item, a removed one keeps
/// its slot, so the number gives an item's place directly.
#[derive(Drop)]
pub struct Queue<V> {
    /// The number of the first slot.
    first: u64,
    /// The items from that number on, none if one was removed. The first one exists.
    slots: VecDeque<Option<V>>,
    /// How many items remain.
    count: usize,
}

impl<V> Model for Queue<V> {
    ghost use Rattle.std.specs.Prelude.{◌≡◌, ◌+◌, ◌<◌, ◌^◌, length};
    ghost use Rattle.tables.specs.Queues.{Queue, standing, IsTrimmed};

    ghost Value = { Queue V };

    ghost view = { λ q. record { entries = standing q.first q.slots.items; next = q.first + length q.slots.items } };

    ghost invariant = { λ q. (q.count ≡ length (standing q.first q.slots.items))
        × (q.first + length q.slots.items < 2 ^ 64) × IsTrimmed q.slots.items };
}

impl<V: Drop> Queue<V> {
    /// An empty queue whose first item will have this number.
    pub fn new(alloc: Global, first: u64) -> Queue<V>
        ensures entries { result.entries ≡ [] }
        ensures next { result.next ≡ first }
    {
        Queue {
            first,
            slots: VecDeque::new(alloc),
            count: 0,
        }
    }

    /// Appends an item, whose number is the next one. If memory runs out, nothing changes.
    pub fn push(&mut self, item: V) -> Result<(), AllocError>
        requires { self.old.next + 1 < 2 ^ 64 }
        ensures ok { OnOk result (self.new ≡ record {
          entries = self.old.entries ++ (self.old.next, item) ∷ [];
          next = self.old.next + 1;
        }) }
        ensures err { OnErr result (self.new ≡ self.old) }
    {
        self.slots.push_back(Some(item))?;
        self.count += 1;
        Ok(())
    }

    /// The item with this number. `None` means that it was removed or never existed.
    pub fn get(&self, number: u64) -> Option<&V>
        ensures { option_copied result ≡ lookup (nat_eq number) self.now.entries }
    {
        let place = place_in(self.first, &self.slots, number)?;
        self.slots[place].as_ref()
    }

    /// Removes and returns the item with this number. `None` means that it doesn't exist.
    pub fn take(&mut self, number: u64) -> Option<V>
        ensures item { result ≡ lookup (nat_eq number) self.old.entries }
        ensures entries { self.new.entries ≡ filter (λ e. not (nat_eq number e.0)) self.old.entries }
        ensures next { self.new.next ≡ self.old.next }
    {
        let place = place_in(self.first, &self.slots, number)?;
        let item = self.slots[place].take()?;
        self.count -= 1;
        self.first += drop_empty(&mut self.slots);
        Some(item)
    }

    /// The first remaining item, with its number. `None` means that the queue is empty.
    pub fn first(&self) -> Option<(u64, &V)>
        ensures { option_map (λ e. (e.0, e.1.now)) result ≡ slice_get self.now.entries 0 }
    {
        match self.slots.front() {
            Some(Some(item)) => Some((self.first, item)),
            _ => None,
        }
    }

    /// How many items remain.
    pub fn len(&self) -> usize
        ensures { result ≡ length self.now.entries }
    {
        self.count
    }

    /// The number of the next item.
    pub fn next_number(&self) -> u64
        ensures { result ≡ self.now.next }
    {
        self.first + self.slots.len() as u64
    }
}

// The slot of a number, if it has one. The first slot has this number.
fn place_in<V>(first: u64, slots: &VecDeque<Option<V>>, number: u64) -> Option<usize>
    ensures some { IfSome result (λ place. (number ≡ first + place) × (place < deque_len slots.now)) }
    ensures none { IfNone result (lookup (nat_eq number) (standing first slots.now.items) ≡ None) }
{
    if number < first {
        return None;
    }
    let place = (number - first) as usize;
    if place >= slots.len() {
        return None;
    }
    Some(place)
}

// Frees the empty slots at the front, and counts them.
fn drop_empty<V: Drop>(slots: &mut VecDeque<Option<V>>) -> u64
    ensures standing { (n : ℕ) → standing n slots.old.items ≡ standing (n + result) slots.new.items }
    ensures count { length slots.old.items ≡ result + length slots.new.items }
    ensures trimmed { IsTrimmed slots.new.items }
{
    let mut count = 0;
    while let Some(None) = slots.front() {
        let _ = slots.pop_front();
        count += 1;
    }
    count
}
