//! A table indexed by numbers, whose entries stay in the order in which they were added.

ghost use Rattle.std.specs.Prelude.{◌≡◌, ◌≢◌, ◌<◌, ℕ, [], true, false, is_some, length, nat_eq, OnOk, OnErr, None};
ghost use Rattle.std.specs.Prelude.{Some, IsSome, IfSome};
ghost use Rattle.std.specs.Map.{lookup};
ghost use Rattle.std.specs.Option.{option_copied};
ghost use Rattle.std.specs.Ordering.{nat_cmp};
ghost use Rattle.std.specs.BTreeMap.{get};
ghost use Rattle.std.specs.Vec.{vec_capacity};
ghost use Rattle.indexmap.specs.IndexMap.{insert_entry};
ghost use Rattle.tables.specs.Hints.{AreHinted};
ghost use Rattle.tables.specs.Tables.{changed_at, is_above, led_in, place_in, place_of, AreApart, IsPlaced, IsRising};

use crate::hints::{NO_PLACE, add_hint, hint_of};
use crate::sorted_numbers::place_among;
use std::alloc::{AllocError, Global};
use std::collections::BTreeMap;
use std::marker::Model;
use std::mem::replace;

/// Entries by number. No entry is ever removed.
#[derive(Drop)]
pub struct Table<V> {
    entries: Vec<(u64, V)>,
    /// Where the entries are.
    index: Index,
    /// The number that room was last reserved for.
    ready: Option<u64>,
}

/// Where the entry of each number is.
#[derive(Drop)]
struct Index {
    /// Where the entry of a number may be; none if no number needed a hint so far.
    hints: Vec<u32>,
    /// The greatest number that was above all earlier ones.
    top: Option<u64>,
    /// The numbers that were above all earlier ones, which rise, with the places of their entries.
    risen: Vec<(u64, usize)>,
    /// Where the entry of each other number is, or none if a number has its room but no entry yet.
    others: BTreeMap<u64, Option<usize>>,
}

impl<V> Model for Table<V> {
    ghost use Rattle.std.specs.Prelude.{◌<◌, length};
    ghost use Rattle.std.specs.Vec.{vec_capacity};
    ghost use Rattle.tables.specs.Hints.{AreHinted};
    ghost use Rattle.tables.specs.Tables.{Table, IsPlaced, IsReady};

    ghost Value = { Table V };

    ghost view = { λ t. record { entries = t.entries.items; ready = t.ready } };

    ghost invariant = { λ t. IsPlaced t.index.top t.index.risen.items t.index.others.entries t.entries.items
        × AreHinted t.index.hints.items t.entries.items
        × IsReady t.index.top (length t.entries.items < vec_capacity t.entries)
        (length t.index.risen.items < vec_capacity t.index.risen) t.index.others.entries t.ready };
}

impl<V: Drop> Table<V> {
    /// An empty table.
    pub fn new(alloc: Global) -> Table<V>
        ensures { result.entries ≡ [] }
    {
        Table {
            entries: Vec::new(alloc),
            index: Index {
                hints: Vec::new(alloc),
                top: None,
                risen: Vec::new(alloc),
                others: BTreeMap::new(alloc),
            },
            ready: None,
        }
    }

    /// The value of a number. `None` means that it has no entry.
    #[inline(always)]
    pub fn get(&self, number: u64) -> Option<&V>
        ensures { option_copied result ≡ lookup (nat_eq number) self.now.entries }
    {
        match place_of(&self.entries, &self.index, number) {
            Some(place) => Some(&self.entries[place].1),
            None => None,
        }
    }

    /// All entries, in the order in which they were added, each with its number.
    pub fn entries(&self) -> &[(u64, V)]
        ensures { result.now ≡ self.now.entries }
    {
        &self.entries
    }

    /// How many entries there are.
    pub fn len(&self) -> usize
        ensures { result ≡ length self.now.entries }
    {
        self.entries.len()
    }

    /// Whether the table has an entry of a number.
    pub fn contains(&self, number: u64) -> bool
        ensures { result ≡ is_some (lookup (nat_eq number) self.now.entries) }
    {
        self.get(number).is_some()
    }

    /// Reserves room for an entry of a number. No entry changes. The error means that memory ran out.
    pub fn reserve(&mut self, number: u64) -> Result<(), AllocError>
        ensures entries { self.new.entries ≡ self.old.entries }
        ensures room { OnOk result (self.new.ready ≡ Some number) }
    {
        self.ready = None;
        self.entries.reserve(1)?;
        make_room(
            self.index.top,
            &mut self.index.risen,
            &mut self.index.others,
            number,
        )?;
        self.ready = Some(number);
        Ok(())
    }

    /// Sets the value of a number: an existing entry keeps its place, a new one is added last. If memory runs out,
    /// nothing changes. It doesn't run out if the number has an entry, or room for one.
    #[inline(always)]
    pub fn insert(&mut self, number: u64, value: V) -> Result<(), AllocError>
        ensures ok { OnOk result (self.new.entries ≡ insert_entry nat_eq self.old.entries number value) }
        ensures err { OnErr result (self.new.entries ≡ self.old.entries) }
        ensures absent { OnErr result (lookup (nat_eq number) self.old.entries ≡ None) }
        ensures room { OnErr result (self.old.ready ≢ Some number) }
    {
        let place = self.entries.len();
        if is_above(self.index.top, number) {
            self.entries.reserve(1)?;
            self.index.risen.push((number, place))?;
            add_hint(
                &mut self.index.hints,
                self.entries.as_slice(),
                self.index.risen.as_slice(),
                self.index.others.is_empty(),
                number,
            );
            self.entries.push_reserved((number, value));
            self.index.top = Some(number);
            self.ready = None;
            return Ok(());
        }
        if let Some(place) = place_of(&self.entries, &self.index, number) {
            self.ready = None;
            self.entries[place] = (number, value);
            return Ok(());
        }
        self.entries.reserve(1)?;
        self.index.others.insert(number, Some(place))?;
        add_hint(
            &mut self.index.hints,
            self.entries.as_slice(),
            self.index.risen.as_slice(),
            false,
            number,
        );
        self.entries.push_reserved((number, value));
        self.ready = None;
        Ok(())
    }
}

impl<V: Drop> Table<V> {
    /// Puts another value in the place of a number's, and returns that. `None` means that it has no entry; then nothing
    /// changes.
    pub fn replace(&mut self, number: u64, value: V) -> Option<V>
        ensures value { result ≡ lookup (nat_eq number) self.old.entries }
        ensures entries { self.new.entries ≡ changed_at (λ old. value) self.old.entries number }
    {
        if let Some(place) = place_of(&self.entries, &self.index, number) {
            self.ready = None;
            return Some(replace(&mut self.entries[place].1, value));
        }
        None
    }
}

/// A value that can be marked in its place.
pub trait Mark {
    /// The value once it is marked.
    ghost marked: { Self → Self };

    /// Marks it.
    fn mark(&mut self)
        ensures { self.new ≡ marked self.old };
}

impl<V: Drop + Mark> Table<V> {
    /// Marks the value of a number. If the table has no entry for it, nothing changes.
    pub fn mark(&mut self, number: u64)
        ensures { self.new.entries ≡ changed_at V.marked self.old.entries number }
    {
        if let Some(place) = place_of(&self.entries, &self.index, number) {
            self.ready = None;
            self.entries[place].1.mark();
        }
    }
}

fn is_above(top: Option<u64>, number: u64) -> bool
    ensures { result ≡ is_above top number }
{
    match top {
        Some(top) => top < number,
        None => true,
    }
}

// Where the entry of a number is.
#[inline(always)]
fn place_of<V>(entries: &Vec<(u64, V)>, index: &Index, number: u64) -> Option<usize>
    requires placed { IsPlaced index.now.top index.now.risen.items index.now.others.entries entries.now.items }
    requires hinted { AreHinted index.now.hints.items entries.now.items }
    ensures { result ≡ place_of entries.now.items number }
{
    match place_at_once(entries.as_slice(), number) {
        Some(place) => Some(place),
        None => place_hinted(entries, index, number),
    }
}

// The same, if it is the last entry, or as far after the first entry as its number is above the first number. That is
// so if all numbers up to it were assigned one after the other. No other list is read.
#[inline(always)]
fn place_at_once<V>(entries: &[(u64, V)], number: u64) -> Option<usize>
    requires { AreApart entries.now }
    ensures { IfSome result (λ place. place_of entries.now number ≡ Some place) }
{
    let last = entries.len().checked_sub(1)?;
    if entries[last].0 == number {
        return Some(last);
    }
    let place = number.checked_sub(entries[0].0)? as usize;
    if place < last && entries[place].0 == number {
        return Some(place);
    }
    None
}

// Where the entry of any number is. A number above all others has none, nor does a number whose slot is empty. If the
// hint leads to an entry of another number, the lists are searched.
#[inline(never)]
fn place_hinted<V>(entries: &Vec<(u64, V)>, index: &Index, number: u64) -> Option<usize>
    requires placed { IsPlaced index.now.top index.now.risen.items index.now.others.entries entries.now.items }
    requires hinted { AreHinted index.now.hints.items entries.now.items }
    ensures { result ≡ place_of entries.now.items number }
{
    if is_above(index.top, number) {
        return None;
    }
    if let Some(hint) = hint_of(&index.hints, number) {
        let place = hint as usize;
        if place < entries.len() && entries[place].0 == number {
            return Some(place);
        }
        if hint == NO_PLACE {
            return None;
        }
    }
    place_in(&index.risen, &index.others, number)
}

// A number above all others has no place in either list.
fn place_in(
    risen: &Vec<(u64, usize)>,
    others: &BTreeMap<u64, Option<usize>>,
    number: u64,
) -> Option<usize>
    requires { IsRising risen.now.items }
    ensures { result ≡ place_in risen.now.items others.now.entries number }
{
    if let Some(place) = place_among(risen, number) {
        return Some(place);
    }
    match others.get(&number) {
        Some(place) => *place,
        None => None,
    }
}

// A number above all others then has room in the list; any other has its place in the map. No number's lookup changes.
fn make_room(
    top: Option<u64>,
    risen: &mut Vec<(u64, usize)>,
    others: &mut BTreeMap<u64, Option<usize>>,
    number: u64,
) -> Result<(), AllocError>
    ensures risen { risen.new.items ≡ risen.old.items }
    ensures others { (n : ℕ) → led_in others.new.entries n ≡ led_in others.old.entries n }
    ensures above { OnOk result (is_above top number ≡ true → length risen.new.items < vec_capacity risen.new) }
    ensures there { OnOk result (is_above top number ≡ false → IsSome (get nat_cmp others.new number)) }
{
    if is_above(top, number) {
        risen.reserve(1)?;
        return Ok(());
    }
    if !others.contains_key(&number) {
        others.insert(number, None)?;
    }
    Ok(())
}
