//! Lines and made segments of two hosts, renumbered.

ghost use Rattle.std.specs.Prelude.{◌≡◌, ◌<◌, ◌≤◌, ◌+◌, IfOk, OnOk};
ghost use Rattle.stack_core.specs.Entries.{steps_in};
ghost use Rattle.recorder.specs.Numbers.{IsSmall, counted, counted_one, makes_segment, no_counts, no_turns, number_in};
ghost use Rattle.recorder.specs.Numbers.{takes_line, with_turn};

use crate::order::InOrder;
use case_forms::{Host, OutOfMemory};
use spec_step::Label;
use stack_core::{Entry, Item};
use std::alloc::Global;
use std::marker::Model;

/// The new numbers of each host's lines or made segments, in its own order. Contracts also see the first number of all,
/// and the next.
#[derive(Drop)]
pub(crate) struct Turns {
    zero: Vec<u32>,
    one: Vec<u32>,
    first: u32,
    next: u32,
}

impl Model for Turns {
    ghost use Rattle.std.specs.Prelude.{◌≡◌, ◌+◌, length};
    ghost use Rattle.recorder.specs.Numbers.{Turns};

    ghost Value = { Turns };

    ghost view = { λ t. record { zero = t.zero.items; one = t.one.items; first = t.first; next = t.next } };

    ghost invariant = { λ t. t.first + length t.zero.items + length t.one.items ≡ t.next };
}

impl Turns {
    /// None yet.
    fn new(alloc: Global, first: u32) -> Turns
        ensures { result ≡ no_turns first }
    {
        Turns {
            zero: Vec::new(alloc),
            one: Vec::new(alloc),
            first,
            next: first,
        }
    }

    // The next number is that host's.
    fn take(&mut self, host: Host) -> Result<(), OutOfMemory>
        requires { self.old.next ≤ 2147483647 }
        ensures { OnOk result (self.new ≡ with_turn self.old host) }
    {
        let Turns {
            zero,
            one,
            next,
            ..
        } = self;
        match host {
            Host::Zero => zero.reserve(1)?,
            Host::One => one.reserve(1)?,
        }
        match host {
            Host::Zero => zero.push_reserved(*next),
            Host::One => one.push_reserved(*next),
        }
        *next += 1;
        Ok(())
    }

    /// The new number of a host's line or made segment.
    pub(crate) fn number(&self, host: Host, old: u64) -> u32
        requires small { IsSmall old }
        requires few { self.now.next ≤ 2147483647 }
        ensures { result ≡ number_in self.now host old }
    {
        if old < u64::from(self.first) {
            return old as u32;
        }
        let own = match host {
            Host::Zero => self.zero.as_slice(),
            Host::One => self.one.as_slice(),
        };
        match own.get((old - u64::from(self.first)) as usize) {
            Some(number) => *number,
            None => old as u32 + (self.next - self.first - own.len() as u32),
        }
    }
}

/// The new numbers of lines and of made segments.
#[derive(Drop)]
pub(crate) struct Counts {
    pub(crate) lines: Turns,
    pub(crate) mades: Turns,
}

/// Whether an entry takes a line.
pub(crate) fn takes_line(entry: &Entry) -> bool
    ensures { result ≡ takes_line entry.now.item }
{
    match entry.item() {
        Item::Does(label) => matches!(label, Label::L(_)),
        Item::Brings(_) => false,
    }
}

// Whether it makes a segment.
fn makes_segment(entry: &Entry) -> bool
    ensures { result ≡ makes_segment entry.now.item }
{
    match entry.item() {
        Item::Does(label) => matches!(label, Label::M { .. } | Label::R { .. }),
        Item::Brings(_) => false,
    }
}

impl Counts {
    // Counts one more entry.
    fn count(&mut self, entry: &Entry) -> Result<(), OutOfMemory>
        requires lines { self.old.lines.next ≤ 2147483647 }
        requires mades { self.old.mades.next ≤ 2147483647 }
        ensures { OnOk result (record { lines = self.new.lines; mades = self.new.mades }
            ≡ counted_one (record { lines = self.old.lines; mades = self.old.mades }) entry.now) }
    {
        let host = entry.key().host;
        if takes_line(entry) {
            self.lines.take(host)?;
        }
        if makes_segment(entry) {
            self.mades.take(host)?;
        }
        Ok(())
    }
}

/// The new numbers of all entries, for lines from `first` on and for made segments from 1 on.
#[tactic(auto, using(crate::proofs::TellLemmas::lines_room, crate::proofs::TellLemmas::mades_room))]
pub(crate) fn count_all(
    alloc: Global,
    first: u32,
    mut entries: InOrder,
) -> Result<Counts, OutOfMemory>
    requires few { first + steps_in entries ≤ 1000000000 }
    ensures counts { IfOk result (λ c. record { lines = c.lines; mades = c.mades }
        ≡ counted (no_counts first) entries.entry) }
    ensures lines { IfOk result (λ c. c.lines.next ≤ 2147483647) }
    ensures mades { IfOk result (λ c. c.mades.next ≤ 2147483647) }
{
    let mut counts = Counts {
        lines: Turns::new(alloc, first),
        mades: Turns::new(alloc, 1),
    };
    while let Some(entry) = entries.next() {
        counts.count(entry)?;
    }
    Ok(counts)
}
