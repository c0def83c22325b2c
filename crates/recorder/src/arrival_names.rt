//! Which segment of the other host an arrival names.

ghost use Rattle.std.specs.Prelude.{◌≡◌, ◌↔◌, ◌≤◌, IsTrue, IfNone, IfOk, map};
ghost use Rattle.std.specs.Option.{IfSome};
ghost use Rattle.case_forms.specs.Traces.{first_event_line};
ghost use Rattle.stack_core.specs.Keys.{key_shown};
ghost use Rattle.recorder.specs.Naming.{AllNamed, FirstStranger, IsNamed, NamedItem, SameBytes, SameHead, SameMark};
ghost use Rattle.recorder.specs.Naming.{SameOptions, line_keys, wire_of};
ghost use Rattle.recorder.specs.Faults.{HasStranger, IsFirstStranger, NamesAll};

use crate::numbers::takes_line;
use crate::order::first_entry;
use case_forms::OutOfMemory;
use recording_parts::first_found;
use spec_tcp::Emission;
use stack_core::{Entry, Flying, Item, Key, Recording};
use std::alloc::Global;

// Whether two segments have the same mark.
fn has_same_mark(a: &Emission, b: &Emission) -> bool
    ensures { IsTrue result ↔ SameMark a.now b.now }
{
    a.sender == b.sender
        && a.peer_at_send == b.peer_at_send
        && a.pos == b.pos
        && a.ack == b.ack
        && a.is_reset_reply == b.is_reset_reply
        && a.moment == b.moment
}

// Whether they have the same ports, numbers, flags and windows.
fn has_same_head(a: &Emission, b: &Emission) -> bool
    ensures { IsTrue result ↔ SameHead a.now b.now }
{
    a.lport == b.lport
        && a.rport == b.rport
        && a.seq == b.seq
        && a.ack_seq == b.ack_seq
        && a.raised == b.raised
        && a.flags == b.flags
        && a.window == b.window
}

// Whether they carry the same options.
fn has_same_options(a: &Emission, b: &Emission) -> bool
    ensures { IsTrue result ↔ SameOptions a.now b.now }
{
    a.mss == b.mss && a.shift == b.shift && a.scaled == b.scaled && a.scale == b.scale
}

// Whether they have the same bytes.
fn has_same_bytes(a: &Emission, b: &Emission) -> bool
    ensures { IsTrue result ↔ SameBytes a.now b.now }
{
    a.payload.as_slice() == b.payload.as_slice() && a.bytes.as_slice() == b.bytes.as_slice()
}

// Whether two segments are the same.
#[tactic(auto, using(crate::proofs::Emissions::same_parts, crate::proofs::Emissions::parts_same))]
fn is_same(a: &Emission, b: &Emission) -> bool
    ensures { IsTrue result ↔ (a.now ≡ b.now) }
{
    if !has_same_mark(a, b) {
        return false;
    }
    if !has_same_head(a, b) {
        return false;
    }
    if !has_same_options(a, b) {
        return false;
    }
    has_same_bytes(a, b)
}

// Whether a segment is one that a host sent, if these are the keys of that host's lines.
fn is_named(keys: &[Key], other: &Recording, flying: &Flying) -> bool
    ensures { IsTrue result ↔ IsNamed (first_event_line other.now.header) (map key_shown keys.now)
        (wire_of other.now) flying.now }
{
    let first = other.header().first_event_line();
    if flying.line() < first {
        return false;
    }
    match keys.get((flying.line() - first) as usize) {
        Some(key) => {
            if *key != flying.key() {
                return false;
            }
        }
        None => return false,
    }
    match other.sent(flying.line()) {
        Some(emission) => is_same(emission, flying.emission()),
        None => false,
    }
}

// Whether an entry isn't a segment that was brought, or is one that the other host sent.
fn is_known(keys: &[Key], other: &Recording, entry: &Entry) -> bool
    ensures { IsTrue result ↔ NamedItem (first_event_line other.now.header) (map key_shown keys.now)
        (wire_of other.now) entry.now.item }
{
    match entry.item() {
        Item::Does(_) => true,
        Item::Brings(flying) => is_named(keys, other, flying),
    }
}

// The keys of the entries that take lines.
fn line_keys(alloc: Global, entries: &[Entry]) -> Result<Vec<Key>, OutOfMemory>
    ensures { IfOk result (λ keys. map key_shown keys.items ≡ line_keys entries.now) }
{
    let mut keys = Vec::new(alloc);
    let mut left = entries;
    while let Some((entry, behind)) = first_entry(left) {
        if takes_line(entry) {
            keys.push(entry.key())?;
        }
        left = behind;
    }
    Ok(keys)
}

// The number of the line after the first segment among these entries that wasn't sent, if the first line has the number
// `first`.
fn find_stranger(keys: &[Key], other: &Recording, first: u64, entries: &[Entry]) -> Option<u64>
    requires { first ≤ 100 }
    ensures none { IfNone result (AllNamed (first_event_line other.now.header) (map key_shown keys.now)
        (wire_of other.now) entries.now) }
    ensures some { IfSome result (FirstStranger (first_event_line other.now.header) (map key_shown keys.now)
        (wire_of other.now) first entries.now) }
{
    let mut left = entries;
    let mut line = first;
    while let Some((entry, behind)) = first_entry(left) {
        if !is_known(keys, other, entry) {
            return Some(line);
        }
        if takes_line(entry) {
            line += 1;
        }
        left = behind;
    }
    None
}

// The number of the line after the first segment that a recording brought and that the other host didn't send. None:
// there is no such segment. The error is that memory ran out.
#[tactic(auto, using(crate::proofs::Strangers::stranger_at))]
fn first_stranger(
    alloc: Global,
    mine: &Recording,
    other: &Recording,
) -> Result<Option<u64>, OutOfMemory>
    requires headers { mine.now.header ≡ other.now.header }
    ensures none { IfOk result (λ o. IfNone o (NamesAll mine.now other.now)) }
    ensures some { IfOk result (λ o. IfSome o (HasStranger mine.now other.now)) }
{
    let keys = line_keys(alloc, other.entries())?;
    let first = other.header().first_event_line();
    Ok(find_stranger(keys.as_slice(), other, first, mine.entries()))
}

/// The number of the line after the first segment that one of two recordings brought and that the other host didn't
/// send: in host 0's recording, else in host 1's. None: there is no such segment. The error is that memory ran out.
pub(crate) fn first_of_both(
    alloc: Global,
    zero: &Recording,
    one: &Recording,
) -> Result<Option<u64>, OutOfMemory>
    requires headers { zero.now.header ≡ one.now.header }
    ensures none { IfOk result (λ o. IfNone o (NamesAll zero.now one.now × NamesAll one.now zero.now)) }
    ensures some { IfOk result (λ o. IfSome o (IsFirstStranger zero.now one.now)) }
{
    let of_zero = first_stranger(alloc, zero, one)?;
    let of_one = match of_zero {
        Some(_) => None,
        None => first_stranger(alloc, one, zero)?,
    };
    Ok(first_found(of_zero, of_one))
}
