//! What an endpoint holds of its peer's stream beyond what is next in order, and what it may report.

ghost use Rattle.std.specs.Prelude.{◌≡◌, ◌<◌, ◌^◌, OnOk};
ghost use Rattle.std.specs.FinSet.{items};
ghost use Rattle.segment.specs.Reading.{sack_blocks};
ghost use Rattle.spec_flights.specs.Held.{are_untrue, held_after, is_true_block, is_untrue, is_untrue_at};

use case_forms::OutOfMemory;
use segment::{SackBlock, sack_block};
use seqno::{Word, read_near};
use spec_duties::Kept;
use streams::Ranges;

/// Why an endpoint may not send a segment with blocks.
#[derive(Clone, Copy)]
pub enum Untrue {
    /// The peer's SYN didn't permit them.
    NotPermitted,
    /// The block in this place, counted from 0, isn't true.
    Block(usize),
}

/// Notes what a step keeps, if this is RCV.NXT after it. What is in order then takes no room.
pub fn note_held(held: &mut Ranges, kept: Kept, next: u64) -> Result<(), OutOfMemory>
    ensures { OnOk result (items held.new ≡ held_after kept next (items held.old)) }
{
    if kept.upto <= next {
        held.forget_below(next);
        return Ok(());
    }
    held.add(kept.from, kept.upto)?;
    held.forget_below(next);
    Ok(())
}

fn is_true_block(held: &Ranges, next: u64, irs: Word, block: SackBlock) -> bool
    requires { next < 2 ^ 63 }
    ensures { result ≡ is_true_block held.now next irs block }
{
    match (
        read_near(next, irs, block.left),
        read_near(next, irs, block.right),
    ) {
        (Some(left), Some(right)) => left < right && held.covers(left.max(next), right),
        _ => false,
    }
}

fn is_untrue_at(held: &Ranges, next: u64, irs: Word, bytes: &[u8], place: usize) -> bool
    requires { next < 2 ^ 63 }
    ensures { result ≡ is_untrue_at held.now next irs (sack_blocks bytes.now) place }
{
    match sack_block(bytes, place) {
        Some(block) => !is_true_block(held, next, irs, block),
        None => false,
    }
}

fn are_untrue(held: &Ranges, next: u64, bytes: &[u8], irs: Word) -> bool
    requires { next < 2 ^ 63 }
    ensures { result ≡ are_untrue held.now next (sack_blocks bytes.now) irs }
{
    is_untrue_at(held, next, irs, bytes, 0)
        || is_untrue_at(held, next, irs, bytes, 1)
        || is_untrue_at(held, next, irs, bytes, 2)
        || is_untrue_at(held, next, irs, bytes, 3)
}

/// Whether an endpoint may not send a segment with these bytes, because of its blocks. `permitted`: the peer's SYN
/// permits them; `next`: RCV.NXT. Most segments have none.
pub fn is_untrue(permitted: bool, held: &Ranges, next: u64, irs: Option<Word>, bytes: &[u8]) -> bool
    requires { next < 2 ^ 63 }
    ensures { result ≡ is_untrue permitted held.now next irs (sack_blocks bytes.now) }
{
    if sack_block(bytes, 0).is_none() {
        return false;
    }
    if !permitted {
        return true;
    }
    match irs {
        Some(irs) => are_untrue(held, next, bytes, irs),
        None => false,
    }
}

/// The same, with the cause. None: it may.
pub fn why_untrue(
    permitted: bool,
    held: &Ranges,
    next: u64,
    irs: Option<Word>,
    bytes: &[u8],
) -> Option<Untrue>
    requires { next < 2 ^ 63 }
{
    sack_block(bytes, 0)?;
    if !permitted {
        return Some(Untrue::NotPermitted);
    }
    let irs = irs?;
    for place in 0..4 {
        if is_untrue_at(held, next, irs, bytes, place) {
            return Some(Untrue::Block(place));
        }
    }
    None
}
