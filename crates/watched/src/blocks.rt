//! Which positions a segment reports as received.
//! `lib.rt` says why functions here are inlined.

ghost use Rattle.std.specs.Prelude.{◌≡◌, ◌<◌, ◌^◌, slice_get};
ghost use Rattle.segment.specs.Reading.{sack_blocks};
ghost use Rattle.spec_tcp.specs.Bounds.{IsSmallEmission};
ghost use Rattle.endpoint_state.specs.Kept.{AreReadable};
ghost use Rattle.spec_duties.specs.Blocks.{block_between, block_of, block_read, blocks_of, blocks_taken, no_blocks};
ghost use Rattle.spec_duties.specs.Blocks.{reads_blocks};
ghost use Rattle.watched.specs.Targets.{taker_at};

use case_forms::Version;
use duties::Target;
use endpoint_state::HostTcp;
use segment::{SackBlock, sack_block};
use seqno::{Word, read_near};
use spec_duties::{Block, Blocks};
use spec_tcp::{Arrived, Emission, Endpoint};

/// No block.
#[inline(always)]
pub(crate) fn no_blocks() -> Blocks
    ensures { result ≡ no_blocks }
{
    Blocks {
        first: None,
        second: None,
        third: None,
        fourth: None,
    }
}

// What a block between these positions reports. `top`: the position after all that was sent.
fn block_between(near: u64, top: u64, left: u64, right: u64) -> Option<Block>
    ensures { result ≡ block_between near top left right }
{
    if left < right && near < right && right <= top {
        Some(Block {
            from: left.max(near),
            upto: right,
        })
    } else {
        None
    }
}

// What a block reports, whose numbers are read near the oldest outstanding position.
fn block_read(near: u64, top: u64, iss: Word, block: SackBlock) -> Option<Block>
    requires { near < 2 ^ 63 }
    ensures { result ≡ block_read near top iss block }
{
    match (
        read_near(near, iss, block.left),
        read_near(near, iss, block.right),
    ) {
        (Some(left), Some(right)) => block_between(near, top, left, right),
        _ => None,
    }
}

// What the block in this place reports.
fn block_of(near: u64, top: u64, iss: Word, bytes: &[u8], place: usize) -> Option<Block>
    requires { near < 2 ^ 63 }
    ensures { result ≡ block_of near top iss (sack_blocks bytes.now) place }
{
    match sack_block(bytes, place) {
        Some(block) => block_read(near, top, iss, block),
        None => None,
    }
}

// What all blocks report. Most segments have none.
#[tactic(auto, using(crate::proofs::BlockLemmas::none_first))]
fn blocks_of(near: u64, top: u64, iss: Word, bytes: &[u8]) -> Blocks
    requires { near < 2 ^ 63 }
    ensures { result ≡ blocks_of near top iss (sack_blocks bytes.now) }
{
    match sack_block(bytes, 0) {
        Some(first) => Blocks {
            first: block_read(near, top, iss, first),
            second: block_of(near, top, iss, bytes, 1),
            third: block_of(near, top, iss, bytes, 2),
            fourth: block_of(near, top, iss, bytes, 3),
        },
        None => no_blocks(),
    }
}

/// Whether version 6 asks what a segment reports that an endpoint processes, and what the endpoint keeps of it.
#[inline(always)]
pub(crate) fn reads_blocks(version: Version, endpoint: &Endpoint, m: &Emission) -> bool
    ensures { result ≡ reads_blocks version endpoint.now m.now }
{
    version.says_sender() && !m.flags.rst && !endpoint.state.is_syn_sent()
}

/// Which positions a segment reports that is processed.
#[tactic(auto, using(endpoint_state::proofs::Readable::una_at))]
#[inline(always)]
pub(crate) fn blocks_taken(version: Version, b: &HostTcp, m: &Emission, target: Target) -> Blocks
    requires readable { AreReadable b.now.endpoints }
    requires small { IsSmallEmission m.now }
    ensures { result ≡ blocks_taken version m.now (taker_at b.now target) }
{
    let Target::Endpoint(place) = target else {
        return no_blocks();
    };
    let Some(e) = b.endpoint_at(place) else {
        return no_blocks();
    };
    if !reads_blocks(version, e, m) {
        return no_blocks();
    }
    let Some(iss) = e.iss else {
        return no_blocks();
    };
    let near = e.stream.snd_una.max(Arrived::read(version, e, m).ack());
    blocks_of(near, e.snd_max(), iss, m.bytes.as_slice())
}
