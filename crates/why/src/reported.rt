//! What a selective acknowledgment reports, and the endpoint doesn't hold.

use crate::late::describe_touched;
use crate::numbers::position;
use crate::scene::Scene;
use case_forms::Wire;
use endpoint_state::Endpoint;
use flights::Untrue;
use plain_words::Sheet;
use segment::sack_block;
use spec_tcp::Emission;

/// Writes why the blocks of a segment aren't true.
pub(crate) fn untrue(out: &mut Sheet, scene: &Scene, made: &Emission, wire: &Wire) {
    describe_touched(out, scene);
    let (id, bytes) = (made.sender, wire.bytes.as_slice());
    let Some(endpoint) = scene.world.body(id.host).endpoint_at(id.number) else {
        return;
    };
    match scene.flights.why_untrue(id, endpoint, bytes) {
        Some(Untrue::NotPermitted) => out.put(
            "it has a SACK block, though the peer's SYN doesn't permit any\n",
        ),
        Some(Untrue::Block(place)) => say_block(out, endpoint, bytes, place),
        None => {}
    }
}

// Writes what the block in this place, counted from 0, reports.
fn say_block(out: &mut Sheet, endpoint: &Endpoint, bytes: &[u8], place: usize) {
    let Some(block) = sack_block(bytes, place) else {
        return;
    };
    let (number, next) = (place.saturating_add(1), endpoint.rcv_nxt());
    let left = position(block.left, next, endpoint.irs);
    let right = position(block.right, next, endpoint.irs);
    match (left, right) {
        (Some(left), Some(right)) if left < right => out.say(
            "block {} reports the positions {} to {}; from RCV.NXT on, which is {}, the endpoint doesn't \
hold all of them\n",
            &[number as u64, left, right.saturating_sub(1), next],
        ),
        _ => out.say(
            "block {} reports no positions: its edges are the numbers {} and {}\n",
            &[
                number as u64,
                u64::from(block.left.0),
                u64::from(block.right.0),
            ],
        ),
    }
}
