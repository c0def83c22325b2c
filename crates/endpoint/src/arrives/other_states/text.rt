//! Seventh, the segment text.

ghost use Rattle.spec_tcp.specs.Arrives.OtherStates.Text.{kept_bytes, kept_end, kept_start, receive_after, text_raised};
ghost use Rattle.spec_tcp.specs.Bounds.{IsSmallEmission, greatest_position};
ghost use Rattle.spec_tcp.specs.Endpoints.{rcv_nxt};
ghost use Rattle.std.specs.Prelude.{◌≡◌, ◌≤◌, ◌<◌, ◌+◌, ◌^◌, nat_lt, IfOk, OnOk, OnErr, length};
ghost use Rattle.streams.specs.Forgetting.{forgotten};
ghost use Rattle.streams.specs.Received.{is_ended, kept, next};

use crate::arrives::other_states::fin::{fin_place, first_byte, keeps_fin};
use case_forms::TakeChoice;
use segment::OutOfMemory;
use spec_tcp::{Arrived, Endpoint, Stream, TextTaken};

/// Stores what is kept of a segment. The answer is whether the peer's FIN and everything before it have now been
/// received, and whether RCV.NXT rose.
pub(crate) fn receive(
    endpoint: &mut Endpoint,
    how: TakeChoice,
    m: &Arrived<'_>,
) -> Result<(bool, bool), OutOfMemory>
    requires small { IsSmallEmission m.now }
    requires met { 1 ≤ rcv_nxt endpoint.old }
    requires forgets { forgotten endpoint.old.stream.receive ≡ endpoint.old.stream.receive }
    ensures ended { IfOk result (λ answer. answer.0 ≡ is_ended (receive_after endpoint.old how m.now)) }
    ensures rises { IfOk result (λ answer.
        answer.1 ≡ nat_lt (rcv_nxt endpoint.old) (next (receive_after endpoint.old how m.now))) }
    ensures ok { OnOk result (endpoint.new
        ≡ record endpoint.old {
          stream = record endpoint.old.stream {
            receive = forgotten
                (receive_after endpoint.old how m.now);
          };
        }) }
    ensures err { OnErr result (endpoint.new ≡ endpoint.old) }
{
    let start = kept_start(endpoint, m);
    let fin = keeps_fin(endpoint, how, m);
    let bytes = kept_bytes(endpoint, how, m);
    let before = endpoint.rcv_nxt();
    if bytes.is_empty() && !fin {
        let ended = endpoint.stream.receive.is_ended();
        return Ok((ended, before < endpoint.rcv_nxt()));
    }
    store(&mut endpoint.stream, start, bytes, fin)?;
    let ended = endpoint.stream.receive.is_ended();
    Ok((ended, before < endpoint.rcv_nxt()))
}

/// When text raised RCV.NXT, and RCV.NXT before that, if it does at this moment, in microseconds. Of several times at
/// one moment, the first counts.
pub(crate) fn text_raised(endpoint: &Endpoint, moment: u64) -> TextTaken
    ensures { result ≡ text_raised endpoint.now moment }
{
    if endpoint.text.moment == moment && 0 < endpoint.text.before {
        return endpoint.text;
    }
    TextTaken {
        moment,
        before: endpoint.rcv_nxt(),
    }
}

// Stores these bytes, and the FIN after them if there is one. If memory runs out, nothing is changed.
fn store(stream: &mut Stream, start: u64, bytes: &[u8], fin: bool) -> Result<(), OutOfMemory>
    requires met { 1 ≤ next stream.old.receive }
    requires next { next stream.old.receive ≤ start }
    requires small { start + length bytes.now + 1 < 2 ^ 63 }
    ensures ok { OnOk result
        (stream.new ≡ record stream.old { receive = kept stream.old.receive start bytes.now fin }) }
    ensures faded { OnOk result (forgotten stream.new.receive ≡ stream.new.receive) }
    ensures err { OnErr result (stream.new ≡ stream.old) }
{
    stream.receive.keep(start, bytes, fin)?;
    Ok(())
}

fn kept_bytes<'a>(endpoint: &Endpoint, how: TakeChoice, m: &'a Arrived<'_>) -> &'a [u8]
    requires { IsSmallEmission m.now }
    ensures { result.now ≡ kept_bytes endpoint.now how m.now }
{
    let first = first_byte(m);
    let start = kept_start(endpoint, m) - first;
    let end = fin_place(m)
        .min(endpoint.window.rcv_adv)
        .saturating_sub(first);
    if !how.keep || end <= start {
        return &[];
    }
    &m.payload()[start as usize..end as usize]
}

/// The first position of a segment that may be kept: none is below RCV.NXT.
pub fn kept_start(endpoint: &Endpoint, m: &Arrived<'_>) -> u64
    requires { m.now.pos ≤ greatest_position }
    ensures { result ≡ kept_start endpoint.now m.now }
{
    endpoint.rcv_nxt().max(first_byte(m))
}

/// The position after those that are kept of a segment, with a FIN. Copies nothing.
pub fn kept_end(endpoint: &Endpoint, how: TakeChoice, m: &Arrived<'_>) -> u64
    requires { IsSmallEmission m.now }
    ensures { result ≡ kept_end endpoint.now how m.now }
{
    let start = kept_start(endpoint, m);
    let fin = keeps_fin(endpoint, how, m);
    let bytes = kept_bytes(endpoint, how, m);
    if bytes.is_empty() && !fin {
        return start;
    }
    start + endpoint.stream.receive.kept_count(start, bytes, fin)
}
