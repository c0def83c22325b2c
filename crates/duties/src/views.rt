//! What duties read of an endpoint.
//! `lib.rt` says why each function here is inlined.

ghost use Rattle.std.specs.Prelude.{◌≡◌};
ghost use Rattle.spec_duties.specs.Views.{is_up, unborn, view_of};

use case_forms::State;
use spec_duties::View;
use spec_tcp::Endpoint;
use timer_rules::Timers;

/// What duties read of this endpoint.
#[tactic(auto, using(crate::proofs::EdgeLemmas::edge_from_0))]
#[inline(always)]
pub fn view_of(endpoint: &Endpoint) -> View
    ensures { result ≡ view_of endpoint.now }
{
    let una = endpoint.stream.snd_una;
    View {
        state: endpoint.state,
        closed: endpoint.closed,
        resets: endpoint.reset_due && endpoint.iss.is_some(),
        listener: endpoint.listener,
        snd_una: una,
        snd_max: endpoint.snd_max(),
        snd_wnd: endpoint.window.snd_wnd,
        end: endpoint.stream.accepted.end(),
        ended: endpoint.stream.ended,
        rcv_nxt: endpoint.rcv_nxt(),
        rcv_adv: endpoint.window.rcv_adv,
        congestion_edge: una as u128 + endpoint.control.send_edge(0) as u128,
        smss: endpoint.control.values.smss,
        dup: endpoint.control.values.dup,
        fast: endpoint.control.values.fast,
        timers: endpoint.timers,
        backoffs: endpoint.backoffs,
    }
}

/// Before `open` or a listener creates it.
#[inline(always)]
pub fn unborn() -> View
    ensures { result ≡ unborn }
{
    View {
        state: State::Listen,
        closed: false,
        resets: false,
        listener: None,
        snd_una: 0,
        snd_max: 0,
        snd_wnd: 0,
        end: 0,
        ended: false,
        rcv_nxt: 0,
        rcv_adv: 0,
        congestion_edge: 0,
        smss: 0,
        dup: 0,
        fast: false,
        timers: Timers::start(),
        backoffs: 0,
    }
}

/// Whether its own SYN was acknowledged and the peer's SYN received.
#[inline(always)]
pub(crate) fn is_up(v: &View) -> bool
    ensures { result ≡ is_up v.now }
{
    1 <= v.snd_una && 1 <= v.rcv_nxt
}
