//! Which kinds of segments a state may send.

ghost use Rattle.case_forms.specs.States.{is_syn_sent, is_syn_received};
ghost use Rattle.spec_tcp.specs.Calls.Close.{shut_down};
ghost use Rattle.spec_tcp.specs.Makes.Kind.{may_carry, may_finish, may_not_send, may_make_syn, may_make_reset};
ghost use Rattle.spec_tcp.specs.Makes.Kind.{may_make_other, may_make, makes_nothing, is_bad_iss, given_shift, seq_of};
ghost use Rattle.spec_tcp.specs.Endpoints.{rcv_nxt};
ghost use Rattle.std.specs.Prelude.{◌≡◌, if◌then◌else◌, false, nat_le};

use crate::calls::close::shut_down;
use case_forms::{SegmentPlan, State};
use seqno::{Word, number};
use spec_tcp::Endpoint;

fn may_carry(state: State) -> bool
    ensures { result ≡ may_carry state }
{
    matches!(
        state,
        State::Established | State::FinWait1 | State::CloseWait | State::Closing | State::LastAck
    )
}

fn may_finish(state: State) -> bool
    ensures { result ≡ may_finish state }
{
    matches!(state, State::FinWait1 | State::Closing | State::LastAck)
}

fn may_not_send(state: State) -> bool
    ensures { result ≡ may_not_send state }
{
    matches!(state, State::Closed | State::Listen | State::SynSent)
}

fn is_syn_state(state: State, ack: bool) -> bool
    ensures { result ≡ (if ack then is_syn_received state else is_syn_sent state) }
{
    if ack {
        state.is_syn_received()
    } else {
        state.is_syn_sent()
    }
}

fn may_make_syn(endpoint: &Endpoint, making: &SegmentPlan) -> bool
    ensures { result ≡ may_make_syn endpoint.now making.now }
{
    is_syn_state(endpoint.state, making.flags.ack)
        && endpoint.stream.snd_una == 0
        && !making.flags.fin
        && !making.flags.rst
}

// Whether the peer's SYN arrived, which has the first position (RFC 9293, 3.4).
fn peer_syn_arrived(endpoint: &Endpoint) -> bool
    ensures { result ≡ nat_le 1 (rcv_nxt endpoint.now) }
{
    1 <= endpoint.rcv_nxt()
}

// A reset that is due (RFC 9293, 3.5.2 and 3.10.5), or one by a closed socket whose peer is known (3.6.1).
fn may_make_reset(endpoint: &Endpoint, making: &SegmentPlan) -> bool
    ensures { result ≡ may_make_reset endpoint.now making.now }
{
    (endpoint.reset_due
        || endpoint.closed && !endpoint.state.is_closed() && peer_syn_arrived(endpoint))
        && !making.flags.fin
}

fn may_make_other(endpoint: &Endpoint, making: &SegmentPlan) -> bool
    ensures { result ≡ may_make_other endpoint.now making.now }
{
    !may_not_send(endpoint.state)
        && (making.len == 0 || may_carry(endpoint.state))
        && (!making.flags.fin || may_finish(endpoint.state))
}

pub(crate) fn may_make(endpoint: &Endpoint, making: &SegmentPlan) -> bool
    ensures { result ≡ may_make endpoint.now making.now }
{
    if making.flags.syn {
        may_make_syn(endpoint, making)
    } else if making.flags.rst {
        may_make_reset(endpoint, making)
    } else {
        may_make_other(endpoint, making)
    }
}

pub(crate) fn makes_nothing(endpoint: &Endpoint, making: &SegmentPlan) -> bool
    ensures { result ≡ makes_nothing endpoint.now making.now }
{
    endpoint.state.is_closed() && !(making.flags.rst && endpoint.reset_due)
}

pub(crate) fn is_bad_iss(endpoint: &Endpoint, making: &SegmentPlan) -> bool
    ensures { result ≡ is_bad_iss endpoint.now making.now }
{
    if endpoint.iss.is_some() {
        making.iss.is_some()
    } else {
        !(making.iss.is_some() && making.flags.syn)
    }
}

// The shift of the windows that it offers, which is given with the initial send sequence number.
pub(crate) fn given_shift(endpoint: &Endpoint, making: &SegmentPlan) -> Option<u8>
    ensures { result ≡ given_shift endpoint.now making.now }
{
    if making.iss.is_some() {
        making.shift
    } else {
        endpoint.shift
    }
}

// A reset closes the endpoint, and is no longer due.
pub(crate) fn close_after_reset(endpoint: &mut Endpoint)
    ensures { endpoint.new ≡ record (shut_down endpoint.old) { reset_due = false } }
{
    shut_down(endpoint);
    endpoint.reset_due = false;
}

pub(crate) fn seq_of(base: Option<Word>, pos: u64) -> Word
    ensures { result ≡ seq_of base pos }
{
    match base {
        Some(base) => number(base, pos),
        None => Word(0),
    }
}
