//! Eighth, the FIN bit.

ghost use Rattle.spec_tcp.specs.Arrives.OtherStates.Fin.{first_byte, fin_place, keeps_fin, finished};
ghost use Rattle.spec_tcp.specs.Bounds.{IsSmallEmission, greatest_position};
ghost use Rattle.std.specs.Prelude.{◌≡◌, ◌≤◌, ◌+◌};

use case_forms::{State, TakeChoice};
use spec_tcp::{Arrived, Endpoint};

pub(crate) fn keeps_fin(endpoint: &Endpoint, how: TakeChoice, m: &Arrived<'_>) -> bool
    requires { IsSmallEmission m.now }
    ensures { result ≡ keeps_fin endpoint.now how m.now }
{
    let place = fin_place(m);
    how.keep && m.flags().fin && endpoint.rcv_nxt() <= place && place <= endpoint.window.rcv_adv
}

pub(crate) fn fin_place(m: &Arrived<'_>) -> u64
    requires { IsSmallEmission m.now }
    ensures { result ≡ fin_place m.now }
{
    first_byte(m) + m.payload().len() as u64
}

pub(crate) fn first_byte(m: &Arrived<'_>) -> u64
    requires { m.now.pos ≤ greatest_position }
    ensures value { result ≡ first_byte m.now }
    ensures small { result ≤ greatest_position + 1 }
{
    m.pos() + m.flags().syn as u64
}

// The state once everything up to the peer's FIN was received, if it was (RFC 9293, 3.10.7.4, eighth).
pub(crate) fn finished(state: State, ended: bool) -> State
    ensures { result ≡ finished state ended }
{
    if !ended {
        return state;
    }
    match state {
        State::Established => State::CloseWait,
        State::FinWait1 => State::Closing,
        State::FinWait2 => State::TimeWait,
        State::Listen
        | State::SynSent
        | State::SynReceived
        | State::CloseWait
        | State::Closing
        | State::LastAck
        | State::TimeWait
        | State::Closed => state,
    }
}
