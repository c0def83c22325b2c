//! A segment arrives in LISTEN (RFC 9293, 3.10.7.2).

ghost use Rattle.spec_tcp.specs.Arrives.Listen.{child, listener_rules};
ghost use Rattle.std.specs.Prelude.{◌≡◌};
ghost use Rattle.std.specs.Result.{result_err};
ghost use Rattle.verdict.specs.Rules.{first_broken};

use crate::arrives::other_states::window::persist_after_window;
use crate::signals::{at_moment, told_smss};
use case_forms::{State, TakeChoice};
use spec_tcp::{Emission, Endpoint};
use std::alloc::Global;
use verdict::Rule;
use window_rules::{Control, Profile, Signal};

/// Whether a listener may process the segment: a SYN that is neither acknowledgment nor reset (RFC 9293, 3.10.7.2). The
/// error is the first rule that is broken.
pub fn admits_listening(how: TakeChoice, m: &Emission) -> Result<(), Rule>
    ensures { result_err result ≡ first_broken (listener_rules how m.now) }
{
    if !(m.flags.syn && !m.flags.ack && !m.flags.rst) {
        return Err(Rule::State);
    }
    if 0 < how.cwnd {
        return Err(Rule::Growth);
    }
    if how.sample {
        return Err(Rule::Sample);
    }
    Ok(())
}

/// A child of the listener at this place, which received the peer's SYN at a moment in microseconds (RFC 9293,
/// 3.10.7.2). Its congestion control follows this profile.
pub fn child(
    alloc: Global,
    profile: Profile,
    listener: u32,
    how: TakeChoice,
    m: &Emission,
    moment: u64,
) -> Endpoint
    ensures { result ≡ child profile listener how m.now moment }
{
    let mut child = Endpoint::new(
        alloc,
        m.rport,
        m.lport,
        Some(listener),
        State::SynReceived,
        profile,
    );
    let start = Control::start(profile);
    let syn = Signal::Syn {
        smss: told_smss(m.mss),
    };
    let control = start.after(
        syn,
        at_moment(&child, moment),
        how.cwnd,
        start.values.ssthresh,
    );
    child.irs = Some(m.seq);
    child.peer_shift = m.scale;
    child.stream.peer = Some(m.sender);
    child.stream.receive.take_syn();
    child.window.snd_wnd = u32::from(m.window);
    child.window.snd_wl1 = m.pos;
    child.control = control;
    child.timers = persist_after_window(child.timers, m.window, moment);
    child
}
