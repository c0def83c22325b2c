//! What one endpoint does at each event of RFC 9293, 3.10. Each file has the rules of an event and its effect. The
//! contracts use definitions of the crate `spec_tcp`, in files of the same names in `specs/`.
//!
//! - `calls`: the answers of socket calls, and what they do (3.10.1 to 3.10.6)
//! - `makes`: a segment is built (3.8, 3.10)
//! - `arrives`: a segment arrives (3.10.7): in LISTEN, in SYN-SENT, and in the other states, in the order of the RFC
//! - `timeouts`: a timer expires (3.10.8); `recovery`: fast recovery begins (RFC 5681, 3.2)
//! - `reset`: the reset in answer to a segment (3.5.2); `wire`: segments as bytes on the wire (3.1)
//! - `signals`: how congestion control sees these events
//! - `same`: the comparisons in the rules
//!
//! An error is the first rule that is broken, in the order of `Rule`. An effect doesn't repeat the tests: its caller
//! tested the rules. `endpoint_state` finds endpoints, and has the tables by line numbers and numbers of built
//! segments.
#![tactic(auto)]

mod arrives;
mod calls;
mod makes;
mod recovery;
mod reset;
mod same;
mod signals;
mod timeouts;
mod wire;

pub use arrives::listen::{admits_listening, child};
pub use arrives::other_states::ack::may_sample;
pub use arrives::other_states::admits_connected;
pub use arrives::other_states::text::{kept_end, kept_start};
pub use arrives::syn_sent::{admits_syn_sent, completes_handshake};
pub use arrives::take_segment;
pub use calls::accept::{accept, listener_allows, open_shut_allows};
pub use calls::close::{abort, close, orphan, shut};
pub use calls::endpoint_allows;
pub use calls::receive::deliver;
pub use calls::send::send;
pub use makes::edges::raised_at;
pub use makes::{admits_making, make};
pub use recovery::{admits_recovery, greatest_at_recovery, greatest_recovery, recover};
pub use reset::reset_of;
pub use signals::greatest_taking;
pub use timeouts::{admits_expiry, expire, greatest_values, has_more};
pub use wire::{
    acknowledges, admits_copy, admits_hearing, copy, heard, is_before_text, is_past_lifetime,
    matches_sent, sent,
};
