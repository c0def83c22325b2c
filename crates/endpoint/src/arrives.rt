//! A segment arrives (RFC 9293, 3.10.7).
//!
//! - `listen`: in LISTEN, where a child is created (3.10.7.2)
//! - `syn_sent`: in SYN-SENT, where the peer's SYN is received (3.10.7.3)
//! - `other_states`: in any other state (3.10.7.4)

ghost use Rattle.case_forms.specs.States.{is_closed};
ghost use Rattle.spec_tcp.specs.Arrives.{endpoint_taken};
ghost use Rattle.spec_tcp.specs.Bounds.{HasRoom, IsSmallEmission};
ghost use Rattle.spec_tcp.specs.Forgetting.{forget_endpoint};
ghost use Rattle.std.specs.Prelude.{◌≡◌, false, OnOk, OnErr};

pub(crate) mod listen;
pub(crate) mod other_states;
pub(crate) mod syn_sent;

use crate::arrives::other_states::on_segment;
use crate::arrives::other_states::reset::on_reset;
use crate::arrives::syn_sent::on_syn;
use case_forms::{Header, TakeChoice};
use segment::OutOfMemory;
use spec_tcp::{Arrived, Endpoint};

/// An endpoint processes a segment at a moment in microseconds, in every state but CLOSED (RFC 9293, 3.10.7). If memory
/// runs out, the endpoint doesn't change. The segment is not tested here: the `admits_` functions say whether it may be
/// processed.
pub fn take_segment(
    header: &Header,
    endpoint: &mut Endpoint,
    how: TakeChoice,
    m: &Arrived<'_>,
    moment: u64,
) -> Result<(), OutOfMemory>
    requires room { HasRoom endpoint.old }
    requires small { IsSmallEmission m.now }
    requires open { is_closed endpoint.old.state ≡ false }
    ensures ok { OnOk result (endpoint.new ≡ forget_endpoint
        (endpoint_taken header.now endpoint.old how m.now moment)) }
    ensures err { OnErr result (endpoint.new ≡ endpoint.old) }
{
    if m.flags().rst {
        on_reset(endpoint, how, moment);
        return Ok(());
    }
    if endpoint.state.is_syn_sent() {
        on_syn(header, endpoint, how, m, moment);
        return Ok(());
    }
    on_segment(header, endpoint, how, m, moment)
}
