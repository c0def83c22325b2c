//! Lists suspicious behavior that breaks no rule.
//!
//! A yes says little about what a host should have done: unless the header gives a slack, the checker requires no host
//! to acknowledge, to retransmit or to deliver. `remark` replays a case up to its end, or up to the step that is
//! refused, and lists what may be a defect although no rule is broken, one line each. The verdicts don't depend on this
//! crate. Each function is proved only to be safe and to return. The time is linear in the size of the case, except for
//! the searches in tables.
//!
//! - `remark`, `Remarks`: the remarks on a case
//!
//! Private modules:
//!
//! - `review`: the replay of the case, and what is remembered beside it
//! - `covered`: which remarks rules 40 to 52 make needless
//! - `found`: the remarks that were found, and parts of them in words
//! - `notes`: what is remembered of an endpoint and its retransmissions
//! - `arrivals`: what is dropped, or processed and not kept; `sendings`: what is sent, and sent again
//! - `bursts`: what is sent again beyond the loss window; `acknowledgments`: those that nothing asked for
//! - `blocks`: selective acknowledgments without the blocks that should be sent
//! - `waits`: timers and open windows with nothing sent, a SYN given up; `ends`: what is left at the end
#![tactic(auto)]

mod acknowledgments;
mod arrivals;
mod blocks;
mod bursts;
mod covered;
mod ends;
mod found;
mod notes;
mod review;
mod sendings;
mod waits;

pub use review::{Remarks, remark};
