//! Why a case gets its verdict, in plain words.
//!
//! `explain` prints the verdict and the reason for it. You don't have to trust the reason: the verdict is `checker`'s.
//! The values that a rule compares come from the world of `endpoint_state` and from the functions that the rules call.
//! Each function is proved only to be safe and to return.
//!
//! - `explain`, `Explanation`, `Origin`: a case in words
//!
//! Private modules:
//!
//! - `explanation`: the verdict's line, and what the refused step is about; `comparison`: what each rule compares there
//! - `marks`: a line with a fault, and a mark under its columns
//! - `scene`: the world before the refused step, and what the step is about
//! - `described`: an endpoint in words; `owed`: what it owes; `inbox`: a received segment in words
//! - `order`, `calls`, `builds`, `wire`, `arrivals`, `numbers`, `timers`: what the rules compare; `late`, `limits`:
//!   the same for duties
//! - `losses`: what is known of losses if both SYNs permitted SACK; `probes`: the same for probes; `undoing`: which
//!   recovery is undone; `reported`: which SACK blocks aren't true; `timestamps`: which timestamps a segment may have
//! - `allowed`: the answers that a call may have
//! - `known`: what is known at the step of the causes of its rule
//! - `other_windows`, `segment_window`, `loss_windows`, `changes`: the other windows that a segment would fit, kept
//!   while the case is replayed; `restarts`: the same for a timer without its restarts
//! - `states`: what leads out of a state; `sendable`: what could be sent; `resets`: the reset that a segment asks for;
//!   `wrap`: numbers near 2^32
//! - `unjudged`: the level that leaves a refusal unjudged
#![tactic(auto)]

mod allowed;
mod arrivals;
mod builds;
mod calls;
mod changes;
mod comparison;
mod described;
mod explanation;
mod inbox;
mod known;
mod late;
mod limits;
mod loss_windows;
mod losses;
mod marks;
mod numbers;
mod order;
mod other_windows;
mod owed;
mod probes;
mod reported;
mod resets;
mod restarts;
mod scene;
mod segment_window;
mod sendable;
mod states;
mod timers;
mod timestamps;
mod undoing;
mod unjudged;
mod wire;
mod wrap;

pub use explanation::{Explanation, explain};
pub use known::Origin;
