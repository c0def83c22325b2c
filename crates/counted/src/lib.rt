//! Readers and writers that count their failed calls.
//!
//! A `Counted` counts its failed calls and nothing else. A call fails if the device fails, if a write writes none of
//! its bytes, and after 2^50 calls. So you can tell afterwards whether a call failed, as long as fewer than 2^60 did:
//! the count stops there. Running out of memory is never counted. `Counted` has its own methods for reading lines.
//! `specs/Counting` has the definitions that the contracts use.
//!
//! - `at_hand`: the lines that one read has at hand, up to the line of a word (`specs/AtHand`)
//! - `ends`: a reader or a writer and its count
//! - `lines`: one line of a reader, at most a bounded part of which is kept (`specs/LineParts`)
//! - `lent_lines`: the same without a copy of the line, in the reader's `buffer` (`specs/Buffered`)
#![tactic(auto)]

mod at_hand;
mod buffer;
mod ends;
mod lent_lines;
mod lines;

pub use at_hand::{Taken, Wanted};
pub use ends::{CallCounts, Counted, ReadFault};
