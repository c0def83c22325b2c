//! The two streams of an endpoint, by position (RFC 9293, 3.4): what it sends, and what it received from its peer.
//!
//! Position 0 is the SYN's, data byte k has position 1 + k, and the FIN follows the last byte. Positions don't wrap.
//! Each list is indexed by position: "the byte at a position" is an element of a list, and "the next position expected"
//! is the length of the part before the first gap.
//!
//! - `byte_queue`: bytes appended at the end and removed from the front
//! - `cell`: what is at one position
//! - `receive`: what was received from the peer, until it is delivered; `cell_queue` holds it, and `byte_places`
//!   writes bytes by place
//! - `send`: the bytes that sends accepted, until they are acknowledged
//! - `transmission`, `transmissions`: when a position was first built, and whether it was retransmitted; `runs` keeps
//!   the first by segments, `marks` the second by ranges
//! - `ranges`: a set of positions; `flight`: what is known of each outstanding position, in pieces; both are kept by
//!   their ends, so `by_end` drops some of either; `flying`: what is in flight, by segments
//! - `laws`: nothing reads what was discarded, reads return what the peer sent, in order, and a segment ends once
//!
//! Each buffer shows the whole list from position 0 on, with a fixed value in the places of what it discarded. The
//! contracts use the definitions in specs/. Read `Cells` first, then `Received` and `Sent`, then `Transmissions`;
//! `Ranges`, and `Pieces` with `Flying`, stand alone. `InOrder` states what follows, and `Forgetting` what may be
//! discarded. The callers decide which bytes may be kept, read or sent.
#![tactic(auto)]

mod by_end;
mod byte_places;
mod byte_queue;
mod cell;
mod cell_queue;
mod flight;
mod flying;
mod laws;
mod marks;
mod outstanding;
mod piece;
mod ranges;
mod receive;
mod runs;
mod send;
mod transmission;
mod transmissions;

pub use cell::Cell;
pub use flight::Flight;
pub use flying::{Run, next_run};
pub use laws::{
    forgetting_streams, forgetting_transmissions, segments_end_once, starts_are_prefixes,
    streams_in_order,
};
pub use outstanding::Outstanding;
pub use ranges::Ranges;
pub use receive::ReceiveBuffer;
pub use send::SendBuffer;
pub use transmission::Transmission;
pub use transmissions::Transmissions;
