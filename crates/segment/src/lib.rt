//! TCP segments, as bytes and as fields (RFC 9293, 3.1 and 3.2).
//!
//! ```text
//! let segment = decode(alloc, bytes)?;
//! assert!(rt; segment.src == 80 && segment.has(Flag::Syn) && segment.mss == Some(1000));
//! let written = encode(alloc, &segment)?;
//! ```
//!
//! - `Segment`: a segment, field by field; `Flag`: its flags, by name; `Bytes`: owned bytes
//! - `decode`: the segment that bytes encode; `SegFault`: why they encode none
//! - `permits_sack`: whether a segment's options permit selective acknowledgments
//! - `sack_block`: the blocks of a selective acknowledgment that a segment carries; `SackBlock`: one of them
//! - `timestamps`: the timestamps that a segment carries; `TimestampPair`: their type
//! - `encode`: the bytes of a segment; `EncFault`: why it can't be encoded
//! - `OutOfMemory`: memory ran out
//!
//! `specs/Layout` defines which bytes encode which segment, and which fault comes first if they encode none; read it
//! first. `specs/Options` defines how options are split into items, and `specs/Encoding` what is written.
//! `specs/Reading` finds the segment or the fault from left to right, which `reading_law` proves the same. Checksums
//! and urgent pointers are ignored when reading, and written as 0.
//!
//! Private modules:
//!
//! - `fields`, `flag`, `bytes`, `fault`: the types above
//! - `options`: the items of a list of options, and the MSS, the shift, the blocks and the timestamps that they carry
//! - `decoder`: `decode`; `encoder`: `encode`
#![tactic(auto)]

mod bytes;
mod decoder;
mod encoder;
mod fault;
mod fields;
mod flag;
mod options;

pub use bytes::Bytes;
pub use decoder::{decode, is_segment, reading_law};
pub use encoder::encode;
pub use fault::{EncFault, SegFault};
pub use fields::Segment;
pub use flag::Flag;
pub use options::{SackBlock, TimestampPair, permits_sack, sack_block, timestamps};

/// Memory ran out. Nothing was changed.
pub type OutOfMemory = std::alloc::AllocError;

/// The greatest number of bytes of a segment.
pub(crate) const MAX_LEN: usize = 65_515;

/// The number of bytes of a header without options.
pub(crate) const HEADER_LEN: usize = 20;
