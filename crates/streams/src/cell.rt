//! The cell at one position (RFC 9293, 3.4).

/// What is at one position of a stream.
#[derive(Clone, Copy)]
pub enum Cell {
    /// The SYN, at position 0.
    Syn,
    /// A byte of data; data byte k has position 1 + k.
    Byte(u8),
    /// The FIN, after the last byte.
    Fin,
}
