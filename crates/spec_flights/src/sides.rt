//! What the two SYNs of a connection permitted.

/// Whether each of the two SYNs permitted selective acknowledgments (RFC 2018, 2), as far as it was sent or taken.
#[derive(Clone, Copy)]
pub struct Sides {
    /// The endpoint's own, on the wire.
    pub own: bool,
    /// The one that it took.
    pub peers: bool,
}
