//! What becomes of the segments of both hosts in transit.

use recorder::LoseEach;

/// The wire from one host to the other.
#[derive(Clone, Copy)]
pub struct Wire<F> {
    /// What becomes of each segment.
    pub fate: F,
    /// How many segments the other host receives before it closes its end.
    pub taken: u64,
}

impl Wire<LoseEach> {
    /// Each `every`-th segment is lost, or none if `every` is 0, and the end stays open for this many segments.
    pub fn losing(every: u32, taken: u64) -> Wire<LoseEach> {
        Wire {
            fate: LoseEach::new(every),
            taken,
        }
    }
}

/// How both hosts talk.
#[derive(Clone, Copy)]
pub struct Talk<F, G> {
    /// How many rounds there are.
    pub rounds: u16,
    /// The wire for host 0's segments.
    pub there: Wire<F>,
    /// The wire for host 1's segments.
    pub back: Wire<G>,
}
