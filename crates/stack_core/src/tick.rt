//! When events are, and the keys of their entries.

use case_forms::Host;

/// When an event is, in microseconds, and a count that rises with each event of its host.
#[derive(Clone, Copy)]
pub struct Tick {
    /// In microseconds.
    pub moment: u64,
    /// More than that of the previous event.
    pub counter: u64,
}

/// The place of an event among those of both hosts: by its moment in microseconds, then by its counter, then by its
/// host.
#[derive(Clone, Copy, PartialEq, Eq)]
pub struct Key {
    pub moment: u64,
    pub counter: u64,
    pub host: Host,
}
