//! The items of a recording.

use crate::transit::Flying;
use spec_step::Label;

/// A step of the host, or a segment of the other host that was put on its wire here.
#[derive(Drop)]
pub enum Item {
    /// A step of the host.
    Does(Label),
    /// A segment of the other host, put on its wire here so that it may arrive.
    Brings(Flying),
}
