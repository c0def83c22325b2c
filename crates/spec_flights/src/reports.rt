//! What the blocks of a segment report.

use crate::stretch::Stretch;

/// The positions that each of the blocks of a segment reports as received, if it is read (RFC 2018, 3). A list of
/// options has room for no more.
#[derive(Clone, Copy)]
pub struct Reports {
    pub first: Stretch,
    pub second: Stretch,
    pub third: Stretch,
    pub fourth: Stretch,
}
