//! Ranges of positions.

ghost use Rattle.std.specs.Prelude.{◌≤◌, ◌<◌, ◌+◌, ◌↔◌, IsTrue};

/// Whether a position is one of the `len` positions from `start` on.
pub fn in_window(pos: u64, start: u64, len: u64) -> bool
    ensures { IsTrue result ↔ ((start ≤ pos) × (pos < start + len)) }
{
    start <= pos && pos - start < len
}
