//! The count of answers, and whether each seat was handed in.

ghost use Rattle.std.specs.Prelude.{◌≡◌, ◌↔◌, ◌≤◌, ◌<◌, ◌+◌, ◌^◌, IsTrue};

/// Counts an answer.
#[inline]
pub fn count_answer(total: &mut u64)
    requires { total.old + 1 < 2 ^ 64 }
    ensures { total.new ≡ total.old + 1 }
{
    *total += 1;
}

/// Whether all seats are there, if so many were handed in and so many were never given out.
#[inline]
pub fn are_all(handed: usize, left: u32, all: u32) -> bool
    ensures { IsTrue result ↔ (all ≤ handed + left) }
{
    handed.saturating_add(left as usize) >= all as usize
}
