//! Rising numbers with the places of their entries, and how to find one among them.
//!
//! The search goes back from the end, each step twice as wide as the one before, and then bisects the range between the
//! last two steps. It takes time logarithmic in the number's distance from the end.

ghost use Rattle.std.specs.Prelude.{◌≡◌, ◌≤◌, length, nat_eq};
ghost use Rattle.std.specs.Map.{lookup};
ghost use Rattle.tables.specs.Tables.{AreBelow, AreNotBelow, IsRising};

/// The place of a number. `None` means that it isn't among the numbers.
pub(crate) fn place_among(risen: &[(u64, usize)], number: u64) -> Option<usize>
    requires { IsRising risen.now }
    ensures { result ≡ lookup (nat_eq number) risen.now }
{
    let first = count_from_end(risen, number);
    if first < risen.len() && risen[first].0 == number {
        return Some(risen[first].1);
    }
    None
}

// How many numbers are below a number: they come first.
fn count_from_end(risen: &[(u64, usize)], number: u64) -> usize
    requires { IsRising risen.now }
    ensures bound { result ≤ length risen.now }
    ensures below { AreBelow risen.now result number }
    ensures from { AreNotBelow risen.now result number }
{
    let mut high = risen.len();
    while high > 0 {
        let width = risen.len() - high + 1;
        let low = high.saturating_sub(width);
        if risen[low].0 < number {
            return count_between(risen, number, low + 1, high);
        }
        high = low;
    }
    0
}

// The same, if at least `least` and at most `most` numbers are below it.
fn count_between(risen: &[(u64, usize)], number: u64, least: usize, most: usize) -> usize
    requires rising { IsRising risen.now }
    requires order { least ≤ most }
    requires bound { most ≤ length risen.now }
    requires below { AreBelow risen.now least number }
    requires from { AreNotBelow risen.now most number }
    ensures bound { result ≤ length risen.now }
    ensures below { AreBelow risen.now result number }
    ensures from { AreNotBelow risen.now result number }
{
    let mut low = least;
    let mut high = most;
    while low < high {
        let middle = low + (high - low) / 2;
        if risen[middle].0 < number {
            low = middle + 1;
        } else {
            high = middle;
        }
    }
    low
}
