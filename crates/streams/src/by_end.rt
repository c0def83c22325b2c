//! Maps by the position after what they hold.

ghost use Rattle.std.specs.Prelude.{◌≡◌, ◌≤◌};
ghost use Rattle.streams.specs.RangeEntries.{first_between, without};

use std::collections::BTreeMap;

/// Drops what ends from `low` to before `high`.
pub(crate) fn drop_between<V: Drop>(map: &mut BTreeMap<u64, V>, low: u64, high: u64)
    requires { low ≤ high }
    ensures { map.new.entries ≡ without low high map.old.entries }
{
    while let Some(end) = end_between(map, low, high) {
        map.remove(&end);
    }
}

// The first end from `low` to before `high`.
fn end_between<V>(map: &BTreeMap<u64, V>, low: u64, high: u64) -> Option<u64>
    requires { low ≤ high }
    ensures { result ≡ first_between low high map.now.entries }
{
    match map.range(low..high).next() {
        Some((end, _)) => Some(*end),
        None => None,
    }
}
