//! What `--ways` and `--expiries` ask of a search.

use case_forms::Host;
use witness_search::{ShownExpiries, Ways};

/// The ways that the value of `--ways` names: of a host and a way each, with a colon between both and commas between
/// these. The usual ones if there is no value. None: another word.
pub(crate) fn ways_of(value: Option<&str>) -> Option<Ways> {
    let mut ways = Ways::usual();
    for item in value.into_iter().flat_map(|value| value.split(',')) {
        let (host, name) = item.split_once(':')?;
        ways = ways.with_named(host_of(host)?, name)?;
    }
    Some(ways)
}

/// The hosts that the value of `--expiries` names: `0`, `1` or `0,1`. No host if there is no value. None: another word.
pub(crate) fn expiries_of(value: Option<&str>) -> Option<ShownExpiries> {
    let (zero, one) = match value {
        None => (false, false),
        Some("0") => (true, false),
        Some("1") => (false, true),
        Some("0,1") => (true, true),
        Some(_) => return None,
    };
    Some(ShownExpiries { zero, one })
}

fn host_of(word: &str) -> Option<Host> {
    match word {
        "0" => Some(Host::Zero),
        "1" => Some(Host::One),
        _ => None,
    }
}
