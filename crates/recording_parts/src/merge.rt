//! The order of entries, and which segment is the first that wasn't sent.

ghost use Rattle.std.specs.Prelude.{◌≡◌, if◌then◌else◌, nat_lt, true, false, IfNone, Some};
ghost use Rattle.std.specs.Option.{IfSome};

/// Whether a key comes before another: by moments, then by counters, then by the ranks of their hosts.
#[inline]
pub fn is_lesser(a: (u64, u64, u32), b: (u64, u64, u32)) -> bool
    ensures { result ≡ (if nat_lt a.0 b.0 then true else if nat_lt b.0 a.0 then false else if nat_lt a.1 b.1 then true
        else if nat_lt b.1 a.1 then false else nat_lt a.2 b.2) }
{
    if a.0 != b.0 {
        return a.0 < b.0;
    }
    if a.1 != b.1 {
        return a.1 < b.1;
    }
    a.2 < b.2
}

/// The line of the first segment that wasn't sent: the one found in host 0's recording, else the one found in host
/// 1's.
#[inline]
pub fn first_found(zero: Option<u64>, one: Option<u64>) -> Option<u64>
    ensures zero { IfSome zero (λ line. result ≡ Some line) }
    ensures one { IfNone zero (result ≡ one) }
{
    match zero {
        Some(line) => Some(line),
        None => one,
    }
}
