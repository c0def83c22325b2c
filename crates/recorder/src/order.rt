//! The entries of two hosts, in the order of their keys.

ghost use Rattle.std.specs.Prelude.{◌≡◌, ◌∷◌, [], IfNone};
ghost use Rattle.std.specs.Option.{IfSome};
ghost use Rattle.spec_merge.specs.Keys.{before, rank};
ghost use Rattle.stack_core.specs.Keys.{key_shown};
ghost use Rattle.recorder.specs.Order.{in_order};

use case_forms::Host;
use recording_parts::is_lesser;
use stack_core::{Entry, Key};
use std::marker::Model;

/// The entries of two hosts that are left, in the order of their keys; those of one host keep their order.
#[derive(Drop)]
pub(crate) struct InOrder<'a> {
    zeros: &'a [Entry],
    ones: &'a [Entry],
}

impl<'a> Model for InOrder<'a> {
    ghost use Rattle.std.specs.Prelude.{List};
    ghost use Rattle.spec_merge.specs.Recordings.{TcpEntry};
    ghost use Rattle.recorder.specs.Order.{in_order};

    ghost Value = { List TcpEntry };

    ghost view = { λ a. in_order a.zeros.now a.ones.now };
}

impl<'a> InOrder<'a> {
    /// The entries of host 0 and of host 1.
    pub(crate) fn new(zeros: &'a [Entry], ones: &'a [Entry]) -> InOrder<'a>
        ensures { result ≡ in_order zeros.now ones.now }
    {
        InOrder { zeros, ones }
    }

    /// The next entry.
    pub(crate) fn next(&mut self) -> Option<&'a Entry>
        ensures some { IfSome result (λ x. self.old ≡ x.now ∷ self.new) }
        ensures none { IfNone result (self.old ≡ []) }
    {
        let (zeros, ones) = (self.zeros, self.ones);
        match zeros {
            [] => match ones {
                [] => None,
                [one, left @ ..] => {
                    self.ones = left;
                    Some(one)
                }
            },
            [zero, zeros_left @ ..] => match ones {
                [one, ones_left @ ..] if !before(&zero.key(), &one.key()) => {
                    self.ones = ones_left;
                    Some(one)
                }
                _ => {
                    self.zeros = zeros_left;
                    Some(zero)
                }
            },
        }
    }
}

/// The first of some entries, and those after it.
pub(crate) fn first_entry(entries: &[Entry]) -> Option<(&Entry, &[Entry])>
    ensures some { IfSome result (λ r. entries.now ≡ r.0.now ∷ r.1.now) }
    ensures none { IfNone result (entries.now ≡ []) }
{
    match entries {
        [] => None,
        [entry, behind @ ..] => Some((entry, behind)),
    }
}

/// A host's place among keys that are otherwise the same.
pub(crate) fn rank(host: Host) -> u32
    ensures { result ≡ rank host }
{
    match host {
        Host::Zero => 0,
        Host::One => 1,
    }
}

// Whether a key comes before another: by moments, then by counters, then by hosts.
fn before(a: &Key, b: &Key) -> bool
    ensures { result ≡ before (key_shown a.now) (key_shown b.now) }
{
    let a = (a.moment, a.counter, rank(a.host));
    let b = (b.moment, b.counter, rank(b.host));
    is_lesser(a, b)
}
