//! A value for each of the two hosts.
//! `lib.rt` says why functions here are inlined.

ghost use Rattle.std.specs.Prelude.{◌≡◌};
ghost use Rattle.std.specs.Borrow.{sem};
ghost use Rattle.spec_network.specs.Tables.{pick};
ghost use Rattle.duties.specs.Lending.{LendsHost};

use case_forms::Host;
use std::marker::Model;

/// A value for each host.
#[derive(Drop)]
pub(crate) struct PerHost<T> {
    zero: T,
    one: T,
}

impl<T> Model for PerHost<T> {
    ghost use Rattle.spec_network.specs.Tables.{Both};

    ghost Value = { Both T };

    ghost view = { λ a. record { zero = a.zero; one = a.one } };
}

impl<T: Drop> PerHost<T> {
    /// The value of host 0 and that of host 1.
    pub(crate) fn new(zero: T, one: T) -> PerHost<T>
        ensures { result ≡ record { zero = zero; one = one } }
    {
        PerHost { zero, one }
    }

    /// The value of a host.
    #[inline(always)]
    pub(crate) fn get(&self, host: Host) -> &T
        ensures { result.now ≡ pick self.now host }
    {
        match host {
            Host::Zero => &self.zero,
            Host::One => &self.one,
        }
    }

    /// The value of a host, to be changed. The other host keeps its own.
    #[inline(always)]
    pub(crate) fn get_mut(&mut self, host: Host) -> &mut T
        ensures* writes_back { sem 𝓛 (LendsHost T.row self.entry host result) }
        ensures value { result.now ≡ pick self.old host }
    {
        match host {
            Host::Zero => &mut self.zero,
            Host::One => &mut self.one,
        }
    }
}
