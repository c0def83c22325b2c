//! Segments in transit.

ghost use Rattle.std.specs.Prelude.{◌≡◌, IfOk};
ghost use Rattle.stack_core.specs.Keys.{key_shown};

use crate::tick::{Key, Tick};
use case_forms::{Host, OutOfMemory, Wire};
use spec_tcp::Emission;
use std::marker::Model;

/// A segment in transit, with the key and the line with which it was sent. Only `HostCore::pump` makes one; `copy`
/// makes an equal one.
#[derive(Drop)]
pub struct Flying {
    pub(crate) host: Host,
    pub(crate) tick: Tick,
    pub(crate) line: u64,
    pub(crate) emission: Emission,
    // How it looks on the wire.
    pub(crate) wire: Wire,
}

impl Model for Flying {
    ghost use Rattle.spec_merge.specs.Books.{Flying};
    ghost use Rattle.spec_tcp.specs.Machine.{tcp_shape};
    ghost use Rattle.stack_core.specs.Keys.{key_of};
    ghost use Rattle.stack_core.specs.Flights.{IsFlying};

    ghost Value = { Flying tcp_shape };

    ghost view = { λ a. record { key = key_of a.host a.tick; line = a.line; emission = a.emission } };

    ghost invariant = { λ a. IsFlying a.emission a.wire };
}

impl Flying {
    /// The key of the event in which it was sent.
    pub fn key(&self) -> Key
        ensures { key_shown result ≡ self.now.key }
    {
        Key {
            moment: self.tick.moment,
            counter: self.tick.counter,
            host: self.host,
        }
    }

    /// The line of its host's book with which it was sent.
    pub fn line(&self) -> u64
        ensures { result ≡ self.now.line }
    {
        self.line
    }

    /// The segment.
    pub fn emission(&self) -> &Emission
        ensures { result.now ≡ self.now.emission }
    {
        &self.emission
    }

    /// An equal segment, for a network that delivers it twice. The error is that memory ran out.
    pub fn copy(&self) -> Result<Flying, OutOfMemory>
        ensures { IfOk result (λ f. f ≡ self.now) }
    {
        Ok(Flying {
            host: self.host,
            tick: self.tick,
            line: self.line,
            emission: self.emission.copy()?,
            wire: self.wire.copy()?,
        })
    }

    // How it looks on the wire.
    pub(crate) fn wire(&self) -> &Wire
        ensures bytes { result.now.bytes ≡ self.now.emission.bytes }
    {
        &self.wire
    }
}
