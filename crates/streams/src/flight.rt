//! What a sender knows of each outstanding position, kept in pieces of positions of which the same is known.
//!
//! Of an acknowledged position nothing is known: the list shows `None` there. `specs/Pieces` defines each call.

ghost use Rattle.std.specs.Prelude.{◌≡◌, ◌≤◌, ◌<◌, [], length, None, OnOk, OnErr, IfSome};
ghost use Rattle.streams.specs.Flying.{AreAlike};
ghost use Rattle.streams.specs.Pieces.{acknowledged, known_from, made};

use super::outstanding::Outstanding;
use super::piece::{Piece, begin_at, drop_through, make, piece_after};
use std::alloc::{AllocError, Global};
use std::collections::BTreeMap;
use std::marker::Model;

/// The outstanding positions.
#[derive(Drop)]
pub struct Flight {
    /// The pieces, each by the position after it.
    pieces: BTreeMap<u64, Piece>,
    /// The first outstanding position (SND.UNA).
    snd_una: u64,
    /// The position after the last one that was built (SND.MAX).
    end: u64,
}

impl Model for Flight {
    ghost use Rattle.std.specs.Prelude.{List, Option};
    ghost use Rattle.streams.specs.declared.outstanding.Outstanding.{Outstanding};
    ghost use Rattle.streams.specs.Pieces.{Adjoin, known};

    ghost Value = { List (Option Outstanding) };

    ghost view = { λ a. known a.snd_una a.pieces.entries };

    ghost invariant = { λ a. Adjoin a.snd_una a.end a.pieces.entries };
}

impl Flight {
    /// Nothing was built.
    pub fn new(alloc: Global) -> Self
        ensures { result ≡ [] }
    {
        Flight {
            pieces: BTreeMap::new(alloc),
            snd_una: 0,
            end: 0,
        }
    }

    /// The position after the last one that was built, 0 if none was.
    pub fn end(&self) -> u64
        ensures { result ≡ length self.now }
    {
        self.end
    }

    /// Takes a segment that was built at this moment (in microseconds), as the segment of this number, with the
    /// positions from this one to before `upto`. The error means that memory ran out.
    pub fn make(
        &mut self,
        position: u64,
        upto: u64,
        number: u64,
        moment: u64,
    ) -> Result<(), AllocError>
        requires from { acknowledged self.old ≤ position }
        requires to { position ≤ length self.old }
        requires order { position ≤ upto }
        ensures ok { OnOk result (self.new ≡ made position upto number moment self.old) }
        ensures err { OnErr result (self.new ≡ self.old) }
    {
        make(&mut self.pieces, self.end, position, upto, number, moment)?;
        self.end = self.end.max(upto);
        Ok(())
    }

    /// The first outstanding position, or the one after the last one that was built.
    pub fn snd_una(&self) -> u64
        ensures { result ≡ acknowledged self.now }
    {
        self.snd_una
    }

    /// Where positions end that are alike from this one on, with what is known of the last one. None: this one isn't
    /// known.
    pub(crate) fn alike_from(&self, position: u64) -> Option<(u64, Outstanding)>
        requires { acknowledged self.now ≤ position }
        ensures none { result ≡ None → length self.now ≤ position }
        ensures some { IfSome result (λ piece. (position < piece.0) × AreAlike self.now position piece.0 piece.1) }
    {
        match piece_after(&self.pieces, position) {
            Some((end, piece)) => Some((end, piece.state)),
            None => None,
        }
    }

    /// Forgets the positions below this one, which were acknowledged.
    pub fn forget_below(&mut self, snd_una: u64)
        ensures { self.new ≡ known_from snd_una self.old }
    {
        if snd_una <= self.snd_una {
            return;
        }
        let snd_una = snd_una.min(self.end);
        drop_through(&mut self.pieces, snd_una);
        begin_at(&mut self.pieces, snd_una);
        self.snd_una = snd_una;
    }
}
