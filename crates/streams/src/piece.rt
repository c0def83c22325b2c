//! Pieces of what is outstanding: consecutive positions that were built last with one segment, and of which the same is
//! known.
//!
//! A piece is found by the position after it, so its first position can rise without a new key.

ghost use Rattle.std.specs.Prelude.{◌≡◌, ◌≤◌, ℕ, max, ◌∷◌, true, false, OnOk, OnErr};
ghost use Rattle.streams.specs.declared.piece.Piece.{Piece};
ghost use Rattle.streams.specs.Pieces.{Adjoin, begun, cut, grown, joined_if, past, piece_after, rebuilt, shown};

use super::by_end::drop_between;
use super::outstanding::Outstanding;
use std::alloc::AllocError;
use std::collections::BTreeMap;
use std::ops::Bound;

/// Positions of which the same is known, except that only the last one may end its segment.
#[derive(Clone, Copy)]
pub(crate) struct Piece {
    /// The first position.
    pub(crate) start: u64,
    /// What is known of the last one.
    pub(crate) state: Outstanding,
}

// Makes two pieces of one that begins before a position and ends after it. The error means that memory ran out; nothing
// changes then.
fn cut(pieces: &mut BTreeMap<u64, Piece>, position: u64) -> Result<(), AllocError>
    ensures ok { OnOk result (pieces.new.entries ≡ cut position pieces.old.entries) }
    ensures err { OnErr result (pieces.new.entries ≡ pieces.old.entries) }
{
    let Some((end, piece)) = piece_after(pieces, position) else {
        return Ok(());
    };
    if position <= piece.start {
        return Ok(());
    }
    let state = Outstanding {
        last: false,
        ..piece.state
    };
    pieces.insert(position, Piece { state, ..piece })?;
    if let Some(upper) = pieces.get_mut(&end) {
        *upper = Piece {
            start: position,
            ..piece
        };
    }
    Ok(())
}

/// Drops the pieces that end at a position or before it.
pub(crate) fn drop_through(pieces: &mut BTreeMap<u64, Piece>, position: u64)
    ensures { pieces.new.entries ≡ past position pieces.old.entries }
{
    while pop_through(pieces, position) {}
}

// Drops the first piece if it ends at a position or before it. Answers whether it does.
fn pop_through(pieces: &mut BTreeMap<u64, Piece>, position: u64) -> bool
    ensures popped { result ≡ true → (e : ℕ × Piece) × (pieces.old.entries ≡ e ∷ pieces.new.entries)
        × (e.0 ≤ position) }
    ensures none { result ≡ false → past position pieces.old.entries ≡ pieces.old.entries }
    ensures kept { result ≡ false → pieces.new.entries ≡ pieces.old.entries }
{
    let Some((end, _)) = pieces.first_key_value() else {
        return false;
    };
    if position < *end {
        return false;
    }
    pieces.pop_first().is_some()
}

/// The first piece that ends after a position loses what lies below it.
pub(crate) fn begin_at(pieces: &mut BTreeMap<u64, Piece>, position: u64)
    ensures { pieces.new.entries ≡ begun position pieces.old.entries }
{
    let Some((end, piece)) = piece_after(pieces, position) else {
        return;
    };
    if let Some(first) = pieces.get_mut(&end) {
        *first = Piece {
            start: piece.start.max(position),
            ..piece
        };
    }
}

/// Takes a segment that was built: the positions from this one to before `upto`. The pieces end at `end`. The error
/// means that memory ran out; nothing that is known changes then.
pub(crate) fn make(
    pieces: &mut BTreeMap<u64, Piece>,
    end: u64,
    position: u64,
    upto: u64,
    number: u64,
    moment: u64,
) -> Result<(), AllocError>
    requires { position ≤ end }
    ensures made { OnOk result ((from : ℕ) → Adjoin from end pieces.old.entries → from ≤ position → position ≤ upto
        → (shown pieces.new.entries ≡ rebuilt from end position upto number moment (shown pieces.old.entries))
        × Adjoin from (max end upto) pieces.new.entries) }
    ensures err { OnErr result ((from : ℕ) → Adjoin from end pieces.old.entries
        → (shown pieces.new.entries ≡ shown pieces.old.entries) × Adjoin from end pieces.new.entries) }
{
    let old_end = upto.min(end);
    cut(pieces, position)?;
    cut(pieces, old_end)?;
    let mut state = Outstanding {
        number,
        moment,
        again: false,
        last: true,
    };
    grow(pieces, end, upto, state)?;
    state.again = true;
    state.last = upto <= end;
    join(pieces, position, old_end, state);
    Ok(())
}

// Adds a piece behind the others, which end at a position, if it isn't empty.
fn grow(
    pieces: &mut BTreeMap<u64, Piece>,
    end: u64,
    upto: u64,
    state: Outstanding,
) -> Result<(), AllocError>
    ensures ok { OnOk result (pieces.new.entries ≡ grown end upto state pieces.old.entries) }
    ensures err { OnErr result (pieces.new.entries ≡ pieces.old.entries) }
{
    if end < upto {
        pieces.insert(upto, Piece { start: end, state })?;
    }
    Ok(())
}

// One piece takes the place of those from a position to before another, if one of them ends there.
fn join(pieces: &mut BTreeMap<u64, Piece>, from: u64, upto: u64, state: Outstanding)
    ensures { pieces.new.entries ≡ joined_if from upto state pieces.old.entries }
{
    if upto <= from {
        return;
    }
    drop_between(pieces, from + 1, upto);
    if let Some(last) = pieces.get_mut(&upto) {
        *last = Piece { start: from, state };
    }
}

/// The first piece that ends after a position, with its end.
pub(crate) fn piece_after(pieces: &BTreeMap<u64, Piece>, position: u64) -> Option<(u64, Piece)>
    ensures { result ≡ piece_after position pieces.now.entries }
{
    match pieces
        .range((Bound::Excluded(position), Bound::Unbounded))
        .next()
    {
        Some((end, piece)) => Some((*end, *piece)),
        None => None,
    }
}
