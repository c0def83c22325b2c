//! Which endpoints acknowledge selectively.

ghost use Rattle.std.specs.Prelude.{◌≡◌};
ghost use Rattle.spec_flights.specs.Sides.{are_selective, neither, sides_after};

use spec_duties::SynChange;
use spec_flights::Sides;

/// Before any SYN.
pub fn neither() -> Sides
    ensures { result ≡ neither }
{
    Sides {
        own: false,
        peers: false,
    }
}

/// Whether both SYNs permitted selective acknowledgments.
pub fn are_selective(sides: Sides) -> bool
    ensures { result ≡ are_selective sides }
{
    sides.own && sides.peers
}

/// After a step that does this with a SYN.
pub fn sides_after(change: SynChange, sides: Sides) -> Sides
    ensures { result ≡ sides_after change sides }
{
    match change {
        SynChange::Sends { permits } => Sides {
            own: sides.own || permits,
            peers: sides.peers,
        },
        SynChange::Takes { permits, .. } => Sides {
            own: sides.own,
            peers: permits,
        },
        SynChange::Nothing | SynChange::ComesAgain => sides,
    }
}
