//! The words for how much of congestion control is judged.

ghost use Rattle.std.specs.Prelude.{◌≡◌};
ghost use Rattle.line_fields.specs.Reading.{Gives};
ghost use Rattle.line_fields.specs.Congestion.{judged_field, judged_name, may_judge};

use crate::fault::{FaultKind, TextFault};
use crate::fields::Fields;
use case_forms::{Judged, Version};

/// The word for how much of congestion control is judged.
pub fn judged_name(congestion: Judged) -> &'static str
    ensures { result.now ≡ judged_name congestion }
{
    match congestion {
        Judged::Full => "full",
        Judged::Recovery => "recovery",
        Judged::NoControl => "none",
    }
}

// Whether a header of this version may say so.
fn may_judge(version: Version, congestion: Judged) -> bool
    ensures { result ≡ may_judge version congestion }
{
    match congestion {
        Judged::Full => !version.says_sender(),
        Judged::Recovery | Judged::NoControl => true,
    }
}

/// The next field, which is such a word that a header of this version may have: in version 6, not `full`. The error is
/// Field if it is missing or is another word.
#[tactic(auto, unfolding(crate::specs::Congestion::judged_field))]
pub fn judged(fields: &mut Fields, version: Version) -> Result<Judged, TextFault>
    ensures { Gives (λ word. (word, fields.new)) result (judged_field version fields.old) }
{
    let name = fields.next()?;
    let congestion = if name.is("full") {
        Judged::Full
    } else if name.is("recovery") {
        Judged::Recovery
    } else if name.is("none") {
        Judged::NoControl
    } else {
        return Err(name.fault(FaultKind::Field));
    };
    if !may_judge(version, congestion) {
        return Err(name.fault(FaultKind::Field));
    }
    Ok(congestion)
}
