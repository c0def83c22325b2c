//! The words for the sender's congestion control.

ghost use Rattle.std.specs.Prelude.{◌≡◌};
ghost use Rattle.line_fields.specs.Reading.{Gives};
ghost use Rattle.line_fields.specs.Choice.{kind_field};
ghost use Rattle.line_fields.specs.Sender.{sender_name, all_senders, growth_name, all_growths};

use crate::fault::{FaultKind, TextFault};
use crate::fields::Fields;
use case_forms::{Growth, Sender};

/// The word for the sender's congestion control.
pub fn sender_name(sender: Sender) -> &'static str
    ensures { result.now ≡ sender_name sender }
{
    match sender {
        Sender::Reno => "reno",
        Sender::Cubic => "cubic",
    }
}

/// The next field, which is such a word. The error is Field if it is missing or is another word.
pub fn sender(fields: &mut Fields) -> Result<Sender, TextFault>
    ensures { Gives (λ word. (word, fields.new)) result (kind_field sender_name all_senders fields.old) }
{
    let name = fields.next()?;
    if name.is("reno") {
        Ok(Sender::Reno)
    } else if name.is("cubic") {
        Ok(Sender::Cubic)
    } else {
        Err(name.fault(FaultKind::Field))
    }
}

/// The word for what a sender may add to its congestion window in slow start.
pub fn growth_name(growth: Growth) -> &'static str
    ensures { result.now ≡ growth_name growth }
{
    match growth {
        Growth::OneSegment => "1",
        Growth::TwoSegments => "2",
        Growth::Any => "any",
    }
}

/// The next field, which is such a word. The error is Field if it is missing or is another word.
pub fn growth(fields: &mut Fields) -> Result<Growth, TextFault>
    ensures { Gives (λ word. (word, fields.new)) result (kind_field growth_name all_growths fields.old) }
{
    let name = fields.next()?;
    if name.is("1") {
        Ok(Growth::OneSegment)
    } else if name.is("2") {
        Ok(Growth::TwoSegments)
    } else if name.is("any") {
        Ok(Growth::Any)
    } else {
        Err(name.fault(FaultKind::Field))
    }
}
