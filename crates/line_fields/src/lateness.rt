//! How late a host may be.

ghost use Rattle.std.specs.Prelude.{◌≡◌};
ghost use Rattle.line_fields.specs.Reading.{Gives};
ghost use Rattle.line_fields.specs.Slack.{begins_digit, slack_field};

use crate::fault::{FaultKind, TextFault};
use crate::fields::Fields;

// The greatest slack, in microseconds.
const MAX_SLACK: u64 = 1_000_000_000_000_000_000;

// Whether the first byte is a digit.
fn begins_digit(text: &[u8]) -> bool
    ensures { result ≡ begins_digit text.now }
{
    match text.first() {
        Some(byte) => byte.is_ascii_digit(),
        None => false,
    }
}

/// The next field, which says how late a host may be: a number of microseconds, or `any`, which is `None`. Another
/// field is Number if a digit begins it, else Field.
#[tactic(auto, unfolding(crate::specs::Slack::slack_field))]
pub fn slack(fields: &mut Fields) -> Result<Option<u64>, TextFault>
    ensures { Gives (λ slack. (slack, fields.new)) result (slack_field fields.old) }
{
    let field = fields.next()?;
    if field.is("any") {
        return Ok(None);
    }
    if !begins_digit(field.text) {
        return Err(field.fault(FaultKind::Field));
    }
    let slack = field.number(0, MAX_SLACK)?;
    Ok(Some(slack))
}
