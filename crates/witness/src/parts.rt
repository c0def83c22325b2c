//! The parts of labels: the fields after a label's first word.

ghost use Rattle.line_fields.specs.Reading.{Gives};
ghost use Rattle.witness.specs.Parts.{endpoint_field, entry_field, bit_field, extras_field, start_field};

use case_forms::{Extras, Host, Version};
use line_fields::{Fields, TextFault};
use seqno::Word;

// The greatest shift of a window (RFC 7323, 2.3).
const MAX_SHIFT: u64 = 14;

// A host, and the ports of one of its endpoints: the local one and the remote one.
#[tactic(auto, unfolding(crate::specs::Parts::endpoint_field))]
pub(crate) fn endpoint(version: Version, fields: &mut Fields) -> Result<(Host, u16, u16), TextFault>
    ensures { Gives (λ endpoint. (endpoint, fields.new)) result (endpoint_field version fields.old) }
{
    let host = fields.host(version)?;
    let local = fields.port()?;
    let remote = fields.port()?;
    Ok((host, local, remote))
}

// A host, and the number of the line by which a segment arrived in its inbox.
#[tactic(auto, unfolding(crate::specs::Parts::entry_field))]
pub(crate) fn entry(version: Version, fields: &mut Fields) -> Result<(Host, u64), TextFault>
    ensures { Gives (λ entry. (entry, fields.new)) result (entry_field version fields.old) }
{
    let host = fields.host(version)?;
    let line = u64::from(fields.number32()?);
    Ok((host, line))
}

// Yes or no, written 1 or 0.
#[tactic(auto, unfolding(crate::specs::Parts::bit_field))]
pub(crate) fn bit(fields: &mut Fields) -> Result<bool, TextFault>
    ensures { Gives (λ bit. (bit, fields.new)) result (bit_field fields.old) }
{
    Ok(fields.number(0, 1)? == 1)
}

// The numbers after a line's number, at most two. A further field must be a number; a third field is left.
#[tactic(auto, unfolding(crate::specs::Parts::extras_field))]
pub(crate) fn extras(fields: &mut Fields) -> Result<Extras, TextFault>
    ensures { Gives (λ extras. (extras, fields.new)) result (extras_field fields.old) }
{
    if fields.is_empty() {
        return Ok(Extras::Bare);
    }
    let first = fields.number32()?;
    if fields.is_empty() {
        return Ok(Extras::One(first));
    }
    let second = fields.number32()?;
    Ok(Extras::Two(first, second))
}

// The initial send sequence number after a segment's window, if there is another field; and the shift, if there is one
// more and windows may be scaled. These fields must be numbers.
#[tactic(auto, unfolding(crate::specs::Parts::start_field))]
pub(crate) fn start(
    version: Version,
    fields: &mut Fields,
) -> Result<(Option<Word>, Option<u8>), TextFault>
    ensures { Gives (λ start. (start, fields.new)) result (start_field version fields.old) }
{
    if fields.is_empty() {
        return Ok((None, None));
    }
    let iss = Word(fields.number32()?);
    if !version.scales() || fields.is_empty() {
        return Ok((Some(iss), None));
    }
    let shift = fields.number(0, MAX_SHIFT)? as u8;
    Ok((Some(iss), Some(shift)))
}
