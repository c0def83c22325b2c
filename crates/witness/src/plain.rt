//! Steps as they are usually written, which are read without a fault to return. Any other line is read again by
//! `read_step`, which tells what is wrong with it.

ghost use Rattle.std.specs.Prelude.{◌≡◌, [], IfSome, Some, Ok};
ghost use Rattle.case_forms.specs.declared.steps.Label.TheVariants.{L, D, M, T};
ghost use Rattle.witness.specs.Parts.{bit_field, entry_field, extras_field};
ghost use Rattle.witness.specs.LabelFields.{line_label, effect_label, segment_label, taking_label};
ghost use Rattle.witness.specs.Steps.{step_of};
ghost use Rattle.witness.specs.Plain.{IsPlaced};

use case_forms::{
    Extras, Flags, GREATEST_MOMENT, GREATEST_POSITION, Host, Label, NamedLine, SegmentPlan, Span,
    Step, TakeChoice, Version,
};
use line_fields::{Fields, checked_fields, plain_answer};
use std::alloc::Global;

// The greatest 32-bit number: a line, a thread, a count, or a window.
const MAX_NUMBER: u64 = 4_294_967_295;

// The greatest port. The least is 1.
const MAX_PORT: u64 = 65_535;

// The greatest length of a payload, in bytes.
const MAX_LEN: u64 = 65_515;

// The greatest window of a segment, in bytes.
const MAX_WINDOW: u64 = 65_535;

/// Writes the step in the line with that number into its place, if it is an `L`, `D`, `T` or `M` step as it is usually
/// written. Each kind of step is written by itself, without a copy.
#[inline(always)]
pub(crate) fn plain_step(
    alloc: Global,
    version: Version,
    number: u64,
    raw: &[u8],
    place: &mut Option<Step>,
) -> Option<()>
    ensures { IfSome result (λ u. IsPlaced place.new (step_of version number raw.now)) }
{
    let Ok(mut fields) = checked_fields(number, raw) else {
        return None;
    };
    let span = Span {
        line: number,
        start: 0,
        stop: fields.stop(),
    };
    let moment = fields.plain_number(0, GREATEST_MOMENT)?;
    if fields.plain_letter(b'L') {
        let named = plain_line(&mut fields)?;
        expect_end(&fields)?;
        put(place, moment, Label::L(named), span);
        return Some(());
    }
    if fields.plain_letter(b'D') {
        let thread = fields.plain_small(0, MAX_NUMBER)? as u32;
        let answer = plain_answer(alloc, fields.rest()?)?;
        put(place, moment, Label::D { thread, answer }, span);
        return Some(());
    }
    if fields.plain_letter(b'T') {
        let (host, line, choice) = plain_taking(version, &mut fields)?;
        expect_end(&fields)?;
        put(place, moment, Label::T { host, line, choice }, span);
        return Some(());
    }
    if fields.plain_letter(b'M') {
        let (host, plan) = plain_segment(version, &mut fields)?;
        put(place, moment, Label::M { host, plan }, span);
        return Some(());
    }
    None
}

// Puts a step into its place.
#[inline(always)]
fn put(place: &mut Option<Step>, moment: u64, label: Label<NamedLine>, span: Span)
    ensures { place.new ≡ Some (record { moment = moment; label = label; span = span }) }
{
    *place = Some(Step {
        moment,
        label,
        span,
    });
}

// The end of the line.
#[inline(always)]
fn expect_end(fields: &Fields) -> Option<()>
    ensures { IfSome result (λ u. fields.now.words ≡ []) }
{
    if !fields.is_empty() {
        return None;
    }
    Some(())
}

// The number of a line, and the extra numbers.
#[tactic(auto, unfolding(crate::specs::LabelFields::line_label))]
#[inline(always)]
fn plain_line(fields: &mut Fields) -> Option<NamedLine>
    ensures { IfSome result (λ line. line_label fields.old ≡ Ok (L line, fields.new)) }
{
    let number = fields.plain_number(0, MAX_NUMBER)?;
    let extras = plain_extras(fields)?;
    Some(NamedLine { number, extras })
}

// The extra numbers.
#[tactic(auto, unfolding(crate::specs::Parts::extras_field))]
#[inline(always)]
fn plain_extras(fields: &mut Fields) -> Option<Extras>
    ensures { IfSome result (λ extras. extras_field fields.old ≡ Ok (extras, fields.new)) }
{
    if fields.is_empty() {
        return Some(Extras::Bare);
    }
    let first = fields.plain_number(0, MAX_NUMBER)? as u32;
    if fields.is_empty() {
        return Some(Extras::One(first));
    }
    let second = fields.plain_number(0, MAX_NUMBER)? as u32;
    Some(Extras::Two(first, second))
}

// A host, and the number of the line by which a segment arrived in its inbox.
#[tactic(auto, unfolding(crate::specs::Parts::entry_field))]
#[inline(always)]
fn plain_entry(version: Version, fields: &mut Fields) -> Option<(Host, u64)>
    ensures { IfSome result (λ entry. entry_field version fields.old ≡ Ok (entry, fields.new)) }
{
    let host = fields.plain_host(version)?;
    let line = fields.plain_number(0, MAX_NUMBER)?;
    Some((host, line))
}

// Yes or no, written 1 or 0.
#[tactic(auto, unfolding(crate::specs::Parts::bit_field))]
#[inline(always)]
fn plain_bit(fields: &mut Fields) -> Option<bool>
    ensures { IfSome result (λ bit. bit_field fields.old ≡ Ok (bit, fields.new)) }
{
    Some(fields.plain_small(0, 1)? == 1)
}

// An inbox entry, and the choice when it is processed.
#[tactic(auto, unfolding(crate::specs::LabelFields::taking_label))]
#[inline(always)]
fn plain_taking(version: Version, fields: &mut Fields) -> Option<(Host, u64, TakeChoice)>
    ensures { IfSome result (λ took. taking_label version fields.old ≡ Ok (T took.0 took.1 took.2, fields.new)) }
{
    let (host, line) = plain_entry(version, fields)?;
    let cwnd = fields.plain_number(0, MAX_NUMBER)? as u32;
    let keep = plain_bit(fields)?;
    let sample = plain_bit(fields)?;
    let choice = TakeChoice { cwnd, keep, sample };
    Some((host, line, choice))
}

// An endpoint, and the plan of the segment that it builds: one with an ACK alone, and no initial send sequence number.
#[inline(always)]
fn plain_segment(version: Version, fields: &mut Fields) -> Option<(Host, SegmentPlan)>
    ensures label { IfSome result (λ made. segment_label version fields.old ≡ Ok (M made.0 made.1, fields.new)) }
    ensures end { IfSome result (λ made. fields.new.words ≡ []) }
{
    let host = fields.plain_host(version)?;
    let lport = fields.plain_number(1, MAX_PORT)? as u16;
    let rport = fields.plain_number(1, MAX_PORT)? as u16;
    let pos = fields.plain_number(0, GREATEST_POSITION)?;
    let len = fields.plain_number(0, MAX_LEN)? as u16;
    if !fields.plain_letter(b'A') {
        return None;
    }
    let window = fields.plain_number(0, MAX_WINDOW)? as u16;
    expect_end(fields)?;
    let flags = Flags {
        ack: true,
        rst: false,
        syn: false,
        fin: false,
    };
    let plan = SegmentPlan {
        lport,
        rport,
        pos,
        len,
        flags,
        window,
        iss: None,
        shift: None,
    };
    Some((host, plan))
}
