//! The labels of steps: what a step does.

ghost use Rattle.std.specs.Prelude.{◌≡◌};
ghost use Rattle.line_fields.specs.Reading.{Gives};
ghost use Rattle.line_fields.specs.Choice.{kind_named, kind_field};
ghost use Rattle.witness.specs.Labels.{label_name, label_words_of};
ghost use Rattle.witness.specs.LabelFields.{line_label, effect_label, segment_label, taking_label, recovery_label};
ghost use Rattle.witness.specs.LabelFields.{label_field};

use crate::flags::flags;
use crate::parts::{bit, endpoint, entry, extras, start};
use case_forms::{
    GREATEST_POSITION, Label, NamedLine, Recovery, RecoveryChange, SegmentPlan, TakeChoice, Version,
};
use line_fields::{FaultKind, Fields, TextFault, Token, answer};
use std::alloc::Global;

// The greatest length of a payload, in bytes.
const MAX_LEN: u64 = 65_515;

// The greatest window of a segment, in bytes.
const MAX_WINDOW: u64 = 65_535;

// The first word of a label.
#[derive(Clone, Copy)]
enum LabelWord {
    Line,
    Effect,
    Making,
    Taking,
    Dropping,
    Refusing,
    Recovery(RecoveryChange),
}

// The first word of a label that a field spells in this version.
fn label_word_named(version: Version, name: &Token) -> Option<LabelWord>
    ensures { result ≡ kind_named label_name (label_words_of version) name.now.text.now }
{
    if name.is("L") {
        Some(LabelWord::Line)
    } else if name.is("D") {
        Some(LabelWord::Effect)
    } else if name.is("M") {
        Some(LabelWord::Making)
    } else if name.is("T") {
        Some(LabelWord::Taking)
    } else if name.is("K") {
        Some(LabelWord::Dropping)
    } else if name.is("R") {
        Some(LabelWord::Refusing)
    } else if name.is("F") {
        Some(LabelWord::Recovery(RecoveryChange::Begins))
    } else if version.says_sender() && name.is("U") {
        Some(LabelWord::Recovery(RecoveryChange::IsUndone))
    } else {
        None
    }
}

// The next field, which is the first word of a label.
fn label_word(version: Version, fields: &mut Fields) -> Result<LabelWord, TextFault>
    ensures { Gives (λ word. (word, fields.new)) result (kind_field label_name (label_words_of version) fields.old) }
{
    let name = fields.next()?;
    match label_word_named(version, &name) {
        Some(word) => Ok(word),
        None => Err(name.fault(FaultKind::Field)),
    }
}

// The number of a line, and the extra numbers.
#[tactic(auto, unfolding(crate::specs::LabelFields::line_label))]
fn line_label(fields: &mut Fields) -> Result<Label<NamedLine>, TextFault>
    ensures { Gives (λ label. (label, fields.new)) result (line_label fields.old) }
{
    let number = u64::from(fields.number32()?);
    let extras = extras(fields)?;
    Ok(Label::L(NamedLine { number, extras }))
}

// A thread, and the answer of its open call.
#[tactic(auto, unfolding(crate::specs::LabelFields::effect_label))]
fn effect_label(alloc: Global, fields: &mut Fields) -> Result<Label<NamedLine>, TextFault>
    ensures { Gives (λ label. (label, fields.new)) result (effect_label fields.old) }
{
    let thread = fields.number32()?;
    let answer = answer(alloc, fields)?;
    Ok(Label::D { thread, answer })
}

// An endpoint, and the plan of the segment that it builds.
#[tactic(auto, unfolding(crate::specs::LabelFields::segment_label))]
fn segment_label(version: Version, fields: &mut Fields) -> Result<Label<NamedLine>, TextFault>
    ensures { Gives (λ label. (label, fields.new)) result (segment_label version fields.old) }
{
    let (host, lport, rport) = endpoint(version, fields)?;
    let pos = fields.number(0, GREATEST_POSITION)?;
    let len = fields.number(0, MAX_LEN)? as u16;
    let flags = flags(fields)?;
    let window = fields.number(0, MAX_WINDOW)? as u16;
    let (iss, shift) = start(version, fields)?;
    let plan = SegmentPlan {
        lport,
        rport,
        pos,
        len,
        flags,
        window,
        iss,
        shift,
    };
    Ok(Label::M { host, plan })
}

// An inbox entry, and the choice when it is processed: the congestion window, and whether data is kept and the round
// trip measured.
#[tactic(auto, unfolding(crate::specs::LabelFields::taking_label))]
fn taking_label(version: Version, fields: &mut Fields) -> Result<Label<NamedLine>, TextFault>
    ensures { Gives (λ label. (label, fields.new)) result (taking_label version fields.old) }
{
    let (host, line) = entry(version, fields)?;
    let cwnd = fields.number32()?;
    let keep = bit(fields)?;
    let sample = bit(fields)?;
    let choice = TakeChoice { cwnd, keep, sample };
    Ok(Label::T { host, line, choice })
}

// An endpoint, its congestion window and its slow start threshold when this becomes of its recovery.
#[tactic(auto, unfolding(crate::specs::LabelFields::recovery_label))]
fn recovery_label(
    version: Version,
    change: RecoveryChange,
    fields: &mut Fields,
) -> Result<Label<NamedLine>, TextFault>
    ensures { Gives (λ label. (label, fields.new)) result (recovery_label version change fields.old) }
{
    let (host, lport, rport) = endpoint(version, fields)?;
    let cwnd = fields.number32()?;
    let ssthresh = fields.number32()?;
    let recovery = Recovery {
        change,
        lport,
        rport,
        cwnd,
        ssthresh,
    };
    Ok(Label::F { host, recovery })
}

// A label, the last part of its line. An unknown word is Field.
#[tactic(auto, unfolding(crate::specs::LabelFields::label_field))]
pub(crate) fn label(
    alloc: Global,
    version: Version,
    fields: &mut Fields,
) -> Result<Label<NamedLine>, TextFault>
    ensures { Gives (λ label. (label, fields.new)) result (label_field version fields.old) }
{
    match label_word(version, fields)? {
        LabelWord::Line => line_label(fields),
        LabelWord::Effect => effect_label(alloc, fields),
        LabelWord::Making => segment_label(version, fields),
        LabelWord::Taking => taking_label(version, fields),
        LabelWord::Dropping => {
            let (host, line) = entry(version, fields)?;
            Ok(Label::K { host, line })
        }
        LabelWord::Refusing => {
            let (host, line) = entry(version, fields)?;
            Ok(Label::R { host, line })
        }
        LabelWord::Recovery(change) => recovery_label(version, change, fields),
    }
}
