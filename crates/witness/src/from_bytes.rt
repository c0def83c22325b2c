//! One step, and a whole witness, from bytes.

ghost use Rattle.std.specs.Prelude.{◌≡◌, Ok, IfOk, IfErr, OnOk};
ghost use Rattle.bstr.specs.Text.{lines_of};
ghost use Rattle.case_forms.specs.declared.steps.Witness.{Witness};
ghost use Rattle.case_forms.specs.Witnesses.{IsWitness};
ghost use Rattle.line_fields.specs.Reading.{Fails, Gives};
ghost use Rattle.witness.specs.Steps.{step_of};
ghost use Rattle.witness.specs.Plain.{IsPlaced};
ghost use Rattle.witness.specs.WitnessText.{IsWitnessText, seen_alone, witness_for, version_named, witness_of};

use crate::first_line::begins_witness;
use crate::labels::label;
use crate::plain::plain_step;
use crate::stream::StepReader;
use bstr::ByteSlice;
use case_forms::{GREATEST_MOMENT, Span, Step, Steps, Version, Witness};
use counted::Counted;
use line_fields::{TextFault, checked_fields};
use std::alloc::Global;

/// The step in the line with that number in this version, whose bytes are given with the line's end. Its span is the
/// whole line. The error is the line's first fault.
#[tactic(auto, unfolding(crate::specs::Steps::step_of))]
#[inline(never)]
pub fn read_step(
    alloc: Global,
    version: Version,
    number: u64,
    raw: &[u8],
) -> Result<Step, TextFault>
    ensures { Gives (λ step. step) result (step_of version number raw.now) }
{
    let mut fields = checked_fields(number, raw)?;
    let stop = fields.stop();
    let moment = fields.number(0, GREATEST_MOMENT)?;
    let label = label(alloc, version, &mut fields)?;
    fields.end()?;
    let span = Span {
        line: number,
        start: 0,
        stop,
    };
    Ok(Step {
        moment,
        label,
        span,
    })
}

/// Reads the same step into its place, which avoids moving it from call to call. After a fault, the place may contain
/// anything.
#[inline(always)]
pub fn read_step_into(
    alloc: Global,
    version: Version,
    number: u64,
    raw: &[u8],
    place: &mut Option<Step>,
) -> Result<(), TextFault>
    ensures step { OnOk result (IsPlaced place.new (step_of version number raw.now)) }
    ensures fault { IfErr result (λ e. Fails e.kind e (step_of version number raw.now)) }
{
    if plain_step(alloc, version, number, raw, place).is_some() {
        return Ok(());
    }
    read_any_step(alloc, version, number, raw, place)
}

// The same, however the step is written.
#[inline(never)]
fn read_any_step(
    alloc: Global,
    version: Version,
    number: u64,
    raw: &[u8],
    place: &mut Option<Step>,
) -> Result<(), TextFault>
    ensures step { OnOk result (IsPlaced place.new (step_of version number raw.now)) }
    ensures fault { IfErr result (λ e. Fails e.kind e (step_of version number raw.now)) }
{
    *place = Some(read_step(alloc, version, number, raw)?);
    Ok(())
}

// The witness of a text in this version.
fn read(alloc: Global, version: Version, text: &[u8]) -> Result<Witness, TextFault>
    ensures { Gives (λ w. w) result (witness_for version text.now) }
{
    let mut reader = StepReader::new(alloc, version, Counted::new(text));
    let mut steps = Steps::new(alloc);
    while let Some(step) = reader.next()? {
        steps.push(step)?;
    }
    Ok(Witness { version, steps })
}

// The version in the first line of a text, for versions 4 to 6 the one with two hosts; version 1 if it names none.
fn version_named(text: &[u8]) -> Version
    ensures { result ≡ version_named (lines_of text.now) }
{
    match text.lines_with_terminator().next() {
        Some(raw) if begins_witness(Version::Two, raw) => Version::Two,
        Some(raw) if begins_witness(Version::Three, raw) => Version::Three,
        Some(raw) if begins_witness(Version::Four, raw) => Version::Four,
        Some(raw) if begins_witness(Version::Five, raw) => Version::Five,
        Some(raw) if begins_witness(Version::Six, raw) => Version::Six,
        _ => Version::One,
    }
}

/// The witness that a text spells, whatever its version, or the text's first fault. A first line that names no version
/// is Header. Falling moments are not a fault.
///
/// A text of version 4 to 6 is read in the forms of two hosts: only its trace says whether only host 0 was recorded.
pub fn read_witness(alloc: Global, text: &[u8]) -> Result<Witness, TextFault>
    // What is read is spelled so.
    ensures found { IfOk result (λ w. IsWitnessText w text.now) }
    // What is spelled so is read, unless memory runs out; of versions 4 to 6 in the forms of two hosts.
    ensures only { (w : Witness) → IsWitnessText w text.now → Gives (λ w. w) result (Ok (seen_alone w)) }
    // It keeps to the limits on the count of its steps, on their positions and on their shifts.
    ensures limits { IfOk result IsWitness }
    // Which fault is returned.
    ensures exact { Gives (λ w. w) result (witness_of text.now) }
{
    read(alloc, version_named(text), text)
}

/// The witness that a text spells for a trace of this version, or the text's first fault. A witness of another version
/// has the fault of its first line, Header.
pub fn read_witness_for(alloc: Global, version: Version, text: &[u8]) -> Result<Witness, TextFault>
    // What is read is spelled so, and of this version.
    ensures found { IfOk result (λ w. (w.version ≡ version) × IsWitnessText w text.now) }
    // What is spelled so is read, unless memory runs out.
    ensures only { (w : Witness) → w.version ≡ version → IsWitnessText w text.now → Gives (λ w. w) result (Ok w) }
    // It keeps to the limits on the count of its steps, on their positions and on their shifts.
    ensures limits { IfOk result IsWitness }
    // Which fault is returned.
    ensures exact { Gives (λ w. w) result (witness_for version text.now) }
{
    read(alloc, version, text)
}
