//! The text of a witness.

ghost use Rattle.std.specs.Prelude.{◌≡◌, ◌<◌, ℕ, List, [], ◌∷◌, ◌++◌, Ok, IfOk, OnOk, slice_index};
ghost use Rattle.std.specs.List.{AllByRecursion};
ghost use Rattle.case_forms.specs.Limits.{Has16, Has32, HasAnswerBits, HasPlanBits};
ghost use Rattle.case_forms.specs.declared.steps.Witness.{Witness};
ghost use Rattle.line_fields.specs.Spelling.{IsBytePiece, number, printed_behind, printed_line};
ghost use Rattle.witness.specs.Labels.{AreExtras, bit_number, extras_pieces, iss_pieces, shift_pieces, segment_pieces};
ghost use Rattle.witness.specs.Labels.{endpoint_pieces, entry_pieces, label_name, label_pieces};
ghost use Rattle.witness.specs.declared.labels.LabelWord.TheVariants.{Recovery};
ghost use Rattle.witness.specs.Steps.{step_pieces};
ghost use Rattle.witness.specs.WitnessText.{IsWitnessText, seen_alone, witness_for, witness_of};
ghost use Rattle.witness.specs.Printable.{HasLabelBits, IsInMemory, IsPrintableWitness, with_columns};
ghost use Rattle.witness.specs.Printed.{witness_text, without_spans};

use crate::flags::push_flags;
use case_forms::{
    Answer, Extras, Host, Label, NamedLine, OutOfMemory, RecoveryChange, SegmentPlan, Step, Witness,
};
use line_fields::{
    first_text, push_answer, push_end, push_host, push_line, push_number, push_space, push_word,
};
use seqno::Word;
use std::alloc::Global;

// Writes a number after a space.
fn push_field(out: &mut Vec<u8>, value: u64) -> Result<(), OutOfMemory>
    ensures { OnOk result (out.new.items ≡ out.old.items ++ printed_behind (number value ∷ [])) }
{
    push_space(out)?;
    push_number(out, value)
}

// Writes yes or no after a space, as 1 or 0.
fn push_bit(out: &mut Vec<u8>, bit: bool) -> Result<(), OutOfMemory>
    ensures { OnOk result (out.new.items ≡ out.old.items ++ printed_behind (number (bit_number bit) ∷ [])) }
{
    push_field(out, u64::from(bit))
}

// Writes a host, its port and the other host's, each after a space.
fn push_endpoint(out: &mut Vec<u8>, host: Host, local: u16, remote: u16) -> Result<(), OutOfMemory>
    ensures { OnOk result (out.new.items ≡ out.old.items ++ printed_behind (endpoint_pieces host local remote)) }
{
    push_space(out)?;
    push_host(out, host)?;
    push_field(out, u64::from(local))?;
    push_field(out, u64::from(remote))
}

// Writes a host and the number of a line, each after a space.
fn push_entry(out: &mut Vec<u8>, host: Host, line: u64) -> Result<(), OutOfMemory>
    ensures { OnOk result (out.new.items ≡ out.old.items ++ printed_behind (entry_pieces host line)) }
{
    push_space(out)?;
    push_host(out, host)?;
    push_field(out, line)
}

// Writes the extra numbers, each after a space.
fn push_extras(out: &mut Vec<u8>, extras: Extras) -> Result<(), OutOfMemory>
    ensures { OnOk result (out.new.items ≡ out.old.items ++ printed_behind (extras_pieces extras)) }
{
    match extras {
        Extras::Bare => Ok(()),
        Extras::One(first) => push_field(out, u64::from(first)),
        Extras::Two(first, second) => {
            push_field(out, u64::from(first))?;
            push_field(out, u64::from(second))
        }
    }
}

// Writes the plan of the segment that an endpoint builds, each field after a space.
fn push_segment(out: &mut Vec<u8>, plan: SegmentPlan) -> Result<(), OutOfMemory>
    ensures { OnOk result (out.new.items ≡ out.old.items ++ printed_behind (segment_pieces plan)) }
{
    push_field(out, plan.pos)?;
    push_field(out, u64::from(plan.len))?;
    push_flags(out, plan.flags)?;
    push_field(out, u64::from(plan.window))?;
    push_start(out, plan.iss, plan.shift)?;
    Ok(())
}

// Writes an initial send sequence number and a shift, if given, each after a space.
fn push_start(out: &mut Vec<u8>, iss: Option<Word>, shift: Option<u8>) -> Result<(), OutOfMemory>
    ensures { OnOk result (out.new.items ≡ out.old.items ++ printed_behind (iss_pieces iss ++ shift_pieces shift)) }
{
    if let Some(iss) = iss {
        push_field(out, u64::from(iss.0))?;
    }
    if let Some(shift) = shift {
        push_field(out, u64::from(shift))?;
    }
    Ok(())
}

// The first word of a label that says what becomes of a recovery, after a space.
fn recovery_word(change: RecoveryChange) -> &'static str
    ensures { result.now ≡ 32 ∷ label_name (Recovery change) }
{
    match change {
        RecoveryChange::Begins => " F",
        RecoveryChange::IsUndone => " U",
    }
}

// Writes a label, each field after a space.
fn push_label(out: &mut Vec<u8>, label: &Label<NamedLine>) -> Result<(), OutOfMemory>
    ensures { OnOk result (out.new.items ≡ out.old.items ++ printed_behind (label_pieces label.now)) }
{
    match label {
        Label::L(line) => {
            push_word(out, " L")?;
            push_field(out, line.number)?;
            push_extras(out, line.extras)
        }
        Label::D { thread, answer } => {
            push_word(out, " D")?;
            push_field(out, u64::from(*thread))?;
            push_answer(out, answer)
        }
        Label::M { host, plan } => {
            push_word(out, " M")?;
            push_endpoint(out, *host, plan.lport, plan.rport)?;
            push_segment(out, *plan)
        }
        Label::T { host, line, choice } => {
            push_word(out, " T")?;
            push_entry(out, *host, *line)?;
            push_field(out, u64::from(choice.cwnd))?;
            push_bit(out, choice.keep)?;
            push_bit(out, choice.sample)
        }
        Label::K { host, line } => {
            push_word(out, " K")?;
            push_entry(out, *host, *line)
        }
        Label::R { host, line } => {
            push_word(out, " R")?;
            push_entry(out, *host, *line)
        }
        Label::F { host, recovery } => {
            push_word(out, recovery_word(recovery.change))?;
            push_endpoint(out, *host, recovery.lport, recovery.rport)?;
            push_field(out, u64::from(recovery.cwnd))?;
            push_field(out, u64::from(recovery.ssthresh))
        }
    }
}

/// Appends a step of a witness, as a line ended with LF. If memory runs out, a part may have been written.
pub fn push_step(out: &mut Vec<u8>, step: &Step) -> Result<(), OutOfMemory>
    ensures { OnOk result (out.new.items ≡ out.old.items ++ printed_line (step_pieces step.now)) }
{
    push_number(out, step.moment)?;
    push_label(out, &step.label)?;
    push_end(out)
}

/// The text of a witness, each line ended with LF. The error means that memory ran out.
pub fn print_witness(alloc: Global, witness: &Witness) -> Result<Vec<u8>, OutOfMemory>
    ensures text { IfOk result (λ bytes. bytes.items ≡ witness_text witness.now) }
    ensures memory { IfOk result (λ bytes. AllByRecursion IsInMemory witness.now.steps) }
{
    let mut out = Vec::new(alloc);
    push_witness(&mut out, witness)?;
    Ok(out)
}

/// Appends the text of a witness. If memory runs out, a part may have been written.
pub fn push_witness(out: &mut Vec<u8>, witness: &Witness) -> Result<(), OutOfMemory>
    ensures text { OnOk result (out.new.items ≡ out.old.items ++ witness_text witness.now) }
    ensures memory { OnOk result (AllByRecursion IsInMemory witness.now.steps) }
{
    push_line(out, first_text(witness.version))?;
    for step in witness.steps.as_slice() {
        push_step(out, step)?;
        step_in_memory(step);
    }
    Ok(())
}

/// If a witness has the contents of some text in the same version, wherever its spans are, it is printed as a text with
/// the same contents.
pub fn print_law()
    ensures { (v w : Witness) (text : List ℕ) → IsWitnessText v text → without_spans v ≡ without_spans w
        → IsWitnessText v (witness_text w) }
{}

/// A witness is printed as its text, with the spans of that text, if and only if it is within the limits.
pub fn printable_law()
    ensures printed { (w : Witness) → IsPrintableWitness w → IsWitnessText (with_columns w) (witness_text w) }
    // It reads back in its version, and without a trace as the version that its first line names.
    ensures read { (w : Witness) → IsPrintableWitness w
        → witness_for w.version (witness_text w) ≡ Ok (with_columns w) }
    ensures alone { (w : Witness) → IsPrintableWitness w
        → witness_of (witness_text w) ≡ Ok (seen_alone (with_columns w)) }
    ensures only { (w : Witness) (text : List ℕ) → IsWitnessText (with_columns w) text → IsPrintableWitness w }
{}

// The elements of a slice of bytes are below 256, as its type says.
fn slice_bytes(bytes: &[u8])
    ensures { (i : ℕ) → slice_index bytes.now i < 256 }
{}

/// A label's bytes are bytes, as the types of its values ensure.
pub fn label_bytes(label: &Label<NamedLine>)
    ensures { AllByRecursion IsBytePiece (label_pieces label.now) }
{
    if let Label::D {
        answer: Answer::Bytes(bytes),
        ..
    } = label
    {
        slice_bytes(bytes.as_slice());
    }
}

// A number of 16 bits, as its type says.
fn bits16(n: u16)
    ensures { Has16 n }
{}

// The same for one of 32 bits.
fn bits32(n: u32)
    ensures { Has32 n }
{}

// The extra numbers of a line are in the ranges of their types.
fn extras_bits(extras: Extras)
    ensures { AreExtras extras }
{
    match extras {
        Extras::Bare => (),
        Extras::One(first) => bits32(first),
        Extras::Two(first, second) => {
            bits32(first);
            bits32(second);
        }
    }
}

// The same for the number of an answer.
fn answer_bits(answer: &Answer)
    ensures { HasAnswerBits answer.now }
{
    if let Answer::Given(count) = answer {
        bits32(*count);
    }
}

// The same for those of a plan.
fn plan_bits(plan: SegmentPlan)
    ensures { HasPlanBits plan }
{
    bits16(plan.lport);
    bits16(plan.rport);
    bits16(plan.window);
    if let Some(Word(iss)) = plan.iss {
        bits32(iss);
    }
}

// The same for those of a label.
fn label_bits(label: &Label<NamedLine>)
    ensures { HasLabelBits label.now }
{
    match label {
        Label::L(line) => extras_bits(line.extras),
        Label::D { thread, answer } => {
            bits32(*thread);
            answer_bits(answer);
        }
        Label::M { plan, .. } => plan_bits(*plan),
        Label::T { choice, .. } => bits32(choice.cwnd),
        Label::K { .. } | Label::R { .. } => (),
        Label::F { recovery, .. } => {
            bits16(recovery.lport);
            bits16(recovery.rport);
            bits32(recovery.cwnd);
            bits32(recovery.ssthresh);
        }
    }
}

/// The types of a step's values ensure these limits: its numbers are in their ranges, and its bytes are bytes.
pub fn step_in_memory(step: &Step)
    ensures { IsInMemory step.now }
{
    label_bits(&step.label);
    label_bytes(&step.label);
}
