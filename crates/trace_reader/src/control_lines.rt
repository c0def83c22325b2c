//! The lines of the header that name the sender's congestion control, which only version 6 has.

ghost use Rattle.std.specs.Prelude.{◌≡◌, ◌≢◌, Err, codes, IfOk};
ghost use Rattle.counted.specs.Counting.{one_more};
ghost use Rattle.line_fields.specs.Choice.{kind_field};
ghost use Rattle.line_fields.specs.Reading.{Gives};
ghost use Rattle.line_fields.specs.Rows.{with_rest, Reads};
ghost use Rattle.line_fields.specs.Sender.{sender_name, all_senders, growth_name, all_growths};
ghost use Rattle.case_lines.specs.CaseLines.{KeepsWitness};
ghost use Rattle.case_lines.specs.TextLeft.{rows_left, witness_left, text_failures};
ghost use Rattle.trace_reader.specs.Headers.{value_line, sender_line, growth_line, both_lines, control_lines};

use crate::named_lines::named_rest;
use case_forms::{Growth, Sender, Version};
use case_lines::TextLines;
use line_fields::{SourceFault, TextFault, growth, sender};
use std::io::BufRead;

// The number of the line that names the sender's congestion control.
const SENDER_LINE: u64 = 11;

// The number of the line that says what a sender may add in slow start.
const GROWTH_LINE: u64 = 12;

// The sender's congestion control, from a line made of `sender` and a word.
#[tactic(auto, unfolding(crate::specs::Headers::value_line))]
fn named_sender(raw: &[u8]) -> Result<Sender, TextFault>
    ensures { Gives (λ word. word) result
        (value_line 11 (codes "sender") (kind_field sender_name all_senders) raw.now) }
{
    let (mut fields, fault) = named_rest(SENDER_LINE, "sender", raw)?;
    let sender = sender(&mut fields)?;
    if !fields.is_empty() {
        return Err(fault);
    }
    Ok(sender)
}

// The same from the next line.
#[tactic(auto, unfolding(crate::specs::Headers::next_value))]
fn next_sender<A: BufRead>(text: &mut TextLines<A>) -> Result<Sender, SourceFault>
    ensures value { Reads with_rest sender_line
        (rows_left A.remaining text.old) (rows_left A.remaining text.new) result }
    ensures witness { IfOk result (λ x.
        KeepsWitness (witness_left A.remaining text.old) (witness_left A.remaining text.new)) }
    ensures read { result ≡ Err SourceFault.Read → text_failures text.new ≡ one_more (text_failures text.old) }
    ensures same { result ≢ Err SourceFault.Read → text_failures text.new ≡ text_failures text.old }
{
    text.require_line(SENDER_LINE)?;
    let sender = named_sender(text.raw())?;
    Ok(sender)
}

// What a sender may add in slow start, from a line made of `growth` and a word.
#[tactic(auto, unfolding(crate::specs::Headers::value_line))]
fn named_growth(raw: &[u8]) -> Result<Growth, TextFault>
    ensures { Gives (λ word. word) result
        (value_line 12 (codes "growth") (kind_field growth_name all_growths) raw.now) }
{
    let (mut fields, fault) = named_rest(GROWTH_LINE, "growth", raw)?;
    let growth = growth(&mut fields)?;
    if !fields.is_empty() {
        return Err(fault);
    }
    Ok(growth)
}

// The same from the next line.
#[tactic(auto, unfolding(crate::specs::Headers::next_value))]
fn next_growth<A: BufRead>(text: &mut TextLines<A>) -> Result<Growth, SourceFault>
    ensures value { Reads with_rest growth_line
        (rows_left A.remaining text.old) (rows_left A.remaining text.new) result }
    ensures witness { IfOk result (λ x.
        KeepsWitness (witness_left A.remaining text.old) (witness_left A.remaining text.new)) }
    ensures read { result ≡ Err SourceFault.Read → text_failures text.new ≡ one_more (text_failures text.old) }
    ensures same { result ≢ Err SourceFault.Read → text_failures text.new ≡ text_failures text.old }
{
    text.require_line(GROWTH_LINE)?;
    let growth = named_growth(text.raw())?;
    Ok(growth)
}

// Both lines.
#[tactic(auto, unfolding(crate::specs::Headers::both_lines))]
fn both_lines<A: BufRead>(text: &mut TextLines<A>) -> Result<(Sender, Growth), SourceFault>
    ensures value { Reads with_rest both_lines
        (rows_left A.remaining text.old) (rows_left A.remaining text.new) result }
    ensures witness { IfOk result (λ x.
        KeepsWitness (witness_left A.remaining text.old) (witness_left A.remaining text.new)) }
    ensures read { result ≡ Err SourceFault.Read → text_failures text.new ≡ one_more (text_failures text.old) }
    ensures same { result ≢ Err SourceFault.Read → text_failures text.new ≡ text_failures text.old }
{
    let sender = next_sender(text)?;
    let growth = next_growth(text)?;
    Ok((sender, growth))
}

/// The sender's congestion control, and what it may add in slow start, from the next two lines, if the version has
/// them.
pub(crate) fn control_lines<A: BufRead>(
    text: &mut TextLines<A>,
    version: Version,
) -> Result<(Sender, Growth), SourceFault>
    ensures value { Reads with_rest (control_lines version)
        (rows_left A.remaining text.old) (rows_left A.remaining text.new) result }
    ensures witness { IfOk result (λ x.
        KeepsWitness (witness_left A.remaining text.old) (witness_left A.remaining text.new)) }
    ensures read { result ≡ Err SourceFault.Read → text_failures text.new ≡ one_more (text_failures text.old) }
    ensures same { result ≢ Err SourceFault.Read → text_failures text.new ≡ text_failures text.old }
{
    if version.says_sender() {
        both_lines(text)
    } else {
        Ok((Sender::Reno, Growth::OneSegment))
    }
}
