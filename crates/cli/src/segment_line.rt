//! The line and the status of a segment.

ghost use Rattle.std.specs.Prelude.{◌≡◌, ◌++◌, IfOk, codes, decimal};
ghost use Rattle.cli.specs.SegmentText.{ends_text, first_number, flags_text, letter_in, letter_of, lower_letters};
ghost use Rattle.cli.specs.SegmentText.{mss_text, payload_text, rest_text, segment_line, segment_status, segment_text};
ghost use Rattle.cli.specs.SegmentText.{upper_letters};

use crate::argument::ArgumentFault;
use crate::lines::YES;
use answers::{MEMORY, REFUSED};
use case_forms::OutOfMemory;
use line_fields::{push_number, push_word};
use segment::{Flag, Segment};
use seqno::{Word, number};
use std::alloc::Global;

/// The status of an argument's segment or fault.
pub(crate) fn segment_status(answer: &Result<Segment, ArgumentFault>) -> u8
    ensures { result ≡ segment_status answer.now }
{
    match answer {
        Ok(_) => YES,
        Err(ArgumentFault::Hex | ArgumentFault::Segment(_)) => REFUSED,
        Err(ArgumentFault::OutOfMemory) => MEMORY,
    }
}

/// The line of an argument's segment or fault, with its end.
pub(crate) fn segment_line(
    alloc: Global,
    answer: &Result<Segment, ArgumentFault>,
) -> Result<Vec<u8>, OutOfMemory>
    ensures { IfOk result (λ line. line.items ≡ segment_line answer.now) }
{
    let mut line = Vec::new(alloc);
    match answer {
        Ok(segment) => push_segment(&mut line, segment)?,
        Err(ArgumentFault::Hex) => push_word(&mut line, "bad segment hex")?,
        Err(ArgumentFault::Segment(fault)) => {
            push_word(&mut line, "bad segment ")?;
            push_word(&mut line, fault.name())?;
        }
        Err(ArgumentFault::OutOfMemory) => push_word(&mut line, "bad memory")?,
    }
    line.push(b'\n')?;
    Ok(line)
}

// Appends a segment's fields in their order.
fn push_segment(line: &mut Vec<u8>, segment: &Segment) -> Result<(), OutOfMemory>
    ensures { IfOk result (λ _. line.new.items ≡ line.old.items ++ segment_text segment.now) }
{
    push_ends(line, segment)?;
    push_rest(line, segment)
}

// Appends what follows the ports and both numbers.
fn push_rest(line: &mut Vec<u8>, segment: &Segment) -> Result<(), OutOfMemory>
    ensures { IfOk result (λ _. line.new.items ≡ line.old.items ++ rest_text segment.now) }
{
    push_flags(line, segment)?;
    push_field(line, " wnd ", u64::from(segment.window))?;
    push_mss(line, segment.mss)?;
    push_payload(line, segment)
}

// Appends how many payload bytes there are, and the number of the first.
fn push_payload(line: &mut Vec<u8>, segment: &Segment) -> Result<(), OutOfMemory>
    ensures { IfOk result (λ _. line.new.items ≡ line.old.items ++ payload_text segment.now) }
{
    let first = first_number(segment);
    push_field(line, " len ", segment.payload.len() as u64)?;
    push_field(line, " first ", u64::from(first.0))
}

// Appends the ports and both numbers.
fn push_ends(line: &mut Vec<u8>, segment: &Segment) -> Result<(), OutOfMemory>
    ensures { IfOk result (λ _. line.new.items ≡ line.old.items ++ ends_text segment.now) }
{
    push_field(line, "src ", u64::from(segment.src))?;
    push_field(line, " dst ", u64::from(segment.dst))?;
    push_field(line, " seq ", u64::from(segment.seq.0))?;
    push_field(line, " ack ", u64::from(segment.ack.0))
}

// Appends a number after its name.
fn push_field(line: &mut Vec<u8>, name: &str, number: u64) -> Result<(), OutOfMemory>
    ensures { IfOk result (λ _. line.new.items ≡ line.old.items ++ (name.now ++ decimal number)) }
{
    push_word(line, name)?;
    push_number(line, number)
}

// Appends the flags that are set after their name, or a dash if none is.
fn push_flags(line: &mut Vec<u8>, segment: &Segment) -> Result<(), OutOfMemory>
    ensures { IfOk result (λ _. line.new.items ≡ line.old.items ++ (codes " flags " ++ flags_text segment.now.flags)) }
{
    push_word(line, " flags ")?;
    if segment.flags == 0 {
        return push_word(line, "-");
    }
    push_upper(line, segment)?;
    push_lower(line, segment)
}

// Appends the letters of the upper four flags.
fn push_upper(line: &mut Vec<u8>, segment: &Segment) -> Result<(), OutOfMemory>
    ensures { IfOk result (λ _. line.new.items ≡ line.old.items ++ upper_letters segment.now.flags) }
{
    push_letter(line, segment, Flag::Cwr)?;
    push_letter(line, segment, Flag::Ece)?;
    push_letter(line, segment, Flag::Urg)?;
    push_letter(line, segment, Flag::Ack)
}

// Appends the letters of the lower four flags.
fn push_lower(line: &mut Vec<u8>, segment: &Segment) -> Result<(), OutOfMemory>
    ensures { IfOk result (λ _. line.new.items ≡ line.old.items ++ lower_letters segment.now.flags) }
{
    push_letter(line, segment, Flag::Psh)?;
    push_letter(line, segment, Flag::Rst)?;
    push_letter(line, segment, Flag::Syn)?;
    push_letter(line, segment, Flag::Fin)
}

// Appends a flag's letter, if it is set.
fn push_letter(line: &mut Vec<u8>, segment: &Segment, flag: Flag) -> Result<(), OutOfMemory>
    ensures { IfOk result (λ _. line.new.items ≡ line.old.items ++ letter_in segment.now.flags flag) }
{
    if segment.has(flag) {
        push_word(line, letter(flag))?;
    }
    Ok(())
}

// A flag's letter.
fn letter(flag: Flag) -> &'static str
    ensures { result.now ≡ letter_of flag }
{
    match flag {
        Flag::Cwr => "C",
        Flag::Ece => "E",
        Flag::Urg => "U",
        Flag::Ack => "A",
        Flag::Psh => "P",
        Flag::Rst => "R",
        Flag::Syn => "S",
        Flag::Fin => "F",
    }
}

// Appends an MSS after its name, or a dash if there is none.
fn push_mss(line: &mut Vec<u8>, mss: Option<u16>) -> Result<(), OutOfMemory>
    ensures { IfOk result (λ _. line.new.items ≡ line.old.items ++ (codes " mss " ++ mss_text mss)) }
{
    push_word(line, " mss ")?;
    match mss {
        Some(mss) => push_number(line, u64::from(mss)),
        None => push_word(line, "-"),
    }
}

// The number of the first payload byte, which follows a SYN.
fn first_number(segment: &Segment) -> Word
    ensures { result ≡ first_number segment.now }
{
    if segment.has(Flag::Syn) {
        number(segment.seq, 1)
    } else {
        segment.seq
    }
}
