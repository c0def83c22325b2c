//! The printer of a header.

ghost use Rattle.std.specs.Prelude.{◌≡◌, ◌∷◌, [], ◌++◌, OnOk, map};
ghost use Rattle.std.specs.List.{concat};
ghost use Rattle.std.specs.Fmt.{decimal};
ghost use Rattle.line_fields.specs.Spelling.{printed};
ghost use Rattle.trace_reader.specs.Headers.{control_words, growth_words, initial_number, judged_words};
ghost use Rattle.trace_reader.specs.Headers.{last_words, late_of, late_words, sender_words, slack_words};
ghost use Rattle.trace_reader.specs.Printed.{header_text};

use case_forms::{Header, Host, Initial, OutOfMemory, Version};
use case_lines::first_text;
use line_fields::{
    growth_name, host_number, judged_name, push_end, push_number, push_space, push_word,
    sender_name,
};

// Writes a name and a number as a line.
fn push_number_line(out: &mut Vec<u8>, name: &str, number: u64) -> Result<(), OutOfMemory>
    ensures { OnOk result (out.new.items ≡ out.old.items ++ printed (name.now ∷ decimal number ∷ [])) }
{
    push_word(out, name)?;
    push_space(out)?;
    push_number(out, number)?;
    push_end(out)
}

// Writes a name and a word as a line.
fn push_word_line(out: &mut Vec<u8>, name: &str, word: &str) -> Result<(), OutOfMemory>
    ensures { OnOk result (out.new.items ≡ out.old.items ++ printed (name.now ∷ word.now ∷ [])) }
{
    push_word(out, name)?;
    push_space(out)?;
    push_word(out, word)?;
    push_end(out)
}

// The number of the RFC that gives the first congestion window.
fn initial_number(initial: Initial) -> u64
    ensures { result ≡ initial_number initial }
{
    match initial {
        Initial::Rfc5681 => 5681,
        Initial::Rfc6928 => 6928,
    }
}

// Writes the line that says how late a host may be.
fn push_slack(out: &mut Vec<u8>, slack: Option<u64>) -> Result<(), OutOfMemory>
    ensures { OnOk result (out.new.items ≡ out.old.items ++ printed (slack_words slack)) }
{
    match slack {
        None => push_word_line(out, "slack", "any"),
        Some(slack) => push_number_line(out, "slack", slack),
    }
}

// Writes the lines that name the sender's congestion control, if the version has them.
fn push_control(out: &mut Vec<u8>, header: &Header) -> Result<(), OutOfMemory>
    ensures { OnOk result (out.new.items
        ≡ out.old.items ++ concat (map printed (control_words (late_of header.now)))) }
{
    if !header.version.says_sender() {
        return Ok(());
    }
    push_word_line(out, "sender", sender_name(header.sender))?;
    push_word_line(out, "growth", growth_name(header.growth))?;
    Ok(())
}

// Writes the lines that only versions 5 and 6 have.
fn push_last(out: &mut Vec<u8>, header: &Header) -> Result<(), OutOfMemory>
    ensures { OnOk result (out.new.items
        ≡ out.old.items ++ concat (map printed (last_words (late_of header.now)))) }
{
    if !header.version.says_slack() {
        return Ok(());
    }
    push_slack(out, header.slack)?;
    push_control(out, header)?;
    Ok(())
}

// Writes the lines of versions 4 to 6 after line 6.
fn push_judged(out: &mut Vec<u8>, hosts: u64, header: &Header) -> Result<(), OutOfMemory>
    ensures { OnOk result (out.new.items
        ≡ out.old.items ++ concat (map printed (judged_words hosts (late_of header.now)))) }
{
    push_number_line(out, "initial", initial_number(header.initial))?;
    push_number_line(out, "hosts", hosts)?;
    push_word_line(out, "congestion", judged_name(header.congestion))?;
    push_last(out, header)?;
    Ok(())
}

// Writes the lines that version 1 doesn't have: the RFC of the first congestion window; which hosts were recorded; how
// much of congestion control is judged; how late a host may be; and the sender's congestion control.
fn push_late(out: &mut Vec<u8>, header: &Header) -> Result<(), OutOfMemory>
    ensures { OnOk result (out.new.items
        ≡ out.old.items ++ concat (map printed (late_words (late_of header.now)))) }
{
    match header.version {
        Version::One => Ok(()),
        Version::Two => push_number_line(out, "initial", initial_number(header.initial)),
        Version::Three => {
            push_number_line(out, "initial", initial_number(header.initial))?;
            push_number_line(out, "half", host_number(Host::Zero))
        }
        Version::Four | Version::Five | Version::Six => push_judged(out, 2, header),
        Version::FourHalf | Version::FiveHalf | Version::SixHalf => push_judged(out, 1, header),
    }
}

/// Writes the header's lines.
pub(crate) fn push_header(out: &mut Vec<u8>, header: &Header) -> Result<(), OutOfMemory>
    ensures { OnOk result (out.new.items ≡ out.old.items ++ header_text header.now) }
{
    push_word(out, first_text(header.version))?;
    push_end(out)?;
    push_number_line(out, "skew", header.skew)?;
    push_number_line(out, "msl", header.msl)?;
    push_number_line(out, "grain", header.grain)?;
    push_number_line(out, "minrto", header.minrto)?;
    push_number_line(out, "extra", u64::from(header.extra))?;
    push_late(out, header)?;
    Ok(())
}
