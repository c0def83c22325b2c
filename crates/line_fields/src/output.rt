//! Words, numbers and answers, appended to a `Vec` as bytes. If memory runs out, a part may have been written.

ghost use Rattle.std.specs.Prelude.{◌≡◌, [], ◌∷◌, ◌++◌, OnOk};
ghost use Rattle.std.specs.Fmt.{decimal};
ghost use Rattle.line_fields.specs.Hosts.{host_number};
ghost use Rattle.hex.specs.Hex.{encode_lower};
ghost use Rattle.line_fields.specs.Spelling.{printed_behind};
ghost use Rattle.line_fields.specs.Answers.{answer_pieces};

use crate::hex_digits::write_digits;
use crate::hosts::host_number;
use crate::states::state_name;
use case_forms::{Answer, Host, OutOfMemory};
use itoa::Buffer;

/// Writes a word.
pub fn push_word(out: &mut Vec<u8>, word: &str) -> Result<(), OutOfMemory>
    ensures { OnOk result (out.new.items ≡ out.old.items ++ word.now) }
{
    out.extend_from_slice(word.as_bytes())
}

/// Writes a decimal number.
pub fn push_number(out: &mut Vec<u8>, number: u64) -> Result<(), OutOfMemory>
    ensures { OnOk result (out.new.items ≡ out.old.items ++ decimal number) }
{
    let mut digits = Buffer::new();
    out.extend_from_slice(digits.format(number).as_bytes())
}

/// Writes a space.
pub fn push_space(out: &mut Vec<u8>) -> Result<(), OutOfMemory>
    ensures { OnOk result (out.new.items ≡ out.old.items ++ 32 ∷ []) }
{
    out.push(b' ')?;
    Ok(())
}

/// Writes the number of a host.
pub fn push_host(out: &mut Vec<u8>, host: Host) -> Result<(), OutOfMemory>
    ensures { OnOk result (out.new.items ≡ out.old.items ++ decimal (host_number host)) }
{
    push_number(out, host_number(host))
}

/// Writes bytes as hex digits, in lower case.
pub fn push_hex(out: &mut Vec<u8>, bytes: &[u8]) -> Result<(), OutOfMemory>
    ensures { OnOk result (out.new.items ≡ out.old.items ++ encode_lower bytes.now) }
{
    let len = out.len();
    out.reserve(2 * bytes.len())?;
    out.resize(len + 2 * bytes.len(), 0)?;
    let (_before, digits) = out.as_mut_slice().split_at_mut(len);
    write_digits(bytes, digits);
    Ok(())
}

/// Writes the end of a line, which is LF.
pub fn push_end(out: &mut Vec<u8>) -> Result<(), OutOfMemory>
    ensures { OnOk result (out.new.items ≡ out.old.items ++ 10 ∷ []) }
{
    out.push(b'\n')?;
    Ok(())
}

/// Writes a text as a line.
pub fn push_line(out: &mut Vec<u8>, text: &str) -> Result<(), OutOfMemory>
    ensures { OnOk result (out.new.items ≡ out.old.items ++ (text.now ++ 10 ∷ [])) }
{
    push_word(out, text)?;
    push_end(out)
}

/// Writes the fields of an answer, each after a space.
pub fn push_answer(out: &mut Vec<u8>, answer: &Answer) -> Result<(), OutOfMemory>
    ensures { OnOk result (out.new.items ≡ out.old.items ++ printed_behind (answer_pieces answer.now)) }
{
    match answer {
        Answer::Done => push_word(out, " ok"),
        Answer::Given(count) => {
            push_word(out, " ok ")?;
            push_number(out, u64::from(*count))
        }
        Answer::Bytes(bytes) => {
            push_word(out, " data ")?;
            push_hex(out, bytes.as_slice())
        }
        Answer::State(state) => {
            push_word(out, " state ")?;
            push_word(out, state_name(*state))
        }
        Answer::Again => push_word(out, " again"),
        Answer::Eof => push_word(out, " eof"),
        Answer::Closed => push_word(out, " closed"),
        Answer::NotConn => push_word(out, " notconn"),
        Answer::Refused => push_word(out, " refused"),
        Answer::Reset => push_word(out, " reset"),
        Answer::Timeout => push_word(out, " timeout"),
        Answer::InUse => push_word(out, " inuse"),
        Answer::BadSocket => push_word(out, " badsocket"),
    }
}
