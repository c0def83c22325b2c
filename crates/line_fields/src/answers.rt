//! The answers of calls.

ghost use Rattle.std.specs.Prelude.{◌≡◌, ◌≤◌, [], ◌∷◌, length, IfSome, Ok};
ghost use Rattle.line_fields.specs.Reading.{Gives};
ghost use Rattle.line_fields.specs.Choice.{kind_named, kind_field};
ghost use Rattle.line_fields.specs.Reader.{IsLastReader};
ghost use Rattle.line_fields.specs.Answers.{answer_name, all_answer_words, IsSpelledAnswer};
ghost use Rattle.line_fields.specs.AnswerFields.{answer_field};
ghost use Rattle.line_fields.specs.FirstField.{fields_of};
ghost use Rattle.hex.specs.Hex.{decode_of};
ghost use Rattle.std.specs.Fmt.{decimal};

use crate::digits::hex_bytes;
use crate::fault::{FaultKind, TextFault};
use crate::fields::{Fields, is_text};
use crate::first_field::plain_number;
use crate::states::state;
use case_forms::Answer;
use segment::Bytes;
use std::alloc::Global;

// The greatest count of bytes of one answer.
const MAX_DATA: usize = 65_535;

// The greatest number of an answer.
const MAX_COUNT: u64 = 4_294_967_295;

/// The first word of an answer.
#[derive(Clone, Copy)]
pub enum AnswerWord {
    Done,
    Data,
    Again,
    Eof,
    Closed,
    NotConn,
    Refused,
    Reset,
    Timeout,
    InUse,
    BadSocket,
    State,
}

/// The answer's first word with this spelling.
pub fn answer_word_named(text: &[u8]) -> Option<AnswerWord>
    ensures { result ≡ kind_named answer_name all_answer_words text.now }
{
    if is_text(text, "ok") {
        Some(AnswerWord::Done)
    } else if is_text(text, "data") {
        Some(AnswerWord::Data)
    } else if is_text(text, "again") {
        Some(AnswerWord::Again)
    } else if is_text(text, "eof") {
        Some(AnswerWord::Eof)
    } else if is_text(text, "closed") {
        Some(AnswerWord::Closed)
    } else if is_text(text, "notconn") {
        Some(AnswerWord::NotConn)
    } else if is_text(text, "refused") {
        Some(AnswerWord::Refused)
    } else if is_text(text, "reset") {
        Some(AnswerWord::Reset)
    } else if is_text(text, "timeout") {
        Some(AnswerWord::Timeout)
    } else if is_text(text, "inuse") {
        Some(AnswerWord::InUse)
    } else if is_text(text, "badsocket") {
        Some(AnswerWord::BadSocket)
    } else if is_text(text, "state") {
        Some(AnswerWord::State)
    } else {
        None
    }
}

// The next field, which is the first word of an answer.
fn answer_word(fields: &mut Fields) -> Result<AnswerWord, TextFault>
    ensures { Gives (λ word. (word, fields.new)) result (kind_field answer_name all_answer_words fields.old) }
{
    let name = fields.next()?;
    match answer_word_named(name.text) {
        Some(word) => Ok(word),
        None => Err(name.fault(FaultKind::Field)),
    }
}

/// An answer, which is the last part of its line, since a number may follow `ok`. The error is the first fault.
#[tactic(auto, unfolding(crate::specs::AnswerFields::answer_field))]
pub fn answer(alloc: Global, fields: &mut Fields) -> Result<Answer, TextFault>
    ensures { Gives (λ answer. (answer, fields.new)) result (answer_field fields.old) }
{
    match answer_word(fields)? {
        AnswerWord::Done => {
            if fields.is_empty() {
                return Ok(Answer::Done);
            }
            Ok(Answer::Given(fields.number32()?))
        }
        AnswerWord::Data => Ok(Answer::Bytes(fields.hex(alloc, MAX_DATA)?)),
        AnswerWord::State => Ok(Answer::State(state(fields)?)),
        AnswerWord::Again => Ok(Answer::Again),
        AnswerWord::Eof => Ok(Answer::Eof),
        AnswerWord::Closed => Ok(Answer::Closed),
        AnswerWord::NotConn => Ok(Answer::NotConn),
        AnswerWord::Refused => Ok(Answer::Refused),
        AnswerWord::Reset => Ok(Answer::Reset),
        AnswerWord::Timeout => Ok(Answer::Timeout),
        AnswerWord::InUse => Ok(Answer::InUse),
        AnswerWord::BadSocket => Ok(Answer::BadSocket),
    }
}

/// The answer that these bytes, the last of their line, spell as it is usually written. `None` for any other bytes, or
/// if memory runs out.
#[inline(always)]
pub fn plain_answer(alloc: Global, text: &[u8]) -> Option<Answer>
    ensures { IfSome result (λ answer. IsSpelledAnswer answer (fields_of text.now)) }
{
    if let [b'o', b'k', b' ', count @ ..] = text {
        return Some(Answer::Given(last_count(count)?));
    }
    if let [b'd', b'a', b't', b'a', b' ', digits @ ..] = text {
        return Some(Answer::Bytes(last_bytes(alloc, digits)?));
    }
    plain_word(text)
}

// The answer that is this one word.
#[inline(always)]
fn plain_word(text: &[u8]) -> Option<Answer>
    ensures { IfSome result (λ answer. IsSpelledAnswer answer (fields_of text.now)) }
{
    match text {
        b"ok" => Some(Answer::Done),
        b"again" => Some(Answer::Again),
        b"eof" => Some(Answer::Eof),
        b"closed" => Some(Answer::Closed),
        b"badsocket" => Some(Answer::BadSocket),
        _ => None,
    }
}

// The count that these bytes, the last of their line, spell.
fn last_count(text: &[u8]) -> Option<u32>
    ensures value { IfSome result (λ n. text.now ≡ decimal n) }
    ensures alone { IfSome result (λ n. fields_of text.now ≡ text.now ∷ []) }
{
    let (value, len) = plain_number(text);
    if len == 0 || len < text.len() || value > MAX_COUNT {
        return None;
    }
    Some(value as u32)
}

// The bytes that these digits, the last bytes of their line, spell.
#[tactic(auto, using(crate::proofs::LastFields::hex_alone))]
#[inline(always)]
fn last_bytes(alloc: Global, digits: &[u8]) -> Option<Bytes>
    ensures value { IfSome result (λ bytes. decode_of digits.now ≡ Ok bytes) }
    ensures count { IfSome result (λ bytes. (1 ≤ length bytes) × (length bytes ≤ 65535)) }
    ensures alone { IfSome result (λ bytes. fields_of digits.now ≡ digits.now ∷ []) }
{
    let bytes = hex_bytes(alloc, digits).ok()??;
    if bytes.is_empty() || bytes.len() > MAX_DATA {
        return None;
    }
    Some(Bytes::from(bytes))
}

/// What is read as an answer is spelled so, and what is spelled so is read.
pub fn answer_law()
    ensures { IsLastReader answer_field IsSpelledAnswer }
{}
