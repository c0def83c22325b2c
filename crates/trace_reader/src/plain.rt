//! Event lines as they are usually written, read without a fault to return. The bytes of an event are still digits
//! then. Any other line is read by `event_line`, which tells what is wrong with it.

ghost use Rattle.std.specs.Prelude.{◌≡◌, ◌≤◌, ℕ, List, IfSome, Some, Ok, false, length};
ghost use Rattle.hex.specs.Hex.{decode_of};
ghost use Rattle.case_forms.specs.declared.version.Version.{Version};
ghost use Rattle.line_fields.specs.Answers.{answer_name, all_answer_words};
ghost use Rattle.line_fields.specs.Choice.{kind_named};
ghost use Rattle.line_fields.specs.HexFields.{EndsInHex};
ghost use Rattle.case_lines.specs.Records.{event_of, has_bytes, line_of as kept_line};
ghost use Rattle.case_lines.specs.Spelled.{IsSpelled};
ghost use Rattle.trace_reader.specs.Calls.{call_name, all_call_words};
ghost use Rattle.trace_reader.specs.EventFields.{event_behind, event_field};
ghost use Rattle.trace_reader.specs.EventLines.{line_of};
ghost use Rattle.trace_reader.specs.Plain.{begun_behind, ended_behind, IsRead};
ghost use Rattle.trace_reader.specs.declared.events.Letter.TheVariants as letters;

use crate::calls::{CallWord, call_word_named};
use case_forms::{GREATEST_MOMENT, Version};
use case_lines::{KeptEvent, Record};
use line_fields::{AnswerWord, Fields, answer_word_named, checked_fields, state_named};

// The number of the last line that a text may have.
const MAX_LINES: u64 = 10_000_000;

// The greatest 32-bit number: a thread or a socket number.
const MAX_NUMBER: u64 = 4_294_967_295;

// The greatest count of bytes that one `recv` may request.
const MAX_RECV: u64 = 65_535;

// The greatest count of digits of the bytes of a call or an answer.
const MAX_DIGITS: usize = 131_070;

/// An event line whose bytes are still digits in hex.
#[derive(Clone, Copy)]
pub(crate) struct PlainLine<'a> {
    pub(crate) record: Record,
    /// The digits of the event's bytes; any if an event of its kind has none.
    pub(crate) digits: &'a [u8],
}

// An event whose bytes are still digits in hex.
#[derive(Clone, Copy)]
struct PlainEvent<'a> {
    event: KeptEvent,
    digits: &'a [u8],
}

// The digits of bytes that end the line, at most so many digits.
#[inline(always)]
fn digits_within<'a>(fields: &Fields<'a>, most: usize) -> Option<&'a [u8]>
    ensures ends { IfSome result (λ digits. (bytes : List ℕ) → decode_of digits.now ≡ Ok bytes
        → EndsInHex bytes fields.now) }
    ensures most { IfSome result (λ digits. length digits.now ≤ most) }
{
    let digits = fields.last_digits()?;
    if digits.len() > most {
        return None;
    }
    Some(digits)
}

// The first word of a call; the usual ones are told first.
#[inline(always)]
fn plain_call_word(text: &[u8]) -> Option<CallWord>
    ensures { IfSome result (λ word. kind_named call_name all_call_words text.now ≡ Some word) }
{
    match text {
        b"send" => Some(CallWord::Send),
        b"recv" => Some(CallWord::Recv),
        b"shut" => Some(CallWord::Shut),
        _ => call_word_named(text),
    }
}

// The first word of an answer; the usual ones are told first.
#[inline(always)]
fn plain_answer_word(text: &[u8]) -> Option<AnswerWord>
    ensures { IfSome result (λ word. kind_named answer_name all_answer_words text.now ≡ Some word) }
{
    match text {
        b"ok" => Some(AnswerWord::Done),
        b"data" => Some(AnswerWord::Data),
        b"again" => Some(AnswerWord::Again),
        b"eof" => Some(AnswerWord::Eof),
        _ => answer_word_named(text),
    }
}

// What follows the first word of a call without bytes.
#[tactic(auto, unfolding(crate::specs::CallFields::recv_fields, case_lines::specs::Records::event_of))]
#[inline(always)]
fn plain_call_behind(version: Version, word: CallWord, fields: &mut Fields) -> Option<KeptEvent>
    ensures read { IfSome result (λ event. (bytes : List ℕ) →
        begun_behind version word fields.old ≡ Ok (event_of event bytes, fields.new)) }
    ensures none { IfSome result (λ event. has_bytes event ≡ false) }
{
    match word {
        CallWord::Recv => {
            let socket = fields.plain_small(0, MAX_NUMBER)? as u32;
            let most = fields.plain_number(1, MAX_RECV)? as u16;
            Some(KeptEvent::Recv(most, socket))
        }
        CallWord::Await => Some(KeptEvent::Await(fields.plain_small(0, MAX_NUMBER)? as u32)),
        CallWord::Accept => Some(KeptEvent::Accept(fields.plain_small(0, MAX_NUMBER)? as u32)),
        CallWord::Shut => Some(KeptEvent::Shut(fields.plain_small(0, MAX_NUMBER)? as u32)),
        CallWord::Close => Some(KeptEvent::Close(fields.plain_small(0, MAX_NUMBER)? as u32)),
        CallWord::Abort => Some(KeptEvent::Abort(fields.plain_small(0, MAX_NUMBER)? as u32)),
        CallWord::Status => Some(KeptEvent::Status(fields.plain_small(0, MAX_NUMBER)? as u32)),
        CallWord::Listen | CallWord::Open | CallWord::Send => None,
    }
}

// A call, which is the last part of its line.
#[inline(always)]
fn plain_call<'a>(version: Version, fields: &mut Fields<'a>) -> Option<PlainEvent<'a>>
    ensures { IfSome result (λ p. IsRead (event_behind version letters.B fields.old) p.event p.digits.now) }
{
    let word = plain_call_word(fields.plain_word()?)?;
    if let CallWord::Send = word {
        let socket = fields.plain_small(0, MAX_NUMBER)? as u32;
        let digits = digits_within(fields, MAX_DIGITS)?;
        let event = KeptEvent::Send(socket);
        return Some(PlainEvent { event, digits });
    }
    let event = plain_call_behind(version, word, fields)?;
    if !fields.is_empty() {
        return None;
    }
    Some(PlainEvent { event, digits: &[] })
}

// What follows the first word of an answer without bytes.
#[tactic(auto, unfolding(case_lines::specs::Records::event_of))]
#[inline(always)]
fn plain_answer_behind(word: AnswerWord, fields: &mut Fields) -> Option<KeptEvent>
    ensures read { IfSome result (λ event. (bytes : List ℕ) →
        ended_behind word fields.old ≡ Ok (event_of event bytes, fields.new)) }
    ensures none { IfSome result (λ event. has_bytes event ≡ false) }
{
    match word {
        AnswerWord::Done => {
            if fields.is_empty() {
                return Some(KeptEvent::Done);
            }
            Some(KeptEvent::Given(fields.plain_small(0, MAX_NUMBER)? as u32))
        }
        AnswerWord::State => Some(KeptEvent::State(state_named(fields.plain_word()?)?)),
        AnswerWord::Data => None,
        AnswerWord::Again => Some(KeptEvent::Again),
        AnswerWord::Eof => Some(KeptEvent::Eof),
        AnswerWord::Closed => Some(KeptEvent::Closed),
        AnswerWord::NotConn => Some(KeptEvent::NotConn),
        AnswerWord::Refused => Some(KeptEvent::Refused),
        AnswerWord::Reset => Some(KeptEvent::Reset),
        AnswerWord::Timeout => Some(KeptEvent::Timeout),
        AnswerWord::InUse => Some(KeptEvent::InUse),
        AnswerWord::BadSocket => Some(KeptEvent::BadSocket),
    }
}

// An answer, which is the last part of its line.
#[inline(always)]
fn plain_answer<'a>(fields: &mut Fields<'a>) -> Option<PlainEvent<'a>>
    ensures { IfSome result (λ p. (v : Version) → IsRead (event_behind v letters.E fields.old) p.event p.digits.now) }
{
    let word = plain_answer_word(fields.plain_word()?)?;
    if let AnswerWord::Data = word {
        let digits = digits_within(fields, MAX_DIGITS)?;
        let event = KeptEvent::Bytes;
        return Some(PlainEvent { event, digits });
    }
    let event = plain_answer_behind(word, fields)?;
    if !fields.is_empty() {
        return None;
    }
    Some(PlainEvent { event, digits: &[] })
}

// A segment that was sent.
#[inline(always)]
fn plain_sent<'a>(version: Version, fields: &mut Fields<'a>) -> Option<PlainEvent<'a>>
    ensures { IfSome result (λ p. IsRead (event_behind version letters.O fields.old) p.event p.digits.now) }
{
    let event = KeptEvent::Sent(fields.plain_host(version)?);
    let digits = fields.last_digits()?;
    Some(PlainEvent { event, digits })
}

// A segment that arrived.
#[inline(always)]
fn plain_came<'a>(version: Version, fields: &mut Fields<'a>) -> Option<PlainEvent<'a>>
    ensures { IfSome result (λ p. IsRead (event_behind version letters.I fields.old) p.event p.digits.now) }
{
    let event = KeptEvent::Came(fields.plain_host(version)?);
    let digits = fields.last_digits()?;
    Some(PlainEvent { event, digits })
}

// An event, which is the last part of its line.
#[inline(always)]
fn plain_event<'a>(version: Version, fields: &mut Fields<'a>) -> Option<PlainEvent<'a>>
    ensures { IfSome result (λ p. IsRead (event_field version fields.old) p.event p.digits.now) }
{
    if fields.plain_letter(b'B') {
        return plain_call(version, fields);
    }
    if fields.plain_letter(b'E') {
        return plain_answer(fields);
    }
    if fields.plain_letter(b'O') {
        return plain_sent(version, fields);
    }
    if fields.plain_letter(b'I') {
        return plain_came(version, fields);
    }
    None
}

/// The event line with that number, if it is written as usual and its event is no timeout. Whether the digits spell
/// bytes, and a segment if it is one, isn't known yet.
#[inline(always)]
pub(crate) fn plain_line(
    version: Version,
    before: u64,
    number: u64,
    raw: &[u8],
) -> Option<PlainLine<'_>>
    ensures few { IfSome result (λ p. number ≤ 10000000) }
    ensures line { IfSome result (λ p. (bytes : List ℕ) → IsSpelled p.record.event p.digits.now bytes
        → line_of version (before, number) raw.now ≡ Ok (kept_line number p.record bytes)) }
{
    if number > MAX_LINES {
        return None;
    }
    let Ok(mut fields) = checked_fields(number, raw) else {
        return None;
    };
    let stop = u32::try_from(fields.stop()).ok()?;
    let moment = fields.plain_rising(before, GREATEST_MOMENT)?;
    let thread = fields.plain_small(0, MAX_NUMBER)? as u32;
    let read = plain_event(version, &mut fields)?;
    let record = Record {
        moment,
        thread,
        stop,
        event: read.event,
    };
    Some(PlainLine {
        record,
        digits: read.digits,
    })
}
