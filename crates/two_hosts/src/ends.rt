//! Whether a trace shows that all rounds ended. The trace is asked since no contract says which answers a thread gets.

ghost use Rattle.std.specs.Prelude.{◌≡◌, ◌==◌};
ghost use Rattle.two_hosts.specs.Ends.{amount, has_ended, line_amount, told};

use crate::plan::{CLIENT_THREAD, ROUND_BYTES, SERVER_THREAD};
use case_forms::{Answer, Event, Line};

// The sums over answers.
#[derive(Clone, Copy)]
enum Measure {
    // The bytes that reads returned.
    Bytes,
    // How often `ok` was answered.
    Dones,
    // How often a read returned the end of the stream.
    Eofs,
}

// What an answer adds.
fn amount(measure: Measure, answer: &Answer) -> u64
    ensures { result ≡ amount measure answer.now }
{
    match (measure, answer) {
        (Measure::Bytes, Answer::Bytes(bytes)) => bytes.len() as u64,
        (Measure::Dones, Answer::Done) | (Measure::Eofs, Answer::Eof) => 1,
        _ => 0,
    }
}

// What a line of the thread adds.
fn line_amount(measure: Measure, thread: u32, line: &Line) -> u64
    ensures { result ≡ line_amount measure thread line.now }
{
    if line.thread != thread {
        return 0;
    }
    match &line.event {
        Event::CallEnd(answer) => amount(measure, answer),
        _ => 0,
    }
}

// Whether the answers of a thread add up to these sums.
fn adds_up(measure: Measure, thread: u32, lines: &[Line], total: u64) -> bool
    ensures { result ≡ (told measure thread lines.now == total) }
{
    let mut left = total;
    let mut rest = lines;
    while let [line, behind @ ..] = rest {
        let more = line_amount(measure, thread, line);
        if left < more {
            return false;
        }
        left -= more;
        rest = behind;
    }
    left == 0
}

/// Whether the lines show that host 1 received all bytes of so many rounds and read the end, and that both applications
/// closed.
pub(crate) fn has_ended(lines: &[Line], rounds: u16) -> bool
    ensures { result ≡ has_ended rounds lines.now }
{
    let bytes = ROUND_BYTES as u64 * u64::from(rounds);
    adds_up(Measure::Bytes, SERVER_THREAD, lines, bytes)
        && adds_up(Measure::Eofs, SERVER_THREAD, lines, 1)
        && adds_up(Measure::Dones, SERVER_THREAD, lines, 1)
        && adds_up(Measure::Dones, CLIENT_THREAD, lines, 3)
}
