//! Text in memory that C gives.

ghost use Rattle.std.specs.Prelude.{◌≡◌, ◌≢◌, ◌<◌, ◌⊎◌, List, [], Result, length};
ghost use Rattle.verdict.specs.declared.rule.Rule.{Rule};
ghost use Rattle.verdict.specs.declared.report.Verdict.{Verdict};
ghost use Rattle.verdict.specs.Rules.{rule_name};
ghost use Rattle.checker.specs.declared.case.CaseFault.{CaseFault};
ghost use Rattle.spec_tcp_laws.specs.Ascending.{rule_number};
ghost use Rattle.answers.specs.Output.{line_of};
ghost use Rattle.c_answers.specs.Answers.{answer_of};
ghost use Rattle.c_answers.specs.Strings.{Writes};

use crate::answer::Answer;
use crate::numbers::{result_of, rule_numbered};
use answers::line_of;
use std::alloc::Global;

/// Writes the name of the rule with this number as a C string, as much of it as fits, and returns how many bytes it
/// has without the zero at its end. A number that no rule has gives an empty string.
pub fn write_rule_name(rule: u32, name: &mut [u8]) -> usize
    ensures name { (r : Rule) → rule ≡ rule_number r → Writes (rule_name r) name.old name.new result }
    ensures none { (rule ≡ 0) ⊎ (57 < rule) → Writes [] name.old name.new result }
{
    match rule_numbered(rule) {
        Some(rule) => write_string(rule.name().as_bytes(), name),
        None => write_string(b"", name),
    }
}

/// Writes the line that `tcpwit check` prints for an answer as a C string, as much of it as fits, and returns how many
/// bytes it has without the zero at its end. Numbers that no answer has give an empty string, and so does running out
/// of memory.
pub fn write_answer_line(alloc: Global, answer: &Answer, line: &mut [u8]) -> usize
    ensures line { (r : Result Verdict CaseFault) → answer.now ≡ answer_of r
        → Writes [] line.old line.new result ⊎ Writes (line_of r) line.old line.new result }
    ensures none { ((r : Result Verdict CaseFault) → answer.now ≢ answer_of r) → Writes [] line.old line.new result }
{
    let Some(given) = result_of(answer) else {
        return write_string(b"", line);
    };
    match line_of(alloc, &given) {
        Ok(text) => write_string(text.as_slice(), line),
        Err(_) => write_string(b"", line),
    }
}

// Writes a text as a C string, as much of it as fits, and returns how many bytes it has.
fn write_string(text: &[u8], to: &mut [u8]) -> usize
    ensures { Writes text.now to.old to.new result }
{
    if let Some(room) = to.len().checked_sub(1) {
        let count = text.len().min(room);
        to[..count].copy_from_slice(&text[..count]);
        to[count] = 0;
    }
    text.len()
}
