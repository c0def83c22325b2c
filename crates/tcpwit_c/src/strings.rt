//! Text in memory that C gives.

ghost use Rattle.std.specs.Prelude.{◌≡◌, ◌≢◌, ◌<◌, ◌⊎◌, List, [], Result, length};
ghost use Rattle.verdict.specs.declared.rule.Rule.{Rule};
ghost use Rattle.verdict.specs.declared.report.Verdict.{Verdict};
ghost use Rattle.verdict.specs.Rules.{rule_name};
ghost use Rattle.checker.specs.declared.case.CaseFault.{CaseFault};
ghost use Rattle.spec_tcp_laws.specs.Ascending.{rule_number};
ghost use Rattle.answers.specs.Output.{line_of};
ghost use Rattle.c_answers.specs.Answers.{answer_of};
ghost use Rattle.c_answers.specs.Strings.{Writes};

use c_answers::{Answer, write_answer_line, write_rule_name};
use std::alloc::Global;

/// Writes the name of the rule with this number as a C string, as much of it as fits, and returns how many bytes it
/// has without the zero at its end. A number that no rule has gives an empty string.
#[unsafe(no_mangle)]
pub extern "C" fn tcpwit_rule_name(rule: u32, name: &mut [u8]) -> usize
    ensures name { (r : Rule) → rule ≡ rule_number r → Writes (rule_name r) name.old name.new result }
    ensures none { (rule ≡ 0) ⊎ (57 < rule) → Writes [] name.old name.new result }
{
    write_rule_name(rule, name)
}

/// Writes the line that `tcpwit check` prints for an answer as a C string, as much of it as fits, and returns how many
/// bytes it has without the zero at its end. Numbers that no answer has give an empty string, and so does running out
/// of memory.
#[unsafe(no_mangle)]
pub extern "C" fn tcpwit_answer_line(alloc: Global, answer: &Answer, line: &mut [u8]) -> usize
    ensures line { (r : Result Verdict CaseFault) → answer.now ≡ answer_of r
        → Writes [] line.old line.new result ⊎ Writes (line_of r) line.old line.new result }
    ensures none { ((r : Result Verdict CaseFault) → answer.now ≢ answer_of r) → Writes [] line.old line.new result }
{
    write_answer_line(alloc, answer, line)
}
