//! How calls end.

ghost use Rattle.std.specs.Prelude.{◌≡◌, Some};
ghost use Rattle.case_forms.specs.declared.calls.Answer.TheVariants as answers;
ghost use Rattle.case_forms.specs.declared.steps.Label.TheVariants as labels;
ghost use Rattle.case_forms.specs.declared.taken_line.TakenLine.TheVariants as lines;

use case_forms::{Answer, Label, TakenLine};

/// The answer of a call on a number that is none of its host's sockets. It doesn't wait.
#[inline]
pub fn on_no_socket() -> Option<Answer>
    ensures { result ≡ Some answers.BadSocket }
{
    Some(Answer::BadSocket)
}

/// The step in which a thread's call ends with this answer, which takes the line of this number.
#[inline]
pub fn call_end(line: u64, thread: u32, answer: Answer) -> Label<TakenLine>
    ensures { result ≡ labels.L (lines.CallEnd line thread answer) }
{
    Label::L(TakenLine::CallEnd {
        line,
        thread,
        answer,
    })
}
