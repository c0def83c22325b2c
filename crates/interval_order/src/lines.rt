//! When a line is to be offered, and the verdict if one is left over.

ghost use Rattle.std.specs.Prelude.{◌≡◌, nat_le};

use case_forms::Line;
use verdict::{Rule, Verdict};

/// Whether a line's moment is reached: from then on, the line is offered, and a step may use it.
#[inline(always)]
pub fn is_reached(line: &Line, moment: u64) -> bool
    ensures { result ≡ nat_le line.now.moment moment }
{
    line.moment <= moment
}

/// The verdict if no step breaks a rule, but a line is not placed. The number is that of the first such line.
pub fn left_over(number: u64) -> Verdict
    ensures { result ≡ Verdict.No 0 number Rule.Unplaced }
{
    Verdict::No {
        witness_line: 0,
        trace_line: number,
        rule: Rule::Unplaced,
    }
}
