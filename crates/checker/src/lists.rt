//! A case in lists: a trace and a witness that are in memory.
//!
//! All lines are copied into the window at the start, so its memory grows with the trace. Of the steps, one copy is
//! kept. A step takes time logarithmic in the number of lines that wait.

ghost use Rattle.std.specs.Prelude.{◌≡◌, ◌<◌, [], length, IfOk};
ghost use Rattle.std.specs.List.{All};
ghost use Rattle.case_forms.specs.Traces.{first_event_line, IsRecorded, IsTrace};
ghost use Rattle.case_forms.specs.Witnesses.{IsWithinLimits, IsWitness};
ghost use Rattle.interval_order.specs.Orders.{order_of};
ghost use Rattle.spec_cases.specs.Cases.{first_known};
ghost use Rattle.checker.specs.Verdicts.{verdict, verdict_from};
ghost use Rattle.checker.specs.Meaning.{Means};

use crate::ahead::Ahead;
use crate::laws::verdict_means;
use crate::steps::ListedSteps;
use crate::verdicts::judge_in;
use case_forms::{Header, Line, OutOfMemory, Step, Trace, Witness};
use interval_order::Window;
use std::alloc::{AllocError, Global};
use verdict::Verdict;
use watched::Case;

/// The verdict on a witness for a trace of its version, if both have texts.
///
/// Yes, with the counts of lines and of hidden steps, exactly if the steps explain the trace. Else no, at the first
/// step that breaks a rule, with the least rule that it breaks; or, if none does, with the first line left over.
pub fn check(alloc: Global, trace: &Trace, witness: &Witness) -> Result<Verdict, OutOfMemory>
    requires trace { IsTrace trace.now }
    requires witness { IsWitness witness.now }
    requires versions { trace.now.header.version ≡ witness.now.version }

    // The verdict is that of the definition.
    ensures exact { IfOk result (λ v. v ≡ verdict trace.now witness.now) }

    // What it says of lines and steps, and what follows from a yes.
    ensures means { IfOk result (Means trace.now witness.now) }
{
    verdict_means();
    judge_lists(
        alloc,
        &trace.header,
        trace.lines.as_slice(),
        witness.steps.as_slice(),
    )
}

// The verdict on these steps for these lines.
fn judge_lists(
    alloc: Global,
    header: &Header,
    lines: &[Line],
    steps: &[Step],
) -> Result<Verdict, OutOfMemory>
    requires lines { IsRecorded (first_event_line header.now) 0 lines.now }
    requires few { length steps.now < 10000000 }
    requires within { All (λ s. IsWithinLimits s.label) steps.now }
    ensures { IfOk result (λ v. v ≡ verdict_from header.now lines.now [] (first_known header.now) steps.now) }
{
    let mut window = offer_all(alloc, header, lines)?;
    let mut world = Case::start(alloc, header);
    let mut left = Ahead::at_end(alloc, header);
    let mut steps = ListedSteps { steps };
    let answer = judge_in(alloc, &mut window, &mut world, &mut left, &mut steps);
    drop(left);
    drop(world);
    drop(window);
    match answer {
        Ok(verdict) => Ok(verdict),
        // Lists have no fault, so memory ran out.
        Err(_) => Err(AllocError),
    }
}

// A window to which all these lines were offered.
fn offer_all(alloc: Global, header: &Header, lines: &[Line]) -> Result<Window, OutOfMemory>
    requires { IsRecorded (first_event_line header.now) 0 lines.now }
    ensures { IfOk result (λ window. window ≡ order_of header.now lines.now []) }
{
    let mut window = Window::new(alloc, header);
    for line in lines {
        let copied = line.copy()?;
        window.offer(copied)?;
    }
    Ok(window)
}
