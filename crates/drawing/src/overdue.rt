//! What was due and is missing where a case is refused.

use crate::range::{Drawn, last_line};
use case_forms::{Host, OutOfMemory};
use replayed::{Case, Debtor, Refusal, Replay, ReplayFault};
use std::alloc::{AllocError, Global};
use verdict::Rule;

/// A duty that is late, and its place in the picture.
#[derive(Clone, Copy)]
pub(crate) struct Overdue {
    pub host: Host,
    /// By when it is due.
    pub due: u128,
    /// The last line whose moment isn't after the deadline. The mark has a row of its own below it.
    pub after: u64,
}

impl Overdue {
    /// What a debtor owes. None: there is none, or that line isn't drawn.
    pub(crate) fn new(debtor: Option<Debtor>, case: &Case, range: Drawn) -> Option<Overdue> {
        let Debtor { id, debt } = debtor?;
        let (host, due, after) = (id.host, debt.due, line_before(case, debt.due));
        range.has(after).then_some(Overdue { host, due, after })
    }
}

// The last line whose moment isn't after this one; that before the first line if there is none.
fn line_before(case: &Case, moment: u128) -> u64 {
    let lines = case.trace.lines.as_slice().iter();
    let after = lines.filter(|line| moment < u128::from(line.moment));
    last_line(case).saturating_sub(after.count() as u64)
}

/// The endpoint whose duty is late where a case is refused. None: another rule is broken.
pub(crate) fn debtor(alloc: Global, case: &Case) -> Result<Option<Debtor>, OutOfMemory> {
    if !is_owed(case.refusal()) {
        return Ok(None);
    }
    let mut replay = Replay::new(alloc, case);
    let found = run(&mut replay);
    drop(replay);
    match found {
        Ok(debtor) => Ok(debtor),
        // No case that can be read has so many.
        Err(ReplayFault::TooManySteps) => Ok(None),
        Err(ReplayFault::OutOfMemory) => Err(AllocError),
    }
}

fn run(replay: &mut Replay) -> Result<Option<Debtor>, ReplayFault> {
    replay.run()?;
    Ok(replay.debtor())
}

// Whether the rule is about what an endpoint owes.
fn is_owed(refusal: Refusal) -> bool {
    let (Refusal::At { rule, .. } | Refusal::Late { rule, .. }) = refusal else {
        return false;
    };
    matches!(
        rule,
        Rule::AckLate
            | Rule::ExpiryLate
            | Rule::ResendLate
            | Rule::ProbeLate
            | Rule::StartLate
            | Rule::ResetLate
    )
}
