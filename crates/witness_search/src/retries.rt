//! If a line can't be explained, other choices are tried before it, within a budget.
//!
//! Each attempt goes over all lines anew, so its result depends on the choices and ways alone, and the same budget
//! gives the same case. The host of the line is tried in other ways first, for the whole run. Then single candidates
//! are tried, the nearest to the line first. What explains a further line is kept. If no single one does, two are tried
//! at once. The budget begins anew whenever a further line is explained.

use crate::alternatives::{Known, push_candidates};
use crate::attempt::Attempt;
use crate::candidates::Candidates;
use crate::choices::Choices;
use crate::pass::Sought;
use crate::ways::Ways;
use case_forms::{Host, OutOfMemory};
use std::collections::BTreeMap;
use std::mem::swap;
use verdict::Rule;

// How many times candidates are listed for one line.
const LISTS: u32 = 3;

// How many candidates of a line are tried in pairs.
const PAIRED: usize = 40;

// How many looks at a line count as one step.
const LOOKS: u64 = 4;

// How many budgets are spent in all, at most.
const BUDGETS: u64 = 20;

// Choices that explain the lines before a place, and what can be chosen besides.
#[derive(Clone, Copy)]
struct Level {
    /// How many choices these are.
    chosen: usize,
    place: usize,
    /// The next candidate, and the first one of another level.
    next: usize,
    stop: usize,
}

// Whether a line that breaks a rule shows that its host didn't process what came.
fn shows_what_came(rule: Rule) -> bool {
    matches!(
        rule,
        Rule::BytesDiffer | Rule::CallAnswer | Rule::State | Rule::NoEndpoint
    )
}

/// A search that goes back.
#[derive(Drop)]
pub(crate) struct Retries<'t> {
    pub sought: Sought<'t>,
    budget: u64,
    /// The attempt that explains most, and its choices.
    pub best: Attempt,
    chosen: Choices,
    /// The last attempt, and its choices.
    last: Attempt,
    choices: Choices,
    /// The levels that led there, and the candidates of all of them.
    path: Vec<Level>,
    candidates: Candidates,
    /// The candidates that are tried in pairs, and the choices before these.
    pairs: Candidates,
    /// Of these, the ones that do something.
    effective: Vec<usize>,
    before_pairs: Choices,
    /// For the place of a line, how many times candidates were listed for it.
    listed: BTreeMap<usize, u32>,
    /// How many attempts followed the first one.
    pub tried: u64,
    /// How many steps they took.
    cost: u64,
    /// How many of these led to the best attempt.
    cost_of_best: u64,
    /// Whether hosts are tried in other ways.
    tries_ways: bool,
    /// The place of the last line whose host was tried in other ways. None: no host was.
    ways_place: Option<usize>,
}

impl<'t> Retries<'t> {
    /// A search that spends at most this many steps on going back for one line, and 20 times as many in all.
    /// `tries_ways`: it tries hosts in other ways.
    pub(crate) fn new(sought: Sought<'t>, budget: u64, tries_ways: bool) -> Retries<'t> {
        let alloc = sought.alloc;
        Retries {
            sought,
            budget,
            best: Attempt::new(alloc),
            chosen: Choices::new(alloc),
            last: Attempt::new(alloc),
            choices: Choices::new(alloc),
            path: Vec::new(alloc),
            candidates: Candidates::new(alloc),
            pairs: Candidates::new(alloc),
            effective: Vec::new(alloc),
            before_pairs: Choices::new(alloc),
            listed: BTreeMap::new(alloc),
            tried: 0,
            cost: 0,
            cost_of_best: 0,
            tries_ways,
            ways_place: None,
        }
    }

    /// Finds a witness, and goes back until every line is explained, the budget is spent, or a case can't have more
    /// steps.
    pub(crate) fn run(&mut self) -> Result<(), OutOfMemory> {
        self.best.search(self.sought, &self.chosen)?;
        for _ in 0..self.most() {
            if !self.go_further()? {
                break;
            }
        }
        self.forgive()
    }

    // How many steps are spent in all, at most.
    fn most(&self) -> u64 {
        self.budget.saturating_mul(BUDGETS)
    }

    // How many steps are spent unless a further line is explained.
    fn limit(&self) -> u64 {
        self.cost_of_best
            .saturating_add(self.budget)
            .min(self.most())
    }

    /// Whether the budget is spent.
    pub(crate) fn is_spent(&self) -> bool {
        self.cost >= self.limit()
    }

    // Whether there is nothing more to do.
    fn is_over(&self) -> bool {
        self.best.failure().is_none() || self.is_spent()
    }

    fn spend(&mut self, steps: u64) {
        self.cost = self.cost.saturating_add(steps);
    }

    // Tries single candidates, then pairs, and then the single ones that are left. The result is whether a further line
    // was explained at last.
    fn go_further(&mut self) -> Result<bool, OutOfMemory> {
        if self.is_over() {
            return Ok(false);
        }
        self.begin_anew()?;
        let left = self.limit().saturating_sub(self.cost);
        self.try_singles(self.cost.saturating_add(left / 2))?;
        if self.is_over() {
            return Ok(false);
        }
        self.before_pairs.set(&self.choices)?;
        if self.try_pairs()? {
            return Ok(true);
        }
        self.choices.set(&self.before_pairs)?;
        let tried = self.best.failure();
        self.try_singles(u64::MAX)?;
        Ok(tried.is_some_and(|failure| self.best.explains(failure.place)))
    }

    // Tries two candidates of the best attempt at once. The result is whether they explain a further line.
    fn try_pairs(&mut self) -> Result<bool, OutOfMemory> {
        let Some(known) = Known::from_attempt(&self.best, self.sought.lines, self.sought.header)
        else {
            return Ok(false);
        };
        let place = known.failure.place;
        self.pairs.truncate(0);
        let looks = push_candidates(&mut self.pairs, &known)?;
        self.spend(looks / LOOKS);
        self.effective.clear();
        for second in 0..self.pairs.len().min(PAIRED) {
            if !self.is_effective(second)? {
                continue;
            }
            if self.try_pairs_with(place, second)? {
                return Ok(true);
            }
            if self.is_over() {
                break;
            }
            self.effective.push(second)?;
        }
        Ok(false)
    }

    // Whether a candidate does something, besides the choices of the best attempt.
    fn is_effective(&mut self, index: usize) -> Result<bool, OutOfMemory> {
        self.choices.set(&self.chosen)?;
        self.choices.push_all(self.pairs.at(index))?;
        self.attempt()?;
        Ok(self.last.findings.effective != self.best.findings.effective)
    }

    // Tries a candidate together with each that precedes it and does something.
    fn try_pairs_with(&mut self, place: usize, second: usize) -> Result<bool, OutOfMemory> {
        for index in 0..self.effective.len() {
            let first = self.effective.get(index).copied().unwrap_or(0);
            self.choices.set(&self.chosen)?;
            self.choices.push_all(self.pairs.at(first))?;
            self.choices.push_all(self.pairs.at(second))?;
            if self.try_once(place)? {
                return Ok(true);
            }
            if self.is_over() {
                break;
            }
        }
        Ok(false)
    }

    // The path begins anew at the best attempt.
    fn begin_anew(&mut self) -> Result<(), OutOfMemory> {
        self.path.clear();
        self.candidates.truncate(0);
        self.choices.set(&self.chosen)?;
        swap(&mut self.best, &mut self.last);
        let listed = self.go_on_from_last(u32::MAX);
        swap(&mut self.best, &mut self.last);
        listed
    }

    // Makes one attempt with the choices. The result is whether it explains the line at a place; the path goes on then.
    fn try_once(&mut self, place: usize) -> Result<bool, OutOfMemory> {
        self.attempt()?;
        let is_further = self.last.explains(place);
        if is_further {
            self.go_on_from_last(LISTS)?;
        }
        self.keep_if_best()?;
        Ok(is_further)
    }

    // Makes one attempt with the choices.
    fn attempt(&mut self) -> Result<(), OutOfMemory> {
        self.last.search(self.sought, &self.choices)?;
        self.tried = self.tried.saturating_add(1);
        let steps = self.last.cost.saturating_add(self.choices.len() as u64);
        self.spend(steps);
        Ok(())
    }

    // The last attempt is the best one if it explains more. The result is whether it does.
    fn keep_if_best(&mut self) -> Result<bool, OutOfMemory> {
        let best = self.best.failure();
        let is_best = best.is_some_and(|failure| self.last.explains(failure.place));
        if is_best {
            swap(&mut self.best, &mut self.last);
            self.chosen.set(&self.choices)?;
            self.cost_of_best = self.cost;
        }
        Ok(is_best)
    }

    // Tries the host of the line that the best attempt doesn't explain in other ways, unless that was done. The result
    // is whether one explains a further line; the path begins anew then.
    fn try_ways(&mut self) -> Result<bool, OutOfMemory> {
        let Some(failure) = self.best.failure() else {
            return Ok(false);
        };
        let Some(key) = failure.key else {
            return Ok(false);
        };
        if !self.tries_ways || self.ways_place == Some(failure.place) {
            return Ok(false);
        }
        self.ways_place = Some(failure.place);
        let is_further = self.try_ways_of(key.host(), failure.rule)?;
        if is_further {
            self.begin_anew()?;
        }
        Ok(is_further)
    }

    // Tries a host in the ways that a broken rule suggests, and keeps the one that explains most. The result is whether
    // one explains a further line.
    fn try_ways_of(&mut self, host: Host, rule: Rule) -> Result<bool, OutOfMemory> {
        let before = self.sought.ways;
        let mut best = before;
        for ways in before.of_host(host).others(rule) {
            let Some(ways) = ways else {
                break;
            };
            if self.is_over() {
                break;
            }
            self.sought.ways = before.with(host, ways);
            self.choices.set(&self.chosen)?;
            self.attempt()?;
            if self.keep_if_best()? {
                best = self.sought.ways;
            }
        }
        self.sought.ways = best;
        Ok(best != before)
    }

    /// Whether the search didn't explain all lines, and tried other ways for the whole run than this.
    pub(crate) fn fails_with_other_ways(&self, ways: Ways) -> bool {
        self.best.failure().is_some() && self.sought.ways != ways
    }

    /// A search for the same, with these ways and no others.
    pub(crate) fn without_other_ways(&self, ways: Ways) -> Retries<'t> {
        let sought = Sought {
            ways,
            forgives: false,
            ..self.sought
        };
        Retries::new(sought, self.budget, false)
    }

    /// Whether it explains more than another search.
    pub(crate) fn explains_more(&self, other: &Retries<'_>) -> bool {
        let failure = other.best.failure();
        failure.is_some_and(|failure| self.best.explains(failure.place))
    }

    // Puts the level of the last attempt on the path, unless candidates were listed this often for its line.
    fn go_on_from_last(&mut self, lists: u32) -> Result<(), OutOfMemory> {
        let Some(known) = Known::from_attempt(&self.last, self.sought.lines, self.sought.header)
        else {
            return Ok(());
        };
        let place = known.failure.place;
        let count = self.listed.get(&place).copied().unwrap_or(0);
        if count >= lists {
            return Ok(());
        }
        self.listed.insert(place, count.saturating_add(1))?;
        let next = self.candidates.len();
        let looks = push_candidates(&mut self.candidates, &known)?;
        self.spend(looks / LOOKS);
        self.path.push(Level {
            chosen: self.choices.len(),
            place,
            next,
            stop: self.candidates.len(),
        })?;
        Ok(())
    }

    // If no choice explains a line, since its host didn't process what came, one that breaks a duty may do so. The
    // witness then ends with the step that the duty refuses, which tells more than the line.
    fn forgive(&mut self) -> Result<(), OutOfMemory> {
        let Some(known) = Known::from_attempt(&self.best, self.sought.lines, self.sought.header)
        else {
            return Ok(());
        };
        if self.sought.header.slack.is_none() || !shows_what_came(known.failure.rule) {
            return Ok(());
        }
        let place = known.failure.place;
        self.pairs.truncate(0);
        push_candidates(&mut self.pairs, &known)?;
        self.sought.forgives = true;
        let cost = self.cost;
        self.try_forgiving(place)?;
        self.cost = cost;
        Ok(())
    }

    // Tries the choices of the best attempt, then one candidate more, until one explains a place. It spends at most the
    // budget for one line.
    fn try_forgiving(&mut self, place: usize) -> Result<(), OutOfMemory> {
        let most = self.cost.saturating_add(self.budget).min(self.most());
        for index in 0..=self.pairs.len() {
            if self.cost >= most {
                break;
            }
            self.choices.set(&self.chosen)?;
            if let Some(index) = index.checked_sub(1) {
                self.choices.push_all(self.pairs.at(index))?;
            }
            if self.try_once(place)? {
                break;
            }
        }
        Ok(())
    }

    // Adds one candidate after the other, and goes back if no further one helps. It ends at this many steps.
    fn try_singles(&mut self, most: u64) -> Result<(), OutOfMemory> {
        for _ in 0..self.most() {
            if self.is_over() || self.cost >= most {
                break;
            }
            if self.try_ways()? {
                continue;
            }
            let Some(level) = self.path.pop() else {
                break;
            };
            self.try_single(level)?;
        }
        Ok(())
    }

    // Tries the next candidate of a level that was just removed from the path, and puts the level back if there is one.
    fn try_single(&mut self, level: Level) -> Result<(), OutOfMemory> {
        self.candidates.truncate(level.stop);
        if level.next >= level.stop {
            return Ok(());
        }
        let next = level.next.saturating_add(1);
        self.path.push(Level { next, ..level })?;
        self.choices.truncate(level.chosen)?;
        self.choices.push_all(self.candidates.at(level.next))?;
        self.try_once(level.place)?;
        Ok(())
    }
}
