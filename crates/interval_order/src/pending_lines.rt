//! The lines that no step has used yet.
//!
//! Offering a line, or a step, takes time logarithmic in the number of threads, whatever numbers a text gives them.
//! Nothing is scanned:
//!
//! - Lines wait in a queue by their numbers. A placed line keeps an empty slot as long as an earlier line is waiting,
//!   so there are as many slots as lines offered from the first waiting one on. If no line is overdue, their moments
//!   are at most the skew before the last step.
//! - Each waiting line names the line of its thread that was offered before it. The lines of a thread are placed in
//!   order, so the waiting ones are its last. One of them is the first if and only if the line that it names doesn't
//!   wait.
//! - Moments don't fall along the lines, so some line is overdue if and only if the first waiting one is.

ghost use Rattle.std.specs.Prelude.{◌≡◌, ℕ, ◌+◌, ◌<◌, ◌≤◌, ◌^◌, [], length, All, IsSome, IfOk, OnOk, OnErr, IfSome};
ghost use Rattle.std.specs.Prelude.{None, Some, false, cond, is_some, nat_eq, nat_lt, slice_get, ◌||◌};
ghost use Rattle.std.specs.Option.{option_and_then, option_map};
ghost use Rattle.std.specs.Result.{result_err};
ghost use Rattle.case_forms.specs.Traces.{first_event_line};
ghost use Rattle.verdict.specs.Rules.{first_broken};
ghost use Rattle.interval_order.specs.Orders.{taking, passing, held_line, is_offered, with_line, order_after};
ghost use Rattle.interval_order.specs.Later.{waits, late_by, IsTimed};
ghost use Rattle.interval_order.specs.Waits.{HasRoom, latest_in, waiting_at};
ghost use Rattle.interval_order.specs.OrderRules.{extras_of, has_earlier, thread_order, order_rules, has_overdue};
ghost use Rattle.interval_order.specs.OrderRules.{first_overdue};

use case_forms::{Event, Header, Line, OutOfMemory, Timer, Version};
use std::alloc::Global;
use std::marker::Model;
use tables::{Queue, Table};
use verdict::Rule;

/// A line that waits for its step.
#[derive(Drop)]
struct Waiting {
    line: Line,
    /// The number of the line of its thread that was offered just before it.
    previous: Option<u64>,
}

/// The lines of a trace that were offered and are not placed, and when the last step was.
#[derive(Drop)]
pub struct PendingLines {
    header: Header,
    /// The waiting lines, by number.
    waiting: Queue<Waiting>,
    /// The number of each thread's last offered line.
    latest: Table<u64>,
    /// The moment of the last step.
    last: u64,
}

impl Model for PendingLines {
    ghost use Rattle.interval_order.specs.Orders.{Order};
    ghost use Rattle.interval_order.specs.Waits.{lines_of, latest_in, IsSound};

    ghost Value = { Order };

    ghost view = { λ a. record {
      header = a.header;
      next = a.waiting.next;
      held = lines_of a.waiting.entries;
      last = a.last;
    } };

    ghost invariant = { λ a. IsSound a.waiting.next a.waiting.entries (latest_in a.latest.entries) };
}

impl PendingLines {
    /// No lines, before any is offered and any step is done.
    pub fn new(alloc: Global, header: &Header) -> PendingLines
        ensures { result ≡ record { header = header.now; next = first_event_line header.now; held = []; last = 0 } }
    {
        PendingLines {
            header: *header,
            waiting: Queue::new(alloc, header.first_event_line()),
            latest: Table::new(alloc),
            last: 0,
        }
    }

    /// Adds a line at the end of the trace. Its number is the next one: `first_event_line` of the header for the first
    /// line and one more for each after it, up to 2^64 - 2. Its moment is not below that of any waiting line. If memory
    /// runs out, nothing changes.
    pub fn offer(&mut self, line: Line) -> Result<(), OutOfMemory>
        requires number { line.number ≡ self.old.next }
        requires room { self.old.next + 1 < 2 ^ 64 }
        requires moment { All (λ e. e.1.moment ≤ line.moment) self.old.held }
        ensures ok { OnOk result (self.new ≡ with_line self.old line) }
        ensures err { OnErr result (self.new ≡ self.old) }
    {
        let mut item = Some(line);
        self.offer_from(&mut item)
    }

    /// The same with a line that is taken from the item, if there is one, to avoid moving it. The item's value
    /// afterwards isn't specified.
    pub fn offer_from(&mut self, item: &mut Option<Line>) -> Result<(), OutOfMemory>
        requires number { IfSome item.old (λ line. line.number ≡ self.old.next) }
        requires room { IfSome item.old (λ line. self.old.next + 1 < 2 ^ 64) }
        requires moment { IfSome item.old (λ line. All (λ e. e.1.moment ≤ line.moment) self.old.held) }
        ensures ok { OnOk result (IfSome item.old (λ line. self.new ≡ with_line self.old line)) }
        ensures err { OnErr result (self.new ≡ self.old) }
    {
        let previous = match item {
            Some(line) => latest_with_room(&mut self.latest, line.thread)?,
            None => return Ok(()),
        };
        if let Some(line) = item.take() {
            let number = line.number;
            let thread = line.thread;
            self.waiting.push(Waiting { line, previous })?;
            remember_last_line(&mut self.latest, thread, number);
        }
        Ok(())
    }

    /// Uses a line for a step at this moment, with this many extra numbers. The line no longer waits. If the step
    /// breaks rules of order, the error is the lowest-numbered of them, and nothing changes.
    pub fn place(&mut self, line: u64, extras: u8, moment: u64) -> Result<Line, Rule>
        ensures rule { result_err result ≡ first_broken (order_rules self.old (taking moment line extras)) }
        ensures line { IfOk result (λ taken. held_line self.old line ≡ Some taken) }
        ensures ok { OnOk result (self.new ≡ order_after self.old (taking moment line extras)) }
        ensures gone { OnOk result (held_line self.new line ≡ None) }
        ensures err { OnErr result (self.new ≡ self.old) }
    {
        self.admit(line, extras, moment)?;
        match self.waiting.take(line) {
            Some(waiting) => {
                self.last = moment;
                Ok(waiting.line)
            }
            None => unreachable!(),
        }
    }

    /// A hidden step at this moment. If it breaks rules of order, the error is the lowest-numbered of them, and
    /// nothing changes.
    pub fn pass(&mut self, moment: u64) -> Result<(), Rule>
        ensures rule { result_err result ≡ first_broken (order_rules self.old (passing moment)) }
        ensures ok { OnOk result (self.new ≡ order_after self.old (passing moment)) }
        ensures err { OnErr result (self.new ≡ self.old) }
    {
        if moment < self.last {
            return Err(Rule::MomentFalls);
        }
        if self.has_overdue(moment) {
            return Err(Rule::Overdue);
        }
        self.last = moment;
        Ok(())
    }

    /// How many lines wait.
    pub fn held(&self) -> usize
        ensures { result ≡ length self.now.held }
    {
        self.waiting.len()
    }

    /// The number of the first line that may not wait until this moment. `None` means that there is none: then, if no
    /// waiting line has a later moment, each has one at most the skew earlier.
    pub fn overdue(&self, moment: u64) -> Option<u64>
        ensures first { result ≡ first_overdue self.now moment }
        ensures current { result ≡ None → All (λ e. e.1.moment ≤ moment) self.now.held
            → All (λ e. IsTimed self.now.header moment e.1) self.now.held }
    {
        self.first_late(moment)
    }

    /// Whether a line of this thread waits.
    pub fn waits(&self, thread: u32) -> bool
        ensures { result ≡ waits self.now thread }
    {
        is_held(&self.waiting, latest_of(&self.latest, thread))
    }

    /// The lowest-numbered rule broken by a step that uses this line, if the line is not offered yet and the step's
    /// moment is before the line's. `is_behind` says whether an earlier line of its thread isn't offered yet either.
    pub fn late_rule(&self, line: &Line, is_behind: bool, extras: u8, moment: u64) -> Rule
        ensures { result ≡ late_by self.now is_behind line.now extras moment }
    {
        if extras != extras_of(self.header.version, &line.event) {
            return Rule::LineRange;
        }
        if self.waits(line.thread) || is_behind {
            return Rule::ThreadOrder;
        }
        if moment < self.last {
            return Rule::MomentFalls;
        }
        Rule::MomentOff
    }

    /// The moment of the last step, in microseconds; 0 before the first.
    pub fn last_moment(&self) -> u64
        ensures { result ≡ self.now.last }
    {
        self.last
    }

    /// The number of the next line to be offered.
    pub fn next_number(&self) -> u64
        ensures { result ≡ self.now.next }
    {
        self.waiting.next_number()
    }

    /// The number of the first line that waits, if one does.
    pub fn first_left(&self) -> Option<u64>
        ensures { result ≡ option_map (λ e. e.0) (slice_get self.now.held 0) }
    {
        self.waiting.first().map(|(number, _)| number)
    }
}

impl PendingLines {
    // The lowest-numbered rule of order broken by a step that uses a line.
    fn admit(&self, number: u64, extras: u8, moment: u64) -> Result<(), Rule>
        ensures rule { result_err result ≡ first_broken (order_rules self.now (taking moment number extras)) }
        ensures held { OnOk result (IsSome (held_line self.now number)) }
        ensures first { OnOk result (thread_order self.now (taking moment number extras).take ≡ false) }
    {
        if !self.is_offered(number) {
            return Err(Rule::LineRange);
        }
        let Some((line, is_second)) = self.line(number) else {
            return Err(Rule::LineAgain);
        };
        if extras != extras_of(self.header.version, &line.event) {
            return Err(Rule::LineRange);
        }
        if is_second {
            return Err(Rule::ThreadOrder);
        }
        if moment < self.last {
            return Err(Rule::MomentFalls);
        }
        if self.is_off(line, moment) {
            return Err(Rule::MomentOff);
        }
        if self.has_overdue(moment) {
            return Err(Rule::Overdue);
        }
        Ok(())
    }

    fn is_offered(&self, number: u64) -> bool
        ensures { result ≡ is_offered self.now number }
    {
        self.header.first_event_line() <= number && number < self.next_number()
    }

    // The line of that number, if it waits, and whether an earlier line of its thread does too.
    fn line(&self, number: u64) -> Option<(&Line, bool)>
        ensures line { option_map (λ found. found.0.now) result ≡ held_line self.now number }
        ensures second { IfSome result (λ found. found.1 ≡ has_earlier self.now number found.0.now.thread) }
    {
        match self.waiting.get(number) {
            Some(waiting) => Some((&waiting.line, is_held(&self.waiting, waiting.previous))),
            None => None,
        }
    }

    // Whether a moment is before that of a line, or later by more than the skew.
    fn is_off(&self, line: &Line, moment: u64) -> bool
        ensures { result ≡ (nat_lt moment line.now.moment || nat_lt (line.now.moment + self.now.header.skew) moment) }
    {
        moment < line.moment || is_past(line.moment, self.header.skew, moment)
    }

    // The number of the first line that may not wait until this moment.
    fn first_late(&self, moment: u64) -> Option<u64>
        ensures { result ≡ first_overdue self.now moment }
    {
        let (number, waiting) = self.waiting.first()?;
        is_past(waiting.line.moment, self.header.skew, moment).then_some(number)
    }

    fn has_overdue(&self, moment: u64) -> bool
        ensures { result ≡ has_overdue self.now moment }
    {
        self.overdue(moment).is_some()
    }
}

// Whether the named line waits, if one is named.
fn is_held(waiting: &Queue<Waiting>, number: Option<u64>) -> bool
    ensures { result ≡ is_some (option_and_then (waiting_at waiting.now.entries) number) }
{
    match number {
        Some(number) => waiting.get(number).is_some(),
        None => false,
    }
}

// The number of the last line of a thread, if one was offered.
fn latest_of(latest: &Table<u64>, thread: u32) -> Option<u64>
    ensures { result ≡ latest_in latest.now.entries thread }
{
    latest.get(u64::from(thread)).copied()
}

// The number of the last line of a thread, if one was offered. The table then has room for another one.
fn latest_with_room(latest: &mut Table<u64>, thread: u32) -> Result<Option<u64>, OutOfMemory>
    ensures previous { IfOk result (λ previous. previous ≡ latest_in latest.old.entries thread) }
    ensures room { OnOk result (HasRoom latest.new thread) }
    ensures same { latest.new.entries ≡ latest.old.entries }
{
    let previous = latest_of(latest, thread);
    if previous.is_none() {
        latest.reserve(u64::from(thread))?;
    }
    Ok(previous)
}

// Records a line as the last one of its thread.
fn remember_last_line(latest: &mut Table<u64>, thread: u32, number: u64)
    requires { HasRoom latest.old thread }
    ensures { (t : ℕ) → latest_in latest.new.entries t
        ≡ cond (nat_eq thread t) (Some number) (latest_in latest.old.entries t) }
{
    match latest.insert(u64::from(thread), number) {
        Ok(()) => {}
        Err(_) => unreachable!(),
    }
}

// How many extra numbers follow the number of a line of this kind.
fn extras_of(version: Version, event: &Event) -> u8
    ensures { result ≡ extras_of version event.now }
{
    match event {
        Event::CallBegin(_) => 0,
        Event::CallEnd(_) => 0,
        Event::Sent(..) => 1,
        Event::Came(..) if version.is_half() => 0,
        Event::Came(..) => 1,
        Event::Expired(_, _, _, Timer::Rto) => 2,
        Event::Expired(_, _, _, Timer::Persist | Timer::Msl2 | Timer::Giveup | Timer::Pto) => 0,
    }
}

// Whether a moment is later than another by more than the skew.
fn is_past(from: u64, skew: u64, moment: u64) -> bool
    ensures { result ≡ nat_lt (from + skew) moment }
{
    from < moment && skew < moment - from
}
