//! A case as a picture: two hosts as lines, time downward, each segment an arrow.

use crate::callers::{Callers, Open};
use crate::fates::{Fate, Fates};
use crate::frame::Frame;
use crate::labels::{Milliseconds, push_answer, push_call};
use crate::layout::{ARRIVING, BASE, MOST_BARS, ROW, SENT};
use crate::overdue::{Overdue, debtor};
use crate::picture::{Point, at, dot, line};
use crate::range::{Drawn, Range, last_line};
use crate::rows::{Marks, Rows};
use crate::segments::SegmentLabels;
use case_forms::{Answer, Call, Event, Host, Line, OutOfMemory, Timer, Wire};
use line_fields::timer_name;
use plain_words::Sheet;
use replayed::{Case, Refusal};
use segment::Segment;
use std::alloc::Global;
use std::collections::BTreeMap;
use std::fmt;
use std::mem::replace;

// A picture that is drawn, and what is known of the case so far.
#[derive(Drop)]
struct Drawing {
    alloc: Global,
    range: Drawn,
    fates: Fates,
    /// The moment of the first line.
    start: u64,
    /// The moment that is written last.
    shown: Option<u64>,
    labels: SegmentLabels,
    callers: Callers,
    frame: Frame,
}

/// The case as a picture in SVG, of the lines in a range.
pub fn draw(alloc: Global, case: &Case, range: Range) -> Result<String, OutOfMemory> {
    let debtor = debtor(alloc, case)?;
    let fates = Fates::new(alloc, case)?;
    let range = Drawn::new(range, case, &fates);
    let overdue = Overdue::new(debtor, case, range);
    let marks = Marks {
        refused: marked_line(case, &fates),
        due: overdue.map(|overdue| overdue.after),
    };
    let lines = case.trace.lines.as_slice();
    let version = case.trace.header.version;
    let rows = Rows::new(alloc, range.lines(case), range, marks)?;
    let mut drawing = Drawing {
        alloc,
        range,
        fates,
        start: lines.first().map_or(0, |line| line.moment),
        shown: None,
        labels: SegmentLabels::new(alloc, version),
        callers: Callers::new(alloc),
        frame: Frame::new(alloc, case, rows),
    };
    let picture = drawing.all(case, overdue, debtor.map_or("", |debtor| debtor.debt.what));
    drop(drawing);
    picture
}

// The line after which something is refused. None: nothing is.
fn marked_line(case: &Case, fates: &Fates) -> Option<u64> {
    match case.refusal() {
        Refusal::Nowhere => None,
        Refusal::At { .. } => Some(fates.last),
        Refusal::Unplaced(line) => Some(line),
        Refusal::Late { .. } => Some(last_line(case)),
    }
}

// A point of the arrow of a half case, whose label is above it.
fn lower(point: Point) -> Point {
    at(point.x, point.y.saturating_add(BASE))
}

impl Drawing {
    // Draws all, and returns the picture.
    fn all(
        &mut self,
        case: &Case,
        overdue: Option<Overdue>,
        owed: &str,
    ) -> Result<String, OutOfMemory> {
        self.lines(case)?;
        self.overdue(overdue, owed);
        self.frame.picture(case, &self.callers)
    }

    // Draws what the lines show.
    fn lines(&mut self, case: &Case) -> Result<(), OutOfMemory> {
        for line in case.trace.lines.as_slice() {
            self.line(line)?;
        }
        self.open_calls();
        Ok(())
    }

    fn line(&mut self, line: &Line) -> Result<(), OutOfMemory> {
        let number = line.number;
        let is_drawn = self.range.has(number);
        if is_drawn {
            self.when(line);
        }
        self.labels.read(line)?;
        match &line.event {
            Event::CallBegin(call) => self.call(line, call),
            Event::CallEnd(answer) => self.answer(number, line.thread, answer),
            Event::Sent(host, wire) if is_drawn => self.draw_sent(number, *host, wire),
            Event::Came(host, wire) if is_drawn => self.draw_arrival(number, *host, wire),
            Event::Expired(host, _, _, timer) if is_drawn => {
                self.draw_expiry(number, *host, *timer);
                Ok(())
            }
            Event::Sent(..) | Event::Came(..) | Event::Expired(..) => Ok(()),
        }
    }

    // A line's number, and its time if it isn't that of the line above.
    fn when(&mut self, line: &Line) {
        let y = self.frame.rows.y(line.number).saturating_add(BASE);
        self.frame.numbers.add("number", y, &line.number);
        if self.shown != Some(line.moment) {
            self.shown = Some(line.moment);
            let passed = u128::from(line.moment.saturating_sub(self.start));
            self.frame.times.add("time", y, &Milliseconds(passed));
        }
    }

    // A text beside a host, outside.
    fn beside(&mut self, number: u64, host: Host, class: &str, words: &impl fmt::Display) {
        let y = self.frame.rows.y(number).saturating_add(BASE);
        self.frame.labels(host).add(class, y, words);
    }

    // A call beside its host.
    fn call(&mut self, line: &Line, call: &Call) -> Result<(), OutOfMemory> {
        let host = self.callers.begin(line, call)?;
        let mut words = Sheet::new(self.alloc);
        push_call(&mut words, call);
        self.words_of_call(line.number, host, line.thread, &words)
    }

    // The bar of a call, and its answer.
    fn answer(&mut self, number: u64, thread: u32, answer: &Answer) -> Result<(), OutOfMemory> {
        let Some(open) = self.callers.end(thread, answer)? else {
            return Ok(());
        };
        self.bar(thread, open, number)?;
        let mut words = Sheet::new(self.alloc);
        push_answer(&mut words, answer, open.opens);
        self.words_of_call(number, open.host, thread, &words)
    }

    // What a thread calls or gets, if that line is drawn. The thread is named if its bar isn't its own.
    fn words_of_call(
        &mut self,
        number: u64,
        host: Host,
        thread: u32,
        words: &Sheet,
    ) -> Result<(), OutOfMemory> {
        if !self.range.has(number) {
            return Ok(());
        }
        if self.callers.place(host, thread)? < MOST_BARS {
            self.beside(number, host, "call", words);
        } else {
            let words = format_args!("thread {thread}: {words}");
            self.beside(number, host, "call", &words);
        }
        Ok(())
    }

    // The bars of calls that have no answer.
    fn open_calls(&mut self) {
        let to = self.range.to.saturating_add(1);
        let left = replace(&mut self.callers.open, BTreeMap::new(self.alloc));
        for (thread, open) in left.iter() {
            let done = self.bar(*thread, *open, to);
            self.frame.shapes.note(done);
        }
    }

    // The bar of a call, with the dot of its effect.
    fn bar(&mut self, thread: u32, open: Open, to: u64) -> Result<(), OutOfMemory> {
        let Open {
            host,
            line: from,
            ..
        } = open;
        if to < self.range.from || self.range.to < from {
            return Ok(());
        }
        let place = self.callers.place(host, thread)?;
        let x = self.frame.hosts.bar(host, place);
        let (top, bottom) = (self.frame.rows.y(from), self.frame.rows.y(to));
        line(&mut self.frame.shapes, "bar", at(x, top), at(x, bottom));
        if let Some(before) = self.drawn(self.fates.effects.get(&from)) {
            let y = self.frame.rows.y(before).saturating_add(ROW / 2);
            dot(&mut self.frame.shapes, "#337", at(x, y.min(bottom)));
        }
        Ok(())
    }

    // The line, if it is drawn.
    fn drawn(&self, line: Option<&u64>) -> Option<u64> {
        match line {
            Some(line) if self.range.has(*line) => Some(*line),
            _ => None,
        }
    }

    // A segment that is sent: its label, and its arrow, unless that is drawn where the segment is received.
    fn draw_sent(&mut self, number: u64, host: Host, wire: &Wire) -> Result<(), OutOfMemory> {
        self.segment(number, host, host, &wire.seg)?;
        let copy = self.fates.copied.get(&number).copied();
        let fate = match copy {
            Some(copy) if self.range.has(copy) => return Ok(()),
            Some(copy) => self.fates.received(copy),
            None => self.fates.sent(number),
        };
        if copy.is_none() && self.frame.hosts.is_half {
            let (here, peer) = (self.end(number, host), self.end(number, host.other()));
            self.frame.arrow(fate, lower(here), lower(peer));
        } else {
            self.stub(fate, number, host);
        }
        Ok(())
    }

    // The arrow of a segment that is sent, and not received in a line that is drawn.
    fn stub(&mut self, fate: Fate, number: u64, host: Host) {
        let from = self.end(number, host);
        let to = at(
            self.frame.hosts.inside(host, SENT),
            from.y.saturating_add(ROW / 2),
        );
        self.frame.arrow(fate, from, to);
    }

    // Where a line is at a host.
    fn end(&self, number: u64, host: Host) -> Point {
        at(self.frame.hosts.inside(host, 0), self.frame.rows.y(number))
    }

    // The arrow of a segment that is received. It has its label here if the line that it copies isn't drawn.
    fn draw_arrival(&mut self, number: u64, host: Host, wire: &Wire) -> Result<(), OutOfMemory> {
        let (fate, to) = (self.fates.received(number), self.end(number, host));
        if let Some(copied) = self.drawn(self.fates.copies.get(&number)) {
            let from = self.end(copied, host.other());
            self.frame.arrow(fate, from, to);
            return Ok(());
        }
        self.segment(number, host, host.other(), &wire.seg)?;
        if self.frame.hosts.is_half {
            let peer = self.end(number, host.other());
            self.frame.arrow(fate, lower(peer), lower(to));
        } else {
            let x = self.frame.hosts.inside(host, ARRIVING);
            self.frame
                .arrow(fate, at(x, to.y.saturating_sub(ROW / 2)), to);
        }
        Ok(())
    }

    // The label of a segment of a sender: in a half case above its arrow, else beside the host.
    fn segment(
        &mut self,
        number: u64,
        host: Host,
        sender: Host,
        seg: &Segment,
    ) -> Result<(), OutOfMemory> {
        let mut label = Sheet::new(self.alloc);
        let done = self.labels.label(&mut label, sender, seg);
        if self.frame.hosts.is_half {
            let y = self.frame.rows.y(number);
            self.frame.middle.add("segment", y, &label);
        } else {
            self.beside(number, host, "segment", &label);
        }
        drop(label);
        done
    }

    // A timer at its host.
    fn draw_expiry(&mut self, number: u64, host: Host, timer: Timer) {
        let name = timer_name(timer);
        self.beside(number, host, "timer", &format_args!("timer {name} expires"));
    }

    // A red dot at the host when something was due, and what that is.
    fn overdue(&mut self, overdue: Option<Overdue>, owed: &str) {
        let Some(Overdue { host, due, .. }) = overdue else {
            return;
        };
        let (y, x) = (self.frame.rows.due, self.frame.hosts.inside(host, 0));
        dot(&mut self.frame.shapes, "#d00", at(x, y));
        let due = Milliseconds(due.saturating_sub(u128::from(self.start)));
        let words = format_args!("due by {due}: {owed}");
        self.frame
            .labels(host)
            .add("no", y.saturating_add(BASE), &words);
    }
}
