//! What is around the events of a picture: the hosts, the key, the refusal, and the place of each column.

use crate::callers::Callers;
use crate::fates::Fate;
use crate::labels::{Length, push_refusal};
use crate::layout::{
    BAR, BASE, DIGIT, ENTRY, Hosts, KEY, LETTER, MARGIN, MOST_BARS, MOST_PITCH, NAMES, PEER, ROW,
    SAMPLE, THREADS, TOP, ZERO,
};
use crate::picture::{
    Column, Point, arrow, at, band, begin, begin_group, crossed, dot, end, end_group, line, style,
    text, width_of,
};
use crate::rows::{Gap, Rows};
use case_forms::{Event, Host, OutOfMemory};
use plain_words::{HostName, Sheet};
use replayed::{Case, Refusal};
use std::alloc::{AllocError, Global};
use std::fmt;

/// The parts of a picture while it is drawn.
#[derive(Drop)]
pub(crate) struct Frame {
    alloc: Global,
    pub hosts: Hosts,
    pub rows: Rows,
    pub numbers: Column,
    pub times: Column,
    zero: Column,
    one: Column,
    /// The labels of the segments of a half case, above their arrows.
    pub middle: Column,
    /// Bars, arrows and dots.
    pub shapes: Sheet,
    /// The fates that occur.
    fates: Vec<Fate>,
    /// Whether the case has a witness. A trace alone reaches nothing.
    has_witness: bool,
}

// Where the columns are, in the coordinates of the picture.
#[derive(Clone, Copy)]
struct Places {
    numbers: u64,
    times: u64,
    zero: u64,
    /// By how much the hosts' own coordinates are less.
    hosts: u64,
    middle: u64,
    one: u64,
    width: u64,
}

impl Frame {
    /// An empty picture of a case, with these rows.
    pub(crate) fn new(alloc: Global, case: &Case, rows: Rows) -> Frame {
        Frame {
            alloc,
            hosts: hosts_of(case),
            rows,
            numbers: Column::new(alloc, DIGIT),
            times: Column::new(alloc, DIGIT),
            zero: Column::new(alloc, LETTER),
            one: Column::new(alloc, LETTER),
            middle: Column::new(alloc, LETTER),
            shapes: Sheet::new(alloc),
            fates: Vec::new(alloc),
            has_witness: !case.texts.witness.is_empty(),
        }
    }

    /// The labels beside a host.
    pub(crate) fn labels(&mut self, host: Host) -> &mut Column {
        match host {
            Host::Zero => &mut self.zero,
            Host::One => &mut self.one,
        }
    }

    /// Draws the arrow of a segment with this fate.
    pub(crate) fn arrow(&mut self, fate: Fate, from: Point, to: Point) {
        if !self.fates.as_slice().contains(&fate) {
            let done = self.fates.push(fate);
            self.shapes.note(done.map_err(|_| AllocError));
        }
        push_arrow(&mut self.shapes, fate, from, to);
    }

    /// The whole picture.
    pub(crate) fn picture(
        &mut self,
        case: &Case,
        callers: &Callers,
    ) -> Result<String, OutOfMemory> {
        let mut refusal = Sheet::new(self.alloc);
        push_refusal(&mut refusal, case.refusal());
        let mut out = Sheet::new(self.alloc);
        self.write(&mut out, case, callers, &refusal);
        drop(refusal);
        out.finish()
    }

    fn write(&mut self, out: &mut Sheet, case: &Case, callers: &Callers, refusal: &Sheet) {
        self.name_threads(Host::Zero, callers);
        self.name_threads(Host::One, callers);
        let places = self.places(callers, width_of(refusal.len()));
        begin(out, places.width, self.rows.bottom.saturating_add(MARGIN));
        for fate in self.fates.as_slice() {
            style(out, fate.look());
        }
        self.push_hosts(out, places);
        self.push_columns(out, places);
        self.push_key(out, !callers.is_empty());
        if !matches!(case.refusal(), Refusal::Nowhere) {
            self.mark_refusal(out, places, refusal);
        }
        end(out);
    }

    fn places(&self, callers: &Callers, refusal: u64) -> Places {
        let numbers = MARGIN.saturating_add(self.numbers.width);
        let times = numbers
            .saturating_add(MARGIN)
            .saturating_add(self.times.width);
        let labels = times
            .saturating_add(2 * MARGIN)
            .saturating_add(self.zero.width);
        let room = self.hosts.room(callers.threads_of(Host::Zero).bars());
        let left = labels
            .max(MARGIN.saturating_add(refusal))
            .saturating_add(room)
            .max(ZERO);
        let right = left.saturating_add(self.hosts.span());
        let one = right.saturating_add(self.hosts.room(callers.threads_of(Host::One).bars()));
        let middle = left.saturating_add(MARGIN);
        let width = one
            .saturating_add(self.one.width)
            .max(middle.saturating_add(self.middle.width))
            .max(right.saturating_add(PEER))
            .max(self.key_width());
        Places {
            numbers,
            times,
            zero: left.saturating_sub(room),
            hosts: left.saturating_sub(ZERO),
            middle,
            one,
            width: width.saturating_add(MARGIN),
        }
    }

    // The numbers of a host's threads, above their bars.
    fn name_threads(&mut self, host: Host, callers: &Callers) {
        let threads = callers.threads_of(host);
        if threads.bars() == 0 {
            return;
        }
        self.labels(host).add("thread", THREADS, &"thread");
        let mut place: u64 = 0;
        for thread in threads.drawn.as_slice() {
            if place < MOST_BARS {
                self.name_thread(host, place, thread);
            }
            place = place.saturating_add(1);
        }
        if MOST_BARS < threads.bars() {
            self.name_thread(host, MOST_BARS, &"..");
        }
    }

    fn name_thread(&mut self, host: Host, place: u64, name: &impl fmt::Display) {
        let x = self.hosts.bar(host, place);
        text(&mut self.shapes, "thread mid", at(x, THREADS), name);
    }

    // The hosts, the bands where the clock jumps, and what is drawn at the hosts.
    fn push_hosts(&self, out: &mut Sheet, places: Places) {
        begin_group(out, "", places.hosts);
        self.push_host(out, Host::Zero);
        self.push_host(out, Host::One);
        end_group(out);
        for gap in self.rows.gaps.as_slice() {
            band(out, gap.y.saturating_sub(ROW / 2), self.height_of(*gap));
        }
        begin_group(out, "", places.hosts);
        for gap in self.rows.gaps.as_slice() {
            self.push_pause(out, *gap, Host::Zero);
            self.push_pause(out, *gap, Host::One);
        }
        out.show(&self.shapes);
        end_group(out);
    }

    // Whether this is the host that wasn't recorded.
    fn is_peer(&self, host: Host) -> bool {
        self.hosts.is_half && host == Host::One
    }

    // A host's name, and its line.
    fn push_host(&self, out: &mut Sheet, host: Host) {
        let x = self.hosts.inside(host, 0);
        let (top, bottom) = (TOP.saturating_sub(ROW), self.rows.bottom);
        if self.is_peer(host) {
            text(out, "key mid", at(x, NAMES), &"peer (not recorded)");
            line(out, "peer", at(x, top), at(x, bottom));
        } else {
            text(out, "name mid", at(x, NAMES), &HostName(host));
            line(out, "host", at(x, top), at(x, bottom));
        }
    }

    // The height of a gap. A deadline right below its first row is in it.
    fn height_of(&self, gap: Gap) -> u64 {
        let has_deadline = self.rows.due == gap.y.saturating_add(ROW);
        if has_deadline { 2 * ROW } else { ROW }
    }

    // The line of a host in a gap.
    fn push_pause(&self, out: &mut Sheet, gap: Gap, host: Host) {
        let top = gap.y.saturating_sub(ROW / 2);
        let bottom = top.saturating_add(self.height_of(gap));
        let x = self.hosts.inside(host, 0);
        let class = if self.is_peer(host) {
            "peer pause"
        } else {
            "host pause"
        };
        line(out, class, at(x, top), at(x, bottom));
    }

    fn push_columns(&mut self, out: &mut Sheet, places: Places) {
        for gap in self.rows.gaps.as_slice() {
            let y = gap.y.saturating_add(BASE);
            self.times.add("gap", y, &Length(gap.length));
        }
        self.numbers.place(out, "left", places.numbers);
        self.times.place(out, "left", places.times);
        self.zero.place(out, "left", places.zero);
        self.middle.place(out, "", places.middle);
        self.one.place(out, "", places.one);
    }

    // The key, with the fates that occur, and a call if there are any.
    fn push_key(&self, out: &mut Sheet, has_calls: bool) {
        let mut x = MARGIN;
        let y = KEY.saturating_sub(BASE);
        if has_calls {
            let end = x.saturating_add(SAMPLE);
            line(out, "bar", at(x, y), at(end, y));
            dot(out, "#337", at(x.saturating_add(SAMPLE / 2), y));
            x = push_meaning(out, x, CALL);
        }
        for fate in self.fates.as_slice() {
            push_arrow(out, *fate, at(x, y), at(x.saturating_add(SAMPLE), y));
            x = push_meaning(out, x, self.meaning_of(*fate));
        }
    }

    fn meaning_of(&self, fate: Fate) -> &'static str {
        match fate {
            Fate::NotReached if !self.has_witness => "no witness",
            _ => fate.look().meaning,
        }
    }

    fn key_width(&self) -> u64 {
        let mut width = MARGIN.saturating_add(entry_width(CALL));
        for fate in self.fates.as_slice() {
            width = width.saturating_add(entry_width(self.meaning_of(*fate)));
        }
        width
    }

    // A red line, and below it what is refused.
    fn mark_refusal(&self, out: &mut Sheet, places: Places, words: &Sheet) {
        let middle = self.rows.refused;
        let y = middle.saturating_sub(6);
        let right = places.width.saturating_sub(MARGIN);
        line(out, "refused", at(MARGIN, y), at(right, y));
        text(out, "no", at(MARGIN, middle.saturating_add(8)), words);
    }
}

// What the key says of a bar with a dot.
const CALL: &str = "call, and its effect";

fn push_arrow(out: &mut Sheet, fate: Fate, from: Point, to: Point) {
    match fate {
        Fate::Lost => crossed(out, fate.look(), from, to),
        _ => arrow(out, fate.look(), from, to),
    }
}

// Writes what an entry of the key means. The answer is where the next entry begins.
fn push_meaning(out: &mut Sheet, x: u64, meaning: &str) -> u64 {
    let text_at = x.saturating_add(SAMPLE + 2 * BASE);
    text(out, "key", at(text_at, KEY), &meaning);
    x.saturating_add(entry_width(meaning))
}

fn entry_width(meaning: &str) -> u64 {
    let letters = (meaning.len() as u64).saturating_mul(DIGIT);
    letters.saturating_add(SAMPLE + 2 * BASE + ENTRY)
}

// The hosts of a case.
fn hosts_of(case: &Case) -> Hosts {
    let mut greatest: u32 = 0;
    for line in case.trace.lines.as_slice() {
        if matches!(line.event, Event::CallBegin(_)) {
            greatest = greatest.max(line.thread);
        }
    }
    let digits = u64::from(greatest.checked_ilog10().unwrap_or(0)).saturating_add(1);
    Hosts {
        is_half: case.trace.header.version.is_half(),
        pitch: digits
            .saturating_mul(DIGIT)
            .saturating_add(BAR)
            .min(MOST_PITCH),
    }
}
