//! Parts of a picture in SVG, a line each. Lengths are pixels, and y grows downward.

use crate::layout::LETTER;
use plain_words::Sheet;
use std::alloc::Global;
use std::fmt;

/// A point.
#[derive(Clone, Copy)]
pub(crate) struct Point {
    pub x: u64,
    pub y: u64,
}

/// The point at these two distances, from the left and from the top.
pub(crate) fn at(x: u64, y: u64) -> Point {
    Point { x, y }
}

/// A kind of arrow.
#[derive(Clone, Copy)]
pub(crate) struct Look {
    pub class: &'static str,
    pub color: &'static str,
    /// The lengths of its dashes and of the spaces between them; empty if it has none.
    pub dashes: &'static str,
    /// What the key says of it.
    pub meaning: &'static str,
}

/// Begins a picture of this size.
pub(crate) fn begin(out: &mut Sheet, width: u64, height: u64) {
    out.say(HEAD, &[width, height, width, height]);
    out.put(STYLE);
}

const HEAD: &str =
    "<svg xmlns=\"http://www.w3.org/2000/svg\" width=\"{}\" height=\"{}\" viewBox=\"0 0 {} {}\">\n";

const STYLE: &str = "<style>text{font:11px sans-serif;fill:#222}\
.number,.time{font:10px monospace;fill:#888}.gap{font:10px monospace;fill:#222}\
.name{font:bold 13px sans-serif}.thread{font:9px sans-serif;fill:#558}.key{font:10px sans-serif}\
.call{fill:#337}.timer{fill:#73a;font-weight:bold}.no{fill:#d00;font-weight:bold}\
.left,.left text{text-anchor:end}.mid{text-anchor:middle}\
.host{stroke:#222;stroke-width:2}.peer{stroke:#ccc;stroke-width:2}.pause{stroke-dasharray:2 4}\
.bar{stroke:#99c;stroke-width:4}.arrow{stroke-width:1.5}\
.refused{stroke:#d00;stroke-width:2}</style>\n\
<rect width=\"100%\" height=\"100%\" fill=\"#fff\"/>\n";

/// How arrows of a kind look.
pub(crate) fn style(out: &mut Sheet, look: Look) {
    out.put("<style>.");
    out.put(look.class);
    out.put("{stroke:");
    out.put(look.color);
    out.put(";stroke-dasharray:");
    out.put(look.dashes);
    out.put("}</style><marker id=\"m-");
    out.put(look.class);
    out.put(MARKER);
    out.put(look.color);
    out.put("\"/></marker>\n");
}

const MARKER: &str =
    "\" markerUnits=\"userSpaceOnUse\" markerWidth=\"9\" markerHeight=\"8\" refX=\"9\" \
refY=\"4\" orient=\"auto\"><path d=\"M0 0L9 4L0 8z\" fill=\"";

/// Ends a picture.
pub(crate) fn end(out: &mut Sheet) {
    out.put("</svg>\n");
}

/// Begins a group whose points are so far to the right of their coordinates.
pub(crate) fn begin_group(out: &mut Sheet, class: &str, right: u64) {
    begin_part(out, "<g", class);
    out.say(" transform=\"translate({} 0)\">\n", &[right]);
}

pub(crate) fn end_group(out: &mut Sheet) {
    out.put("</g>\n");
}

// Begins a part of a class.
fn begin_part(out: &mut Sheet, name: &str, class: &str) {
    out.put(name);
    out.put(" class=\"");
    out.put(class);
    out.put("\"");
}

/// A line of a class.
pub(crate) fn line(out: &mut Sheet, class: &str, from: Point, to: Point) {
    stroke(out, class, from, to);
    out.put("/>\n");
}

/// An arrow.
pub(crate) fn arrow(out: &mut Sheet, look: Look, from: Point, to: Point) {
    out.put("<g class=\"arrow\">");
    stroke(out, look.class, from, to);
    out.put(" marker-end=\"url(#m-");
    out.put(look.class);
    out.put(")\"/></g>\n");
}

/// A line that ends in a cross.
pub(crate) fn crossed(out: &mut Sheet, look: Look, from: Point, to: Point) {
    out.put("<g class=\"arrow\">");
    stroke(out, look.class, from, to);
    begin_part(out, "/><path", look.class);
    let (left, right) = (to.x.saturating_sub(4), to.x.saturating_add(4));
    let (top, bottom) = (to.y.saturating_sub(4), to.y.saturating_add(4));
    out.say(
        " d=\"M{} {}L{} {}M{} {}L{} {}\"/></g>\n",
        &[left, top, right, bottom, left, bottom, right, top],
    );
}

fn stroke(out: &mut Sheet, class: &str, from: Point, to: Point) {
    begin_part(out, "<line", class);
    out.say(
        " x1=\"{}\" y1=\"{}\" x2=\"{}\" y2=\"{}\"",
        &[from.x, from.y, to.x, to.y],
    );
}

/// A band over the whole width.
pub(crate) fn band(out: &mut Sheet, y: u64, height: u64) {
    out.say(BAND, &[y, height]);
}

const BAND: &str = "<rect x=\"0\" y=\"{}\" width=\"100%\" height=\"{}\" fill=\"#f1f1f1\"/>\n";

/// A circle that is filled with a color.
pub(crate) fn dot(out: &mut Sheet, color: &str, at: Point) {
    out.put("<circle r=\"4\" fill=\"");
    out.put(color);
    out.say("\" cx=\"{}\" cy=\"{}\"/>\n", &[at.x, at.y]);
}

/// A text of a class, from a point on.
pub(crate) fn text(out: &mut Sheet, class: &str, at: Point, words: &impl fmt::Display) {
    begin_part(out, "<text", class);
    out.say(" x=\"{}\" y=\"{}\">", &[at.x, at.y]);
    out.show(words);
    out.put("</text>\n");
}

/// The width of a label with so many letters.
pub(crate) fn width_of(letters: usize) -> u64 {
    (letters as u64).saturating_mul(LETTER)
}

/// A column of texts, which is placed once its width is known.
#[derive(Drop)]
pub(crate) struct Column {
    alloc: Global,
    texts: Sheet,
    letter: u64,
    pub width: u64,
}

impl Column {
    /// An empty column of letters of this width.
    pub(crate) fn new(alloc: Global, letter: u64) -> Column {
        Column {
            alloc,
            texts: Sheet::new(alloc),
            letter,
            width: 0,
        }
    }

    /// Adds a text of a class with this base line.
    pub(crate) fn add(&mut self, class: &str, y: u64, words: &impl fmt::Display) {
        match format!(in self.alloc; "{words}") {
            Ok(words) => self.add_letters(class, y, words.as_str().trim_end()),
            Err(error) => self.texts.note(Err(error)),
        }
    }

    fn add_letters(&mut self, class: &str, y: u64, letters: &str) {
        let width = (letters.len() as u64).saturating_mul(self.letter);
        self.width = self.width.max(width);
        begin_part(&mut self.texts, "<text", class);
        self.texts.say(" y=\"{}\">", &[y]);
        self.texts.put(letters);
        self.texts.put("</text>\n");
    }

    /// Writes the column. At x are its right ends if the class is `left`, else its left ends.
    pub(crate) fn place(&self, out: &mut Sheet, class: &str, x: u64) {
        begin_group(out, class, x);
        out.show(&self.texts);
        end_group(out);
    }
}
