//! A case as text and as a picture.
//!
//! The verdicts don't depend on this crate. Each function is proved only to be safe and to return.
//!
//! - `show`: a case as text, each line and step in words
//! - `draw`, `Range`: a case as a picture
//!
//! Private modules:
//!
//! - `listing`: a case as text
//! - `diagram`: a case as a picture; `range`: the lines that are drawn; `fates`: what became of the lines; `callers`:
//!   hosts and bars of threads; `overdue`: what was due and is missing
//! - `labels`: what is written beside an event; `segments`: the labels of segments
//! - `layout`: the measures; `rows`: the rows of lines and of what is between them; `frame`: what is around the events;
//!   `picture`: parts in SVG
#![tactic(auto)]

mod callers;
mod diagram;
mod fates;
mod frame;
mod labels;
mod layout;
mod listing;
mod overdue;
mod picture;
mod range;
mod rows;
mod segments;

pub use diagram::draw;
pub use listing::show;
pub use range::Range;
