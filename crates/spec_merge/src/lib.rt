//! Two recordings of one run of the model, each made by one host, merged.
//!
//! Nothing here runs: each statement on recordings is the contract of a call that does nothing, proved on the
//! definitions alone. A recording is a book: a run of one host, with the segments delivered from the other host.
//!
//! - `laws`: two books merged are one run and have the consequences of every run, and how a book grows
//! - `specs/Books`: what one host's recorder stores
//! - `specs/Merging`, `specs/Keys`: two books joined in the order of their keys, with lines and built segments
//!   renumbered
//! - `specs/Placing`: the lines that merged steps use, and when steps are a placement of lines and a run
//! - `specs/Recordings`: the same words for the model of crate `spec_tcp`, and what may join a recording
//!
//! All but the last work with any kernel of crate `spec_network`, so no rule of TCP affects them. A contract can't
//! range over kernels, so the law for all of them is the lemma `is_placed_run` in `proofs/Merged`; `laws` states it for
//! the model. `proofs/Example` has two books of a small kernel and their merge, `proofs/TwoBooks` two of the model, and
//! `proofs/Slips` what is refused if a book or the merge falls short.
#![tactic(auto)]

mod laws;

pub use laws::{books_grow, merged_books_are_a_run, merged_books_have_the_consequences};
