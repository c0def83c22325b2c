//! What follows from the definitions of the model, for every run.
//!
//! Nothing here runs: each consequence is the contract of a call that does nothing, proved on the definitions alone.
//!
//! - `laws`: what reads return, what the end means and what is acknowledged, of two recorded hosts; which segments
//!   carried what reads return, in every case; how far new data reaches, how windows change and by which profile, how
//!   states follow each other, that positions never fall, that rules are in the order of their numbers, which copies
//!   are too old, how a number is read if its position isn't known, and that the model's comparisons are equality
//! - `discarded`: discarding what may be discarded changes no rule, and nothing that is kept
//! - `strictness`: if less of congestion control is judged, all is accepted that was
//! - `levels`: every rule but three is the same at every level of congestion control
//!
//! The statements are in specs/: `Runs` has what the steps of a run show by themselves, `Consequences` what follows for
//! streams between two recorded hosts, `Carried` what follows for one host's reads in every case, `Bounds` what follows
//! for windows, `Transitions` how states and positions change, `Ascending` the rules' numbers, `HeardNumbers` how a
//! number is read, `Sameness` the comparisons, `ForgettingLaws` what may be discarded, `Judging` what follows if less
//! of congestion control is judged, and `Levels` what is the same at every level.
#![tactic(auto)]

mod discarded;
mod laws;
mod levels;
mod strictness;

pub use discarded::{forgetting_is_free, runs_forget};
pub use laws::{
    acknowledged_was_taken, end_is_whole, heard_numbers_are_read, new_data_fits,
    old_copies_are_refused, positions_never_fall, profiles_are_named, reads_were_carried,
    received_is_a_prefix, rules_ascend, sameness_is_equality, states_follow, windows_follow,
};
pub use levels::{judged_alike, recovery_is_due, refused_alike};
pub use strictness::{judged_stays, less_is_judged, runs_with_less_judged};
