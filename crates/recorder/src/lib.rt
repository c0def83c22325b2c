//! Recorders: application threads call, segments are sent and arrive, timers expire, and each host's book is kept under
//! one lock.
//!
//! A `Recorder` is the recorder of one host. Its application threads have seats and make calls; three loops send
//! segments, receive them, and let timers expire. Each takes the lock for one event at a time. Whenever the lock is
//! free, the book's steps are a run of its host, and its total is the sum of the counts of all seats: that is the
//! invariant of the type under the lock (`specs/Books`). `finish` takes the seats back and returns the book; `merge`
//! makes two books into a trace and a witness that explains it.
//!
//! A program with one thread of its own at each host, over two recorders and two channels of `crossbeam_channel`:
//!
//! ```text
//! let (to_one, from_zero) = unbounded::<Flying, Global>(alloc)?;
//! let (to_zero, from_one) = unbounded::<Flying, Global>(alloc)?;
//! let zero = Recorder::new(alloc, Host::Zero, header, config, Blank::new(65_535));
//! let one = Recorder::new(alloc, Host::One, header, other_config, Blank::new(65_535));
//! let mut client = zero.seat(rt, 2)?;
//! let mut server = one.seat(rt, 3)?;
//! thread::scope(thread::scope_env(), rt, |scope| {
//!     // for each host its loops, here host 0's:
//!     scope.spawn(|| zero.pump_loop(rt, to_one, 0, TURNS));
//!     scope.spawn(|| zero.receive_loop(rt, from_one, TURNS));
//!     scope.spawn(|| zero.timer_loop(rt, TURNS));
//!     // the application threads, which call and look at what they were answered:
//!     scope.spawn(|| zero.call(rt, &mut client, Call::Connect(Host::Zero, 4000, 80)));
//!     scope.spawn(|| one.call(rt, &mut server, Call::Listen(Host::One, 80, 1)));
//!     // and once they are done: zero.stop(rt), one.stop(rt)
//! });
//! let zero = zero.finish(rt, vec![in alloc; client]?)?;
//! let one = one.finish(rt, vec![in alloc; server]?)?;
//! let Recorded { trace, witness } = merge(alloc, zero, one)?;
//! ```
//!
//! The host and header of a recorder are part of its type (`Site`): a function that has both recorders is generic over
//! two sites, and its caller picks them by `Brand`.
//!
//! - `Recorder`: the recorder of a host; `Site`: its host and header; `RecFault`, `Unfinished`, `Cause`: why a call or
//!   the end is refused
//! - `Seat`: a thread's place; `Receipt`, `receipt_stands`: what a call returned, and that the merged trace has its
//!   line
//! - `HostBook`: what one host recorded; `merge`, `Recorded`, `MergeFault`: two books as a trace and its witness
//! - `LoopEnd`: why a loop ended; `Fate`, `WireFate`, `LoseEach`: what becomes of segments in transit; `HeldBack`:
//!   those that are sent later
//!
//! Private modules:
//!
//! - `site`: the host and the header of a recorder, known from a type
//! - `host_book`: what one host recorded, with the count of its answers
//! - `seat`, `seats`, `receipt`: a thread's place, the places that are returned, and what a call was answered
//! - `desk`: the state under the lock
//! - `recorder`: seats, calls, looking, stopping, finishing
//! - `loops`: segments are sent and arrive, timers expire
//! - `fate`, `held_back`: what becomes of a segment in transit; the segments that are held back
//! - `book_merge`: the merge of two books
//!
//! Of the merge itself:
//!
//! - `order`: entries of two hosts in the order of their keys
//! - `numbers`: lines and made segments renumbered (`specs/Numbers`)
//! - `arrival_names`: which segment an arrival names (`specs/Naming`)
//! - `step_lines`: steps as lines and as steps of a witness (`specs/Saying`)
//! - `merged_case`: the two recordings become a trace and its witness
//! - `laws`: the trace and the witness written from a run fit each other (`specs/Told`), and a law connects that to
//!   what `checker` calls explained, so `check` of the merged case answers yes; each law is the contract of a call that
//!   does nothing
#![tactic(auto)]

mod arrival_names;
mod book_merge;
mod desk;
mod fate;
mod held_back;
mod host_book;
mod laws;
mod loops;
mod merged_case;
mod numbers;
mod order;
mod receipt;
mod recorder;
mod seat;
mod seats;
mod site;
mod step_lines;

pub use book_merge::merge;
pub use fate::{Fate, LoseEach, WireFate};
pub use held_back::HeldBack;
pub use host_book::HostBook;
pub use laws::{books_have_no_stranger, core_worlds_are_explained, what_is_told_explains};
pub use loops::LoopEnd;
pub use merged_case::{MergeFault, Recorded, merge_recordings};
pub use receipt::{Receipt, receipt_stands};
pub use recorder::{Cause, RecFault, Recorder, Unfinished};
pub use seat::Seat;
pub use seats::Seats;
pub use site::Site;
pub use stack_core::{Answered, CoreConfig, Flying};
