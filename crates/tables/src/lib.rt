//! Tables indexed by numbers that a text chooses.
//!
//! A lookup takes time logarithmic in the number of entries, whatever the numbers are. With a hash table, a text could
//! choose numbers that collide. Entries stay in the order in which they were added.
//!
//! - `hints`: where the entry of a number may be, tried before a search
//! - `queue`: items numbered one after the other, removed in any order
//! - `sorted_numbers`: numbers that rise, searched from the end
//! - `table`: a table indexed by 64-bit numbers
#![tactic(auto)]

mod hints;
mod queue;
mod sorted_numbers;
mod table;

pub use queue::Queue;
pub use table::{Mark, Table};
