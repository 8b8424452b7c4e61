// Every call on a pool that has been checked: what it refuses after 2, what it answers, what it leaves, and that the pool is sound again.
#![tactic(auto)]

pub use ask::{earliest_start, first_to_end, largest_x, last_to_end, smallest_x, smallest_y};
pub use change::{close, delete, insert, open};
pub use lend::{list_contains, list_covers, list_meets, listing, save};
