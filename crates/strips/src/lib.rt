// The strip calls. Each accepts any lent cells and any numbers: the check, and then the call on the checked pool.
// A closure for the call would save a line of each and hide which call it is.
#![tactic(auto)]

mod asking;
mod changing;
mod list;

pub use asking::{earliest_start, first_to_end, last_to_end};
pub use changing::{close, open};
pub use list::{list_contains, list_covers, list_meets};
