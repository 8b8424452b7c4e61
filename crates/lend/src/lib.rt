// The calls on a checked pool that write into a second lent slice.
#![tactic(auto)]

mod list;
mod saving;

pub use list::{list_contains, list_covers, list_meets, listing};
pub use saving::save;
