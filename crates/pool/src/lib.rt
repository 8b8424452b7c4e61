// The calls over a pool. Each accepts any lent cells and any numbers: the check, and then the call on the checked pool. A closure for the
// call would save a line of each and hide which call it is.
#![tactic(auto)]

ghost use Rattle.kinds.specs.Answer.{ended};
ghost use Rattle.kinds.specs.Promise.{Changes, Answers};
ghost use Rattle.sound.specs.Promises.{set_up, check};

use kinds::Refusal;

mod asking;
mod changing;
mod list;

pub use asking::{largest_x, smallest_x, smallest_y};
pub use changing::{delete, insert};
pub use list::listing;

// Lays out a pool with nothing stored, whatever its cells held.
pub fn set_up(pool: &mut [u32]) -> Result<(), Refusal>
    ensures { Changes (set_up pool.old) pool.old (ended result) pool.new }
{
    sound::set_up(pool)
}

// Says whether a pool is sound, or why it is none.
pub fn check(pool: &[u32]) -> Result<(), Refusal>
    ensures { Answers (check pool.now) pool.now (ended result) }
{
    sound::check(pool)
}
