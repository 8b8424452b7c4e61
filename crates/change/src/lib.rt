// The changes: each is done, or refused. `Sound` is required, as the pool is changed in place, and a struct that held its `&mut` would have
// to promise in each clause that it is still the same reference.
#![tactic(auto)]

ghost use Rattle.kinds.specs.Answer.{ended};
ghost use Rattle.pools.specs.Sound.{Sound};
ghost use Rattle.promises.specs.Promises.{insertion, deletion, opening, closing};
ghost use Rattle.promises.specs.Checked.{Changed};

use kinds::{Pair, Refusal};
use strip::Strip;

// Stores a pair.
pub fn insert(pool: &mut [u32], p: Pair) -> Result<(), Refusal>
    requires { Sound pool.old }
    ensures { Changed (insertion pool.old p) pool.old (ended result) pool.new }
{
    if down::is_stored(pool, p.x) {
        return Err(Refusal::Taken);
    }
    if cells::first_free(pool) == 0 {
        return Err(Refusal::Full);
    }
    down::insert(pool, p);
    Ok(())
}

// Takes a pair out.
#[tactic(auto, using(crate::proofs::Changed::delete_ends))]
pub fn delete(pool: &mut [u32], p: Pair) -> Result<(), Refusal>
    requires { Sound pool.old }
    ensures { Changed (deletion pool.old p) pool.old (ended result) pool.new }
{
    hole::delete(pool, p)
}

// Opens a strip: its pair is stored.
pub fn open(pool: &mut [u32], start: u32, end: u32, number: u32) -> Result<(), Refusal>
    requires { Sound pool.old }
    ensures { Changed (opening pool.old start end number) pool.old (ended result) pool.new }
{
    let strip = Strip::new(start, end, number)?;
    insert(pool, strip.pair())
}

// Closes a strip: its pair is taken out.
pub fn close(pool: &mut [u32], start: u32, end: u32, number: u32) -> Result<(), Refusal>
    requires { Sound pool.old }
    ensures { Changed (closing pool.old start end number) pool.old (ended result) pool.new }
{
    let strip = Strip::new(start, end, number)?;
    delete(pool, strip.pair())
}
