// The questions for one pair, and for one strip: each another walk, under another promise.
#![tactic(auto)]

ghost use Rattle.kinds.specs.Answer.{walked};
ghost use Rattle.kinds.specs.Promise.{Answers};
ghost use Rattle.promises.specs.Promises.{smallest_x_asked, largest_x_asked, smallest_y_asked, first_to_end, last_to_end, earliest_start};

use cells::SoundPool;
use kinds::{Limits, Refusal, Walked};
use strip::{Slot, Slots};

// Of the pairs in the limits, the one with the smallest x.
pub fn smallest_x(pool: SoundPool<'_>, q: Limits) -> Result<Walked, Refusal>
    ensures { Answers (smallest_x_asked pool.entry.cells.now q) pool.entry.cells.now (walked result) }
{
    if q.x1 < q.x0 {
        return Err(Refusal::Backwards);
    }
    Ok(outmost::smallest_x(pool, q))
}

// Of the pairs in the limits, the one with the largest x.
pub fn largest_x(pool: SoundPool<'_>, q: Limits) -> Result<Walked, Refusal>
    ensures { Answers (largest_x_asked pool.entry.cells.now q) pool.entry.cells.now (walked result) }
{
    if q.x1 < q.x0 {
        return Err(Refusal::Backwards);
    }
    Ok(outmost::largest_x(pool, q))
}

// Of the pairs with x0 ≤ x ≤ x1, the one with the smallest y; on equal y the one with the smaller x.
pub fn smallest_y(pool: SoundPool<'_>, x0: u32, x1: u32) -> Result<Walked, Refusal>
    ensures { Answers (smallest_y_asked pool.entry.cells.now x0 x1) pool.entry.cells.now (walked result) }
{
    if x1 < x0 {
        return Err(Refusal::Backwards);
    }
    Ok(lowest::smallest_y(pool, x0, x1))
}

// The strip that covers slot u and ends first.
pub fn first_to_end(pool: SoundPool<'_>, u: u32) -> Result<Walked, Refusal>
    ensures { Answers (first_to_end pool.entry.cells.now u) pool.entry.cells.now (walked result) }
{
    let slot = Slot::new(u)?;
    Ok(outmost::smallest_x(pool, slot.covers()))
}

// The strip that covers slot u and ends last, no later than e.
pub fn last_to_end(pool: SoundPool<'_>, u: u32, e: u32) -> Result<Walked, Refusal>
    ensures { Answers (last_to_end pool.entry.cells.now u e) pool.entry.cells.now (walked result) }
{
    let slots = Slots::new(u, e)?;
    Ok(outmost::largest_x(pool, slots.last()))
}

// Of the strips that end in u..v, the one with the earliest start.
pub fn earliest_start(pool: SoundPool<'_>, u: u32, v: u32) -> Result<Walked, Refusal>
    ensures { Answers (earliest_start pool.entry.cells.now u v) pool.entry.cells.now (walked result) }
{
    let slots = Slots::new(u, v)?;
    let q = slots.last();
    Ok(lowest::smallest_y(pool, q.x0, q.x1))
}
