// The three questions for one pair.
ghost use Rattle.kinds.specs.Answer.{walked};
ghost use Rattle.kinds.specs.Promise.{Answers};
ghost use Rattle.sound.specs.Promises.{behind_check};
ghost use Rattle.promises.specs.Promises.{smallest_x_asked, largest_x_asked, smallest_y_asked};

use kinds::{Limits, Refusal, Walked};

// Of the pairs in the limits, the one with the smallest x.
pub fn smallest_x(pool: &[u32], q: Limits) -> Result<Walked, Refusal>
    ensures { Answers (behind_check pool.now (smallest_x_asked pool.now q)) pool.now (walked result) }
{
    let pool = sound::checked(pool)?;
    answers::smallest_x(pool, q)
}

// Of the pairs in the limits, the one with the largest x.
pub fn largest_x(pool: &[u32], q: Limits) -> Result<Walked, Refusal>
    ensures { Answers (behind_check pool.now (largest_x_asked pool.now q)) pool.now (walked result) }
{
    let pool = sound::checked(pool)?;
    answers::largest_x(pool, q)
}

// Of the pairs with x0 ≤ x ≤ x1, the one with the smallest y; on equal y the one with the smaller x.
pub fn smallest_y(pool: &[u32], x0: u32, x1: u32) -> Result<Walked, Refusal>
    ensures { Answers (behind_check pool.now (smallest_y_asked pool.now x0 x1)) pool.now (walked result) }
{
    let pool = sound::checked(pool)?;
    answers::smallest_y(pool, x0, x1)
}
