// The questions for one strip.
ghost use Rattle.kinds.specs.Answer.{walked};
ghost use Rattle.kinds.specs.Promise.{Answers};
ghost use Rattle.sound.specs.Promises.{behind_check};
ghost use Rattle.promises.specs.Promises.{first_to_end, last_to_end, earliest_start};

use kinds::{Refusal, Walked};

// The strip that covers slot u and ends first.
pub fn first_to_end(pool: &[u32], u: u32) -> Result<Walked, Refusal>
    ensures { Answers (behind_check pool.now (first_to_end pool.now u)) pool.now (walked result) }
{
    let pool = sound::checked(pool)?;
    answers::first_to_end(pool, u)
}

// The strip that covers slot u and ends last, no later than e.
pub fn last_to_end(pool: &[u32], u: u32, e: u32) -> Result<Walked, Refusal>
    ensures { Answers (behind_check pool.now (last_to_end pool.now u e)) pool.now (walked result) }
{
    let pool = sound::checked(pool)?;
    answers::last_to_end(pool, u, e)
}

// Of the strips that end in u..v, the one with the earliest start.
pub fn earliest_start(pool: &[u32], u: u32, v: u32) -> Result<Walked, Refusal>
    ensures { Answers (behind_check pool.now (earliest_start pool.now u v)) pool.now (walked result) }
{
    let pool = sound::checked(pool)?;
    answers::earliest_start(pool, u, v)
}
