// Insert and delete.
ghost use Rattle.kinds.specs.Answer.{ended};
ghost use Rattle.kinds.specs.Promise.{Changes};
ghost use Rattle.sound.specs.Promises.{behind_check};
ghost use Rattle.promises.specs.Promises.{insertion, deletion};

use kinds::{Pair, Refusal};

// Stores a pair.
pub fn insert(pool: &mut [u32], p: Pair) -> Result<(), Refusal>
    ensures { Changes (behind_check pool.old (insertion pool.old p)) pool.old (ended result) pool.new }
{
    sound::check(pool)?;
    answers::insert(pool, p)
}

// Takes a pair out.
pub fn delete(pool: &mut [u32], p: Pair) -> Result<(), Refusal>
    ensures { Changes (behind_check pool.old (deletion pool.old p)) pool.old (ended result) pool.new }
{
    sound::check(pool)?;
    answers::delete(pool, p)
}
