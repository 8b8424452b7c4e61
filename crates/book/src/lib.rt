// The stored book: the check, and then the book of the checked pool. A closure for the call would save a line and hide which call it is.
#![tactic(auto)]

ghost use Rattle.kinds.specs.Answer.{ended};
ghost use Rattle.kinds.specs.Promise.{Writes};
ghost use Rattle.sound.specs.Promises.{behind_check};
ghost use Rattle.promises.specs.Promises.{saved};

use kinds::Refusal;

// Writes the stored book from the first byte on; bytes beyond it stay.
pub fn save(pool: &[u32], bytes: &mut [u8]) -> Result<(), Refusal>
    ensures { Writes (behind_check pool.now (saved pool.now bytes.old)) pool.now bytes.old (ended result) bytes.new }
{
    let pool = sound::checked(pool)?;
    answers::save(pool, bytes)
}
