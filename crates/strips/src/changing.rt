// Opening and closing a strip, by three numbers: any are accepted, and `Strip` is what they become.
ghost use Rattle.kinds.specs.Answer.{ended};
ghost use Rattle.kinds.specs.Promise.{Changes};
ghost use Rattle.sound.specs.Promises.{behind_check};
ghost use Rattle.promises.specs.Promises.{opening, closing};

use kinds::Refusal;

// Opens a strip: its pair is stored.
pub fn open(pool: &mut [u32], start: u32, end: u32, number: u32) -> Result<(), Refusal>
    ensures { Changes (behind_check pool.old (opening pool.old start end number)) pool.old (ended result) pool.new }
{
    sound::check(pool)?;
    answers::open(pool, start, end, number)
}

// Closes a strip: its pair is taken out.
pub fn close(pool: &mut [u32], start: u32, end: u32, number: u32) -> Result<(), Refusal>
    ensures { Changes (behind_check pool.old (closing pool.old start end number)) pool.old (ended result) pool.new }
{
    sound::check(pool)?;
    answers::close(pool, start, end, number)
}
