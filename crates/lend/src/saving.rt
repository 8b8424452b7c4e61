// Writing the stored book.
ghost use Rattle.kinds.specs.Answer.{ended};
ghost use Rattle.kinds.specs.Promise.{Writes};
ghost use Rattle.promises.specs.Promises.{saved};

use cells::SoundPool;
use kinds::Refusal;

// The stored book from the first byte on, if there are bytes enough; bytes beyond it stay.
pub fn save(pool: SoundPool<'_>, bytes: &mut [u8]) -> Result<(), Refusal>
    ensures { Writes (saved pool.entry.cells.now bytes.old) pool.entry.cells.now bytes.old (ended result) bytes.new }
{
    let count = cells::count(pool.cells);
    if bytes.len() < pages::HEAD + pages::PER_ROW * count as usize {
        return Err(Refusal::Short);
    }
    pages::put_head(bytes, count);
    rows::put_pairs(pool.cells, bytes);
    Ok(())
}
