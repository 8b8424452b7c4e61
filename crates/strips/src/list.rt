// The lists of strips, into a second lent slice.
ghost use Rattle.kinds.specs.Answer.{listed};
ghost use Rattle.kinds.specs.Promise.{Writes};
ghost use Rattle.sound.specs.Promises.{behind_check};
ghost use Rattle.promises.specs.Promises.{list_covers, list_meets, list_contains};

use kinds::{Listing, Refusal};

// The strips that cover slot u.
pub fn list_covers(pool: &[u32], u: u32, out: &mut [u32]) -> Result<Listing, Refusal>
    ensures { Writes (behind_check pool.now (list_covers pool.now u out.old)) pool.now out.old (listed result) out.new }
{
    let pool = sound::checked(pool)?;
    answers::list_covers(pool, u, out)
}

// The strips that cover some slot of u..v.
pub fn list_meets(pool: &[u32], u: u32, v: u32, out: &mut [u32]) -> Result<Listing, Refusal>
    ensures { Writes (behind_check pool.now (list_meets pool.now u v out.old)) pool.now out.old (listed result) out.new }
{
    let pool = sound::checked(pool)?;
    answers::list_meets(pool, u, v, out)
}

// The strips that cover every slot of u..v.
pub fn list_contains(pool: &[u32], u: u32, v: u32, out: &mut [u32]) -> Result<Listing, Refusal>
    ensures { Writes (behind_check pool.now (list_contains pool.now u v out.old)) pool.now out.old (listed result) out.new }
{
    let pool = sound::checked(pool)?;
    answers::list_contains(pool, u, v, out)
}
