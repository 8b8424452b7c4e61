// The listing, into a second lent slice.
ghost use Rattle.kinds.specs.Answer.{listed};
ghost use Rattle.kinds.specs.Promise.{Writes};
ghost use Rattle.sound.specs.Promises.{behind_check};
ghost use Rattle.promises.specs.Promises.{listing_asked};

use kinds::{Limits, Listing, Refusal};

// The pairs in the limits, two cells each from the slice's start, as many as it has room for.
pub fn listing(pool: &[u32], q: Limits, out: &mut [u32]) -> Result<Listing, Refusal>
    ensures { Writes (behind_check pool.now (listing_asked pool.now q out.old)) pool.now out.old (listed result) out.new }
{
    let pool = sound::checked(pool)?;
    answers::listing(pool, q, out)
}
