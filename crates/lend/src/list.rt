// The listing and the lists of strips, into a second lent slice.
ghost use Rattle.std.specs.Prelude.{Ok};
ghost use Rattle.kinds.specs.Answer.{listed};
ghost use Rattle.kinds.specs.Promise.{Gives, Writes};
ghost use Rattle.promises.specs.Promises.{listing_asked, list_covers, list_meets, list_contains};

use cells::SoundPool;
use kinds::{Limits, Listing, Refusal};
use strip::{Slot, Slots};

// Lists the pairs in the limits, and says so: how many, whether there are more, and the visits.
fn list(pool: SoundPool<'_>, q: Limits, out: &mut [u32]) -> Listing
    ensures { Gives (listing_asked pool.entry.cells.now q out.old).made (listed (Ok result)) pool.entry.cells.now out.new }
{
    let l = listing::list(pool, out, q);
    Listing {
        count: l.count,
        more: l.more,
        visits: l.visits,
    }
}

// The pairs in the limits, two cells each from the slice's start, as many as it has room for.
pub fn listing(pool: SoundPool<'_>, q: Limits, out: &mut [u32]) -> Result<Listing, Refusal>
    ensures { Writes (listing_asked pool.entry.cells.now q out.old) pool.entry.cells.now out.old (listed result) out.new }
{
    if q.x1 < q.x0 {
        return Err(Refusal::Backwards);
    }
    Ok(list(pool, q, out))
}

// The strips that cover slot u.
pub fn list_covers(pool: SoundPool<'_>, u: u32, out: &mut [u32]) -> Result<Listing, Refusal>
    ensures { Writes (list_covers pool.entry.cells.now u out.old) pool.entry.cells.now out.old (listed result) out.new }
{
    let slot = Slot::new(u)?;
    Ok(list(pool, slot.covers(), out))
}

// The strips that cover some slot of u..v.
pub fn list_meets(pool: SoundPool<'_>, u: u32, v: u32, out: &mut [u32]) -> Result<Listing, Refusal>
    ensures { Writes (list_meets pool.entry.cells.now u v out.old) pool.entry.cells.now out.old (listed result) out.new }
{
    let slots = Slots::new(u, v)?;
    Ok(list(pool, slots.meets(), out))
}

// The strips that cover every slot of u..v.
pub fn list_contains(
    pool: SoundPool<'_>,
    u: u32,
    v: u32,
    out: &mut [u32],
) -> Result<Listing, Refusal>
    ensures { Writes (list_contains pool.entry.cells.now u v out.old) pool.entry.cells.now out.old (listed result) out.new }
{
    let slots = Slots::new(u, v)?;
    Ok(list(pool, slots.contains(), out))
}
