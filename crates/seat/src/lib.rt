// What an insertion does at a slot: two pairs meet there, or the slot is taken from the free ones.
#![tactic(auto)]

ghost use Rattle.std.specs.Prelude.{◌≡◌};
ghost use Rattle.pools.specs.Links.{Fits};
ghost use Rattle.seat.specs.Seat.{Settled, Room, free_taken};

use kinds::Pair;

// Where a pair meets a slot's, the better one stays there, and the beaten one goes on.
pub fn settle(pool: &mut [u32], slot: u32, p: Pair) -> Pair
    requires { Fits pool.old slot }
    ensures { Settled pool.old slot p pool.new result }
{
    let met = cells::pair(pool, slot);
    if p.beats(met) {
        cells::put_pair(pool, slot, p);
        return met;
    }
    p
}

// The first free slot is taken for a pair, and linked from a cell.
pub fn take_free(pool: &mut [u32], cell: usize, p: Pair)
    requires { Room pool.old cell }
    ensures { pool.new ≡ free_taken pool.old cell p }
{
    let slot = cells::first_free(pool);
    let next = cells::right(pool, slot);
    cells::put_pair(pool, slot, p);
    cells::put_links(pool, slot, 0, 0);
    cells::put_first_free(pool, next);
    pool[cell] = slot;
}
