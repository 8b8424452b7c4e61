// Insertion: x is searched for, and a pair whose x is new goes down from the root.
#![tactic(auto)]

ghost use Rattle.std.specs.Prelude.{◌≡◌};
ghost use Rattle.pools.specs.Cells.{stored};
ghost use Rattle.pools.specs.Laid.{inserted};
ghost use Rattle.plain.specs.Plain.{has_x};
ghost use Rattle.pools.specs.Sound.{Sound};
ghost use Rattle.down.specs.Down.{Enters, Going, Carried};

use cells::SoundPool;
use kinds::Pair;
use stripes::Stripe;
use way::Place;

// A pair goes down from a place: at each slot a bit of x says the side.
fn carry(pool: &mut [u32], place: Place, p: Pair)
    requires { Going pool.old place.levels place.cell p }
    ensures { Carried pool.old place.levels place.cell p pool.new }
{
    let slot = pool[place.cell];
    if slot == 0 {
        seat::take_free(pool, place.cell, p);
        return;
    }
    let beaten = seat::settle(pool, slot, p);
    let son = Place {
        cell: cells::link_cell(slot, Stripe::is_left(beaten.x, place.levels)),
        levels: place.levels - 1,
    };
    carry(pool, son, beaten);
}

// Whether x is stored, with whatever y.
pub fn is_stored(pool: &[u32], x: u32) -> bool
    requires { Sound pool.now }
    ensures { result ≡ has_x x (stored pool.now) }
{
    let end = way::find(SoundPool { cells: pool }, x);
    pool[end.cell] != 0
}

// Stores a pair whose x is new, in a pool with a free slot: it goes down from the root.
pub fn insert(pool: &mut [u32], p: Pair)
    requires { Enters pool.old p }
    ensures { pool.new ≡ inserted pool.old p }
{
    let count = cells::count(pool);
    let root = Place {
        cell: cells::ROOT_CELL,
        levels: Stripe::LEVELS,
    };
    carry(pool, root, p);
    cells::put_count(pool, count + 1);
}
