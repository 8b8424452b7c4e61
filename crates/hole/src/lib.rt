// Deletion: x is found on its way down, and the hole that its pair leaves is filled.
#![tactic(auto)]

ghost use Rattle.pools.specs.Sound.{Sound};
ghost use Rattle.hole.specs.Hole.{Hole, Freed, Deletes};

use cells::SoundPool;
use kinds::{Pair, Refusal};
use way::Place;

// Fills the hole at a place where there is a slot.
fn fill(pool: &mut [u32], hole: Place)
    requires { Hole pool.old hole.levels hole.cell }
    ensures { Freed pool.old hole.levels hole.cell pool.new }
{
    let slot = pool[hole.cell];
    let Some(son) = heirs::heir(pool, slot) else {
        heirs::release(pool, hole.cell, slot);
        return;
    };
    heirs::promote(pool, slot, son);
    fill(
        pool,
        Place {
            cell: son,
            levels: hole.levels - 1,
        },
    );
}

// Takes p out of a sound pool.
// `Sound` is required, as the pool is changed in place, and a struct that held its `&mut` would have to promise in each clause that it is
// still the same reference.
pub fn delete(pool: &mut [u32], p: Pair) -> Result<(), Refusal>
    requires { Sound pool.old }
    ensures { Deletes pool.old p result pool.new }
{
    let end = way::find(SoundPool { cells: &*pool }, p.x);
    let slot = pool[end.cell];
    if slot == 0 {
        return Err(Refusal::Missing);
    }
    let q = cells::pair(pool, slot);
    if q.y != p.y {
        return Err(Refusal::Other);
    }
    fill(pool, end);
    let left = cells::count(pool) - 1;
    cells::put_count(pool, left);
    Ok(())
}
