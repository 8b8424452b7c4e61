// The way down to x, from the root: at each slot a bit of x says the side.
#![tactic(auto)]

ghost use Rattle.way.specs.Way.{WayEnds};

use cells::SoundPool;
use stripes::Stripe;

// A place: the cell of its link, and the levels below it.
#[derive(Clone, Copy)]
pub struct Place {
    pub cell: usize,
    pub levels: u32,
}

// The place where x is met, or the empty one where the search for it ends.
pub fn find(pool: SoundPool<'_>, x: u32) -> Place
    ensures { WayEnds pool.entry.cells.now x result.levels result.cell }
{
    let mut cell = cells::ROOT_CELL;
    let mut levels = Stripe::LEVELS;
    // left in the middle, at an empty place or where x is met: a `for` over the levels would have an end that is never reached
    loop {
        let slot = pool.cells[cell];
        if slot == 0 {
            return Place { cell, levels };
        }
        let q = cells::pair(pool.cells, slot);
        if q.x == x {
            return Place { cell, levels };
        }
        cell = cells::link_cell(slot, Stripe::is_left(x, levels));
        levels -= 1;
    }
}
