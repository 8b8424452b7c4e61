// Smallest and largest x over a sound pool: one loop over a side, while far sons wait as stops. A stop waits for a slot above whose near son
// has given nothing so far; slot 0 is an empty stop, where the one that came last is next.
#![tactic(auto)]

ghost use Rattle.std.specs.Prelude.{◌≡◌};
ghost use Rattle.stripes.specs.Stripe.{all_levels, root_stripe};
ghost use Rattle.pools.specs.Cells.{root_of, tree_at};
ghost use Rattle.walks.specs.Walks.{smallest_x, largest_x};

use cells::SoundPool;
use kinds::{Limits, Walked};
use questions::{found_at, in_range};
use slim::Slim;
use stripes::Stripe;
use visit::{Leftmost, Rightmost, Side};

// Room for the stops that wait: at most one for each level below the root.
const ROOM: usize = Stripe::LEVELS as usize;

// The pair with the smallest x in the limits.
pub fn smallest_x(pool: SoundPool<'_>, q: Limits) -> Walked
    ensures { result ≡ smallest_x q root_stripe (tree_at pool.entry.cells.now all_levels (root_of pool.entry.cells.now)) }
{
    outmost::<Leftmost>(pool, q)
}

// The pair with the largest x in the limits.
pub fn largest_x(pool: SoundPool<'_>, q: Limits) -> Walked
    ensures { result ≡ largest_x q root_stripe (tree_at pool.entry.cells.now all_levels (root_of pool.entry.cells.now)) }
{
    outmost::<Rightmost>(pool, q)
}

// The pair in the limits that lies farthest to the side.
fn outmost<S: Side>(pool: SoundPool<'_>, q: Limits) -> Walked
    ensures { result ≡ S.walk q root_stripe (tree_at pool.entry.cells.now all_levels (root_of pool.entry.cells.now)) }
{
    // Two rows and a count beside them: over 255 pairs a smallest x then takes 372 instructions; with one row of stops it took 445, with a
    // type of its own round the row and the count 501.
    let mut slots = [0u32; ROOM];
    let mut stripes = [Slim { lower: 0, half: 0 }; ROOM];
    let mut wait: usize = 0;
    let mut slot = cells::root(pool.cells);
    let mut at = Slim::root();
    let mut best: u32 = 0;
    let mut visits: u32 = 0;
    loop {
        if slot == 0 {
            if wait == 0 {
                break Walked {
                    finding: found_at(pool.cells, best),
                    visits,
                };
            }
            wait -= 1;
            slot = slots[wait];
            at = Slim {
                lower: stripes[wait].lower,
                half: stripes[wait].half,
            };
            continue;
        }
        visits += 1;
        let p = cells::pair(pool.cells, slot);
        if q.y1 < p.y {
            slot = 0;
            continue;
        }
        let hit = in_range(p, q.x0, q.x1);
        best = visit::closer_of::<S>(pool.cells, hit, slot, best);
        wait = visit::still(hit, wait);
        let left = visit::left_asked(pool.cells, slot, at, q.x0);
        let right = visit::right_asked(pool.cells, slot, at, q.x1);
        let near = S::near(left, right);
        let far = S::far(left, right);
        let left_part = at.left();
        let right_part = at.right();
        let near_part = S::near(left_part, right_part);
        let far_part = S::far(left_part, right_part);
        if near == 0 {
            slot = far;
            at = far_part;
            continue;
        }
        if far != 0 {
            slots[wait] = far;
            stripes[wait] = far_part;
            wait += 1;
        }
        slot = near;
        at = near_part;
    }
}
