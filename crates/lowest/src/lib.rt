// Smallest y over a sound pool.
#![tactic(auto)]

ghost use Rattle.std.specs.Prelude.{◌≡◌, ◌≤◌};
ghost use Rattle.pools.specs.Cells.{root_of, tree_at};
ghost use Rattle.stripes.specs.Stripe.{all_levels, root_stripe};
ghost use Rattle.walks.specs.Walks.{smallest_y};
ghost use Rattle.places.specs.Places.{tree_here};
ghost use Rattle.questions.specs.Walking.{IsLink, Walkable, Made};
ghost use Rattle.lowest.specs.Sons.{asks, Lower, AskedSons, sons_asked};

use cells::SoundPool;
use kinds::Walked;
use places::Place;
use questions::{found_at, in_range};

// Whether a son is asked: it is there, and its side is asked.
#[tactic(auto, unfolding(crate::specs::Sons::asks))]
fn asks(son: u32, go: bool) -> bool
    ensures { result ≡ asks son go }
{
    son != 0 && go
}

// Of what the left and the right son found, the one with the smaller y; left on equal y.
#[tactic(auto, using(crate::proofs::YWalk::lower_second, crate::proofs::YWalk::lower_first, crate::proofs::YWalk::second_wins, crate::proofs::YWalk::first_wins))]
fn lower(pool: &[u32], l: u32, r: u32) -> u32
    requires { IsLink pool.now l × IsLink pool.now r }
    ensures { Lower pool.now l r result }
{
    if l == 0 {
        return r;
    }
    if r == 0 {
        return l;
    }
    let p = cells::pair(pool, l);
    let q = cells::pair(pool, r);
    if q.y < p.y {
        return r;
    }
    l
}

// The slot with the smallest y at a slot, 0 where none is in range: what is found is a link, as the lent cells have it.
#[cycle(better_son_smallest_y_at)]
fn smallest_y_at(pool: &[u32], place: Place, x0: u32, x1: u32, visits: &mut u32) -> u32
    requires { (1 ≤ place.slot) × Walkable pool.now place visits.old }
    ensures { Made pool.now visits.old (smallest_y x0 x1 place.stripe (tree_here pool.now place)) result visits.new }
{
    *visits += 1;
    if in_range(cells::pair(pool, place.slot), x0, x1) {
        return place.slot;
    }
    better_son(pool, place, x0, x1, visits)
}

// The better of the sons' answers, after the slot's own visit: each son is asked if it is there and on a side that is asked.
#[cycle(better_son_smallest_y_at)]
fn better_son(pool: &[u32], place: Place, x0: u32, x1: u32, visits: &mut u32) -> u32
    requires { (1 ≤ place.slot) × AskedSons pool.now place visits.old }
    ensures { Made pool.now visits.old (sons_asked pool.now place x0 x1) result visits.new }
{
    let to_left = asks(cells::left(pool, place.slot), place.goes_left(x0));
    let to_right = asks(cells::right(pool, place.slot), !place.goes_left(x1));
    if to_left {
        let l = smallest_y_at(pool, place.left(pool), x0, x1, visits);
        if to_right {
            let r = smallest_y_at(pool, place.right(pool), x0, x1, visits);
            return lower(pool, l, r);
        }
        return l;
    }
    if to_right {
        return smallest_y_at(pool, place.right(pool), x0, x1, visits);
    }
    0
}

// The pair with the smallest y among those with x0 ≤ x ≤ x1, on equal y the one with the smaller x.
pub fn smallest_y(pool: SoundPool<'_>, x0: u32, x1: u32) -> Walked
    ensures { result ≡ smallest_y x0 x1 root_stripe (tree_at pool.entry.cells.now all_levels (root_of pool.entry.cells.now)) }
{
    let root = Place::root(pool.cells);
    if root.slot == 0 {
        return Walked {
            finding: None,
            visits: 0,
        };
    }
    let mut visits: u32 = 0;
    let slot = smallest_y_at(pool.cells, root, x0, x1, &mut visits);
    Walked {
        finding: found_at(pool.cells, slot),
        visits,
    }
}
