// The listing over a sound pool: the walk counts the matches met so far, which is the place of the next one.
#![tactic(auto)]

ghost use Rattle.std.specs.Prelude.{false, cond, [], ◌-◌, ◌≤◌, ltb};
ghost use Rattle.pools.specs.Cells.{root_of, tree_at};
ghost use Rattle.pools.specs.Links.{Fits};
ghost use Rattle.stripes.specs.Stripe.{all_levels, root_stripe, middle, left_part};
ghost use Rattle.walks.specs.Walks.{list_walked, listing, room_of};
ghost use Rattle.places.specs.Places.{tree_here, left_place};
ghost use Rattle.questions.specs.Walking.{Walkable};
ghost use Rattle.listing.specs.Listing.{Lists, Lent};

use cells::SoundPool;
use jot::{list_own, room_of};
use kinds::{Limits, Listing};
use places::Place;

// The listing at a slot. The count is the place of the next match: it goes on from the own pair to the left son, and then down to the right one.
#[cycle(list_at_list_left)]
fn list_at(
    pool: &[u32],
    out: &mut [u32],
    place: Place,
    q: &Limits,
    count: usize,
    visits: &mut u32,
) -> usize
    requires { (1 ≤ place.slot) × Walkable pool.now place visits.old × (count ≤ room_of out.old) }
    ensures { Lists out.old count visits.old (listing q.now place.stripe (tree_here pool.now place) (room_of out.old - count)) out.new result visits.new }
{
    let mut here = place;
    let mut listed = count;
    loop {
        *visits += 1;
        let p = cells::pair(pool, here.slot);
        if q.y1 < p.y {
            break listed;
        }
        let room = room_of(out);
        let own = list_own(out, p, *q, listed);
        if room < own {
            break own;
        }
        let l = list_left(pool, out, here, q, own, visits);
        if room < l {
            break l;
        }
        if here.goes_left(q.x1) {
            break l;
        }
        let right = here.right(pool);
        if right.slot == 0 {
            break l;
        }
        listed = l;
        here = right;
    }
}

// The listing at the left son of a slot, if the son is asked and there: only then is its place made.
#[cycle(list_at_list_left)]
fn list_left(
    pool: &[u32],
    out: &mut [u32],
    place: Place,
    q: &Limits,
    count: usize,
    visits: &mut u32,
) -> usize
    requires { Fits pool.now place.slot × (1 ≤ place.levels) × Walkable pool.now (left_place pool.now place) visits.old × (count ≤ room_of out.old) }
    ensures { Lists out.old count visits.old (cond (ltb q.now.x0 (middle place.stripe)) (listing q.now (left_part place.stripe) (tree_here pool.now (left_place pool.now place)) (room_of out.old - count)) (list_walked [] false 0)) out.new result visits.new }
{
    if !place.goes_left(q.x0) {
        return count;
    }
    if cells::left(pool, place.slot) == 0 {
        return count;
    }
    list_at(pool, out, place.left(pool), q, count, visits)
}

// Lists the pairs with x0 ≤ x ≤ x1 and y ≤ y1 into a lent slice, from its start, as far as there is room.
pub fn list(pool: SoundPool<'_>, out: &mut [u32], q: Limits) -> Listing
    ensures { Lent out.old (listing q root_stripe (tree_at pool.entry.cells.now all_levels (root_of pool.entry.cells.now)) (room_of out.old)) out.new result }
{
    let root = Place::root(pool.cells);
    if root.slot == 0 {
        return Listing {
            count: 0,
            more: false,
            visits: 0,
        };
    }
    let mut visits: u32 = 0;
    let room = room_of(out);
    let count = list_at(pool.cells, out, root, &q, 0, &mut visits);
    let more = room < count;
    Listing {
        count: if more { room as u32 } else { count as u32 },
        more,
        visits,
    }
}
