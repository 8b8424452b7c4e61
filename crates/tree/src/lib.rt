// The tree part of the check. A slot is tested before anything below it is looked at.
#![tactic(auto)]

ghost use Rattle.std.specs.Prelude.{◌≡◌, ◌-◌, not, ◌≤◌};
ghost use Rattle.pools.specs.Links.{Fits};
ghost use Rattle.pools.specs.Sound.{Pool};
ghost use Rattle.pools.specs.Test.{alone, slot_fine};
ghost use Rattle.stripes.specs.Stripe.{low_levels, all_levels};
ghost use Rattle.places.specs.Places.{tree_here, LeadsHere, left_place, right_place};
ghost use Rattle.tree.specs.Checked.{from_link, from_slot, from_root, SonIs};

use kinds::Pair;
use places::Place;

// What a son is found to be: no slot, one without sons, one with sons, or a fault.
#[derive(Clone, Copy)]
pub enum Son {
    Empty,
    Leaf,
    Fork,
    Bad,
}

// Whether a slot's x is met below it.
#[tactic(auto, using(crate::proofs::Sides::searched, crate::proofs::Sides::towards_leads))]
fn again(pool: &[u32], place: &Place, x: u32) -> bool
    requires { Fits pool.now place.now.slot × (1 ≤ place.now.levels) × LeadsHere pool.now (left_place pool.now place.now) × LeadsHere pool.now (right_place pool.now place.now) }
    ensures { not result ≡ alone x place.now.stripe (tree_here pool.now (left_place pool.now place.now)) (tree_here pool.now (right_place pool.now place.now)) }
{
    halving::met(pool, place.towards(pool, x), x)
}

// Whether a slot's number is one of the pool's, and its x lies in its stripe.
#[tactic(auto, unfolding(pools::specs::Test::slot_fine))]
fn slot_fine(pool: &[u32], place: &Place) -> bool
    requires { 1 ≤ place.now.slot }
    ensures { result ≡ slot_fine pool.now place.now.slot place.now.stripe }
{
    (place.slot as usize) < pool.len() / cells::PER_SLOT
        && place.holds(cells::pair(pool, place.slot).x)
}

// A son by its own tests, below a slot with the pair p.
#[tactic(auto, using(crate::specs::Checked::empty, crate::specs::Checked::leaf, crate::specs::Checked::branch, crate::proofs::Sons::bad_deep, crate::proofs::Sons::bad_in_slot, crate::proofs::Sons::bad_in_order, crate::proofs::Sons::fine_fits))]
fn look_at_son(pool: &[u32], p: Pair, son: &Place) -> Son
    ensures { SonIs pool.now son.now.levels p son.now.slot son.now.stripe result }
{
    let slot = son.slot;
    if slot == 0 {
        return Son::Empty;
    }
    if son.levels == 0 || !slot_fine(pool, son) || !p.beats(cells::pair(pool, slot)) {
        return Son::Bad;
    }
    if cells::left(pool, slot) == 0 && cells::right(pool, slot) == 0 {
        return Son::Leaf;
    }
    Son::Fork
}

// The slots from a slot down whose own tests have passed, or nothing where one is faulty.
#[tactic(auto, using(crate::proofs::Counting::left_faulty, crate::proofs::Counting::right_faulty, crate::proofs::Counting::again_faulty, crate::proofs::Counting::both_counted, crate::proofs::Counting::few_counted, crate::proofs::Counting::may_search))]
#[cycle(check_slot_check_son)]
fn check_slot(pool: &[u32], place: &Place) -> Option<u64>
    requires { Fits pool.now place.now.slot × (1 ≤ place.now.levels) × (place.now.levels ≤ all_levels) }
    ensures { result ≡ from_slot pool.now (place.now.levels - 1) place.now.slot place.now.stripe }
{
    let p = cells::pair(pool, place.slot);
    let left = place.left(pool);
    let right = place.right(pool);
    let a = check_son(pool, p, &left)?;
    let b = check_son(pool, p, &right)?;
    if again(pool, place, p.x) {
        return None;
    }
    Some(a + b + 1)
}

// The same from a son's place down.
#[tactic(auto, using(crate::proofs::Counting::son_empty, crate::proofs::Counting::son_leaf, crate::proofs::Counting::son_bad, crate::proofs::Counting::son_fork, crate::proofs::Counting::fork_there))]
#[cycle(check_slot_check_son)]
fn check_son(pool: &[u32], p: Pair, son: &Place) -> Option<u64>
    requires { son.now.levels ≤ low_levels }
    ensures { result ≡ from_link pool.now son.now.levels p son.now.slot son.now.stripe }
{
    match look_at_son(pool, p, son) {
        Son::Empty => Some(0),
        Son::Leaf => Some(1),
        Son::Fork => check_slot(pool, son),
        Son::Bad => None,
    }
}

// The same from the root down: it has no father.
#[tactic(auto, using(crate::proofs::Sons::fine_fits, pools::proofs::Leads::tree_none, pools::proofs::Leads::tree_fork), unfolding(crate::specs::Checked::from_root, crate::specs::Checked::from_slot, pools::specs::Test::root_fine))]
pub fn check_root(pool: &[u32]) -> Option<u64>
    requires { Pool pool.now }
    ensures { result ≡ from_root pool.now }
{
    let root = Place::root(pool);
    if root.slot == 0 {
        return Some(0);
    }
    if !slot_fine(pool, &root) {
        return None;
    }
    check_slot(pool, &root)
}
