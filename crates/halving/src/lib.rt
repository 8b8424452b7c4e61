// The search for x below a slot, by halving the stripe that it is in.
#![tactic(auto)]

ghost use Rattle.std.specs.Prelude.{◌≡◌};
ghost use Rattle.trees.specs.Changes.{met};
ghost use Rattle.trees.specs.Tree.{itself};
ghost use Rattle.places.specs.Places.{tree_here, LeadsHere};

use places::Place;

// Whether x is met from a place down, looked for by halving the stripe.
pub fn met(pool: &[u32], place: Place, x: u32) -> bool
    requires { LeadsHere pool.now place }
    ensures { result ≡ met itself x place.stripe (tree_here pool.now place) }
{
    let mut here = place;
    while here.slot != 0 {
        let p = cells::pair(pool, here.slot);
        if p.x == x {
            return true;
        }
        here = here.towards(pool, x);
    }
    false
}
