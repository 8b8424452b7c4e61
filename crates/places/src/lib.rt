// Where a link of the tree leads, and where a slot's own links lead from there.
#![tactic(auto)]

ghost use Rattle.std.specs.Prelude.{◌≡◌, ◌≤◌, ltb};
ghost use Rattle.pools.specs.Links.{Fits};
ghost use Rattle.stripes.specs.Stripe.{middle, holds};
ghost use Rattle.places.specs.Places.{root_place, left_place, right_place, place_towards};

use stripes::Stripe;

// A place in the tree: the slot that a link leads to, 0 for none, the levels from there down, and the stripe of x that is owned there.
#[derive(Clone, Copy)]
pub struct Place {
    pub slot: u32,
    pub levels: u32,
    pub stripe: Stripe,
}

impl Place {
    // Where the header's link leads.
    pub fn root(pool: &[u32]) -> Place
        requires { Fits pool.now 0 }
        ensures { result ≡ root_place pool.now }
    {
        Place {
            slot: cells::root(pool),
            levels: Stripe::LEVELS + 1,
            stripe: Stripe::root(),
        }
    }

    // The left son's place, a level lower.
    pub fn left(&self, pool: &[u32]) -> Place
        requires { Fits pool.now self.now.slot × (1 ≤ self.now.levels) }
        ensures { result ≡ left_place pool.now self.now }
    {
        Place {
            slot: cells::left(pool, self.slot),
            levels: self.levels - 1,
            stripe: self.stripe.left(),
        }
    }

    // The right son's place, a level lower.
    pub fn right(&self, pool: &[u32]) -> Place
        requires { Fits pool.now self.now.slot × (1 ≤ self.now.levels) }
        ensures { result ≡ right_place pool.now self.now }
    {
        Place {
            slot: cells::right(pool, self.slot),
            levels: self.levels - 1,
            stripe: self.stripe.right(),
        }
    }

    // Whether x lies below the middle of the stripe.
    pub fn goes_left(&self, x: u32) -> bool
        ensures { result ≡ ltb x (middle self.now.stripe) }
    {
        self.stripe.goes_left(x)
    }

    // Whether x lies in the stripe.
    pub fn holds(&self, x: u32) -> bool
        ensures { result ≡ holds self.now.stripe x }
    {
        self.stripe.holds(x)
    }

    // The place of the son on x's side.
    #[tactic(auto, unfolding(crate::specs::Places::place_towards))]
    pub fn towards(&self, pool: &[u32], x: u32) -> Place
        requires { Fits pool.now self.now.slot × (1 ≤ self.now.levels) }
        ensures { result ≡ place_towards pool.now self.now x }
    {
        if self.goes_left(x) {
            self.left(pool)
        } else {
            self.right(pool)
        }
    }
}
