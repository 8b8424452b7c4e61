// The stripe of x that a slot owns, and its halves. What they mean is in specs/.
#![tactic(auto)]

ghost use Rattle.std.specs.Prelude.{◌≡◌, ◌≤◌, ltb};
ghost use Rattle.stripes.specs.Stripe.{low_levels, root_stripe, middle, left_part, right_part, holds};
ghost use Rattle.stripes.specs.Heights.{part_of, stripe_at};

use std::marker::Model;

// The part of the x that a slot owns: from its lower end up to its upper end, which is excluded.
#[derive(Clone, Copy)]
pub struct Stripe {
    pub lower: u64,
    pub upper: u64,
}

impl Model for Stripe {
    ghost use Rattle.std.specs.Prelude.{◌≤◌};
    ghost use Rattle.stripes.specs.Stripe.{Stripe as Part};

    ghost Value = { Part };

    ghost view = { λ s. record { lower = s.lower; upper = s.upper } };

    // Neither end is beyond the root's: their sum fits 64 bits.
    ghost invariant = { λ s. (s.lower ≤ 4294967296) × (s.upper ≤ 4294967296) };

    ghost inverse = { λ s. record { lower = s.lower; upper = s.upper } };
}

impl Stripe {
    pub const ROOT_LOWER: u64 = 0;

    pub const ROOT_UPPER: u64 = 4294967296;

    // The levels below the root.
    pub const LEVELS: u32 = 32;

    pub fn root() -> Stripe
        ensures { result ≡ root_stripe }
    {
        Stripe {
            lower: Stripe::ROOT_LOWER,
            upper: Stripe::ROOT_UPPER,
        }
    }

    // Summed in 64 bits: in 32 the sum would wrap at the root.
    pub fn middle(self) -> u64
        ensures { result ≡ middle self }
    {
        (self.lower + self.upper) / 2
    }

    pub fn left(self) -> Stripe
        ensures { result ≡ left_part self }
    {
        let m = self.middle();
        Stripe {
            lower: self.lower,
            upper: m,
        }
    }

    pub fn right(self) -> Stripe
        ensures { result ≡ right_part self }
    {
        let m = self.middle();
        Stripe {
            lower: m,
            upper: self.upper,
        }
    }

    // Whether x lies below the middle.
    pub fn goes_left(self, x: u32) -> bool
        ensures { result ≡ ltb x (middle self) }
    {
        (x as u64) < self.middle()
    }

    // The part on x's side of the middle.
    #[tactic(auto, unfolding(crate::specs::Heights::part_of))]
    pub fn towards(self, x: u32) -> Stripe
        ensures { result ≡ part_of self x }
    {
        if self.goes_left(x) {
            self.left()
        } else {
            self.right()
        }
    }

    // Whether x lies below the middle of the stripe that it lies in, with so many levels below it: its bit at that level is 0.
    pub fn is_left(x: u32, levels: u32) -> bool
        requires { (1 ≤ levels) × (levels ≤ low_levels) }
        ensures { result ≡ ltb x (middle (stripe_at levels x)) }
    {
        (x >> (levels - 1)) % 2 == 0
    }

    // Whether x lies in the stripe.
    #[tactic(auto, unfolding(crate::specs::Stripe::holds))]
    pub fn holds(self, x: u32) -> bool
        ensures { result ≡ holds self x }
    {
        let wide = x as u64;
        self.lower <= wide && wide < self.upper
    }
}
