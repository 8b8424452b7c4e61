// A slim stripe: in 32 bits, by its lower end and half of its width.
#![tactic(auto)]

ghost use Rattle.std.specs.Prelude.{◌≡◌, ltb};
ghost use Rattle.stripes.specs.Stripe.{middle};
ghost use Rattle.slim.specs.Slim.{MiddleFits, stripe_by, root_slim, left_slim, right_slim};

// No twin of `Stripe`: that has the empty halves of a single x too, of which the check's clauses speak (`from_slot`); the x walks meet their bar
// of speed with 32 bits alone.
#[derive(Clone, Copy)]
pub struct Slim {
    pub lower: u32,
    pub half: u32,
}

impl Slim {
    pub const ROOT_LOWER: u32 = 0;

    pub const ROOT_HALF: u32 = 2147483648;

    pub fn root() -> Slim
        ensures { result ≡ root_slim }
    {
        Slim {
            lower: Slim::ROOT_LOWER,
            half: Slim::ROOT_HALF,
        }
    }

    // The lower end and half of the width: a sum of 32 bits, at the root too.
    pub fn middle(self) -> u32
        requires { MiddleFits self }
        ensures { result ≡ middle (stripe_by self) }
    {
        self.lower + self.half
    }

    pub fn left(self) -> Slim
        ensures { result ≡ left_slim self }
    {
        Slim {
            lower: self.lower,
            half: self.half / 2,
        }
    }

    pub fn right(self) -> Slim
        requires { MiddleFits self }
        ensures { result ≡ right_slim self }
    {
        Slim {
            lower: self.lower + self.half,
            half: self.half / 2,
        }
    }

    // Whether x lies below the middle.
    pub fn goes_left(self, x: u32) -> bool
        requires { MiddleFits self }
        ensures { result ≡ ltb x (middle (stripe_by self)) }
    {
        x < self.middle()
    }
}
