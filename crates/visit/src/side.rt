// The sides of the x walks: smallest x goes left first, largest x right.
ghost use Rattle.std.specs.Prelude.{◌≡◌, Bool, true, false, cond};
ghost use Rattle.kinds.specs.declared.Limits.{Limits as TheLimits};
ghost use Rattle.kinds.specs.declared.Pair.{Pair as ThePair};
ghost use Rattle.kinds.specs.declared.Walked.{Walked};
ghost use Rattle.plain.specs.Plain.{smaller, larger};
ghost use Rattle.stripes.specs.Stripe.{Stripe};
ghost use Rattle.trees.specs.Tree.{Tree};
ghost use Rattle.walks.specs.Walks.{smallest_x, largest_x};
ghost use Rattle.visit.specs.Sides.{XWalk, leftmost_walk, rightmost_walk};

use kinds::Pair;

// A walk for the pair whose x lies farthest to one side, as `XWalk` says.
pub trait Side {
    ghost walk: { TheLimits → Stripe → Tree ThePair → Walked };

    ghost closer: { ThePair → ThePair → Bool };

    ghost left_first: { Bool };

    // Whether the first pair lies closer to the side.
    fn closer(one: Pair, other: Pair) -> bool
        ensures { result ≡ closer one other };

    // Of what lies to the left and to the right, the near one, which is walked first.
    fn near<T: Copy>(left: T, right: T) -> T
        ensures { result ≡ cond left_first left right };

    // And the far one.
    fn far<T: Copy>(left: T, right: T) -> T
        ensures { result ≡ cond left_first right left };

    ghost law: { (q : TheLimits) → XWalk (walk q) closer left_first q };
}

pub struct Leftmost;

impl Side for Leftmost {
    ghost walk = { smallest_x };

    ghost closer = { smaller };

    ghost left_first = { true };

    ghost law = { leftmost_walk };

    fn closer(one: Pair, other: Pair) -> bool {
        one.x < other.x
    }

    fn near<T: Copy>(left: T, _right: T) -> T {
        left
    }

    fn far<T: Copy>(_left: T, right: T) -> T {
        right
    }
}

pub struct Rightmost;

impl Side for Rightmost {
    ghost walk = { largest_x };

    ghost closer = { larger };

    ghost left_first = { false };

    ghost law = { rightmost_walk };

    fn closer(one: Pair, other: Pair) -> bool {
        other.x < one.x
    }

    fn near<T: Copy>(_left: T, right: T) -> T {
        right
    }

    fn far<T: Copy>(left: T, _right: T) -> T {
        left
    }
}
