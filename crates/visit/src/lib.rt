// A visit of an x walk to a slot: the closer of its own pair and what was found so far, the stops that still wait, and the sons that are asked.
#![tactic(auto)]

ghost use Rattle.std.specs.Prelude.{◌≡◌, cond, ◌≤◌};
ghost use Rattle.pools.specs.Links.{Fits};
ghost use Rattle.questions.specs.Walking.{IsLink};
ghost use Rattle.slim.specs.Slim.{MiddleFits, stripe_by};
ghost use Rattle.visit.specs.Nearer.{Nearer};
ghost use Rattle.visit.specs.Asking.{left_asked, right_asked};

mod side;

pub use side::{Leftmost, Rightmost, Side};
use slim::Slim;

// The slot's own pair, if it is a hit, unless what was found so far is closer. What is found is a link, as the lent cells have it: 0 for none.
#[tactic(auto, using(crate::proofs::Closer::no_hit, crate::proofs::Closer::own_alone))]
pub fn closer_of<S: Side>(pool: &[u32], hit: bool, slot: u32, best: u32) -> u32
    requires { (1 ≤ slot) × Fits pool.now slot × IsLink pool.now best }
    ensures { Nearer pool.now S.closer hit slot best result }
{
    if !hit {
        return best;
    }
    if best == 0 {
        return slot;
    }
    let b = cells::pair(pool, best);
    let p = cells::pair(pool, slot);
    if S::closer(b, p) {
        return best;
    }
    slot
}

// How many stops still wait: behind a hit none, since the near son of each slot above has now given something.
pub fn still(hit: bool, wait: usize) -> usize
    ensures { result ≡ cond hit 0 wait }
{
    if hit {
        return 0;
    }
    wait
}

// The left son, if it is asked. The two tests are no mirrors: x0 is below the middle, x1 is not.
#[tactic(auto, unfolding(crate::specs::Asking::left_asked))]
pub fn left_asked(pool: &[u32], slot: u32, at: Slim, x0: u32) -> u32
    requires { Fits pool.now slot × MiddleFits at }
    ensures { result ≡ left_asked pool.now slot (stripe_by at) x0 }
{
    if at.goes_left(x0) {
        return cells::left(pool, slot);
    }
    0
}

// The right son, if it is asked.
#[tactic(auto, unfolding(crate::specs::Asking::right_asked))]
pub fn right_asked(pool: &[u32], slot: u32, at: Slim, x1: u32) -> u32
    requires { Fits pool.now slot × MiddleFits at }
    ensures { result ≡ right_asked pool.now slot (stripe_by at) x1 }
{
    if at.goes_left(x1) {
        return 0;
    }
    cells::right(pool, slot)
}
