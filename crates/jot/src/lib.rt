// A match is written into the lent cells, where there is room for it.
#![tactic(auto)]

ghost use Rattle.std.specs.Prelude.{◌≡◌, ◌-◌, ◌≤◌};
ghost use Rattle.plain.specs.Plain.{in_range};
ghost use Rattle.walks.specs.Walks.{list_own, room_of};
ghost use Rattle.jot.specs.Jotting.{Put};

use kinds::{Limits, Pair};
use questions::in_range;

// The cells of a listed pair: x, y.
const PER_PAIR: usize = 2;

// How many pairs a lent slice has room for.
pub fn room_of(out: &[u32]) -> usize
    ensures { result ≡ room_of out.now }
{
    out.len() / PER_PAIR
}

// The slot's own pair, if it is in range, is written where there is room. It is counted also where there is none: a count beyond the room stops the walk.
pub fn list_own(out: &mut [u32], p: Pair, q: Limits, count: usize) -> usize
    requires { count ≤ room_of out.old }
    ensures { Put out.old count (list_own (in_range q.x0 q.x1 p) (room_of out.old - count) p) out.new result }
{
    if !in_range(p, q.x0, q.x1) {
        return count;
    }
    if room_of(out) <= count {
        return count + 1;
    }
    let at = count * PER_PAIR;
    out[at] = p.x;
    out[at + 1] = p.y;
    count + 1
}
