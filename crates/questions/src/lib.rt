// What the walks over a sound pool share.
#![tactic(auto)]

ghost use Rattle.std.specs.Prelude.{◌≡◌};
ghost use Rattle.plain.specs.Plain.{in_range};
ghost use Rattle.questions.specs.Walking.{found_at, IsLink};

use kinds::Pair;

// What a walk has found, read from its slot.
#[tactic(auto, unfolding(crate::specs::Walking::found_at))]
pub fn found_at(pool: &[u32], slot: u32) -> Option<Pair>
    requires { IsLink pool.now slot }
    ensures { result ≡ found_at pool.now slot }
{
    if slot == 0 {
        return None;
    }
    Some(cells::pair(pool, slot))
}

// Whether the pair's x is in range.
pub fn in_range(p: Pair, x0: u32, x1: u32) -> bool
    ensures { result ≡ in_range x0 x1 p }
{
    x0 <= p.x && p.x <= x1
}
