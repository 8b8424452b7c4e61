// The free chain's part of the check.
#![tactic(auto)]

ghost use Rattle.std.specs.Prelude.{◌≡◌};
ghost use Rattle.pools.specs.Sound.{Pool};
ghost use Rattle.pools.specs.Test.{free_fine, chain_fine};
ghost use Rattle.chain.specs.Judged.{rest_verdict};

use kinds::Refusal;

// Whether a slot's number is one of the pool's, and the slot is in the free form.
#[tactic(auto, unfolding(pools::specs::Test::free_fine, pools::specs::Cells::is_free))]
fn free_fine(pool: &[u32], slot: u32) -> bool
    ensures { result ≡ free_fine pool.now slot }
{
    if slot == 0 || pool.len() / cells::PER_SLOT <= slot as usize {
        return false;
    }
    let p = cells::pair(pool, slot);
    p.x == 0 && p.y == 0 && cells::left(pool, slot) == cells::FREE
}

// Whether the chain has exactly so many slots, each in the free form, and then ends: a loop that breaks with fine or not, as the scope has it.
fn chain_fine(pool: &[u32], first: u32, count: usize) -> bool
    ensures { result ≡ chain_fine pool.now count first }
{
    let mut slot = first;
    let mut left = count;
    loop {
        if left == 0 {
            break slot == 0;
        }
        if !free_fine(pool, slot) {
            break false;
        }
        slot = cells::right(pool, slot);
        left -= 1;
    }
}

// Whether a tree of so many slots has as many as the header says, and the chain the remaining ones; if not, the pool is not sound.
#[tactic(auto, unfolding(crate::specs::Judged::rest_verdict))]
pub fn check_rest(pool: &[u32], size: u64) -> Result<(), Refusal>
    requires { Pool pool.now }
    ensures { result ≡ rest_verdict pool.now size }
{
    let count = cells::count(pool) as usize;
    let n = pool.len() / cells::PER_SLOT - 1;
    if size == count as u64 && count <= n && chain_fine(pool, cells::first_free(pool), n - count) {
        return Ok(());
    }
    Err(Refusal::Unsound)
}
