// A pool's length, and the form that set up gives it.
#![tactic(auto)]

ghost use Rattle.std.specs.Prelude.{◌≡◌};
ghost use Rattle.pools.specs.Cells.{slots_of, fresh};
ghost use Rattle.pools.specs.Sound.{Pool};
ghost use Rattle.pools.specs.Test.{is_pool};

// Whether a pool has the length that its slots and header take.
#[tactic(auto, unfolding(pools::specs::Test::is_pool))]
pub fn is_pool(pool: &[u32]) -> bool
    ensures { result ≡ is_pool pool.now }
{
    let len = pool.len();
    len % cells::PER_SLOT == 0
        && 2 * cells::PER_SLOT <= len
        && len <= (cells::MOST + 1) * cells::PER_SLOT
}

// Every slot is chained as free, in ascending order.
pub fn write_fresh(pool: &mut [u32])
    requires { Pool pool.old }
    ensures { pool.new ≡ fresh (slots_of pool.old) }
{
    let n = (pool.len() / cells::PER_SLOT - 1) as u32;
    cells::put_header(pool, 0, 1, 0);
    for slot in 1..n {
        cells::put_free(pool, slot, slot + 1);
    }
    cells::put_free(pool, n, 0);
}
