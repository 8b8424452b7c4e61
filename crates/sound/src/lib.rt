// Set up and check: the two calls that accept any cells at all.
#![tactic(auto)]

ghost use Rattle.std.specs.Prelude.{◌≡◌, MatchResult, Err};
ghost use Rattle.kinds.specs.Answer.{ended};
ghost use Rattle.kinds.specs.Promise.{Changes, Answers};
ghost use Rattle.pools.specs.Sound.{Pool};
ghost use Rattle.pools.specs.Test.{is_sound};
ghost use Rattle.chain.specs.Judged.{verdict};
ghost use Rattle.sound.specs.Promises.{verdict_of, set_up, check};

use cells::SoundPool;
use kinds::Refusal;

// Lays out a pool with nothing stored, whatever its cells held.
pub fn set_up(pool: &mut [u32]) -> Result<(), Refusal>
    ensures { Changes (set_up pool.old) pool.old (ended result) pool.new }
{
    if fresh::is_pool(pool) {
        fresh::write_fresh(pool);
        return Ok(());
    }
    Err(Refusal::Length)
}

// The mark, the tree and the chain of a pool whose length is right.
#[tactic(auto, using(pools::proofs::Decided::true_pool), unfolding(pools::specs::Test::is_sound, pools::specs::Test::rest_fine, tree::specs::Checked::from_root, chain::specs::Judged::rest_verdict))]
fn soundness(pool: &[u32]) -> Result<(), Refusal>
    requires { Pool pool.now }
    ensures { result ≡ verdict (is_sound pool.now) }
{
    if cells::mark(pool) != cells::MARK {
        return Err(Refusal::Unsound);
    }
    let Some(size) = tree::check_root(pool) else {
        return Err(Refusal::Unsound);
    };
    chain::check_rest(pool, size)
}

// Says whether a pool is sound, or why it is none; the calls that change a sound pool begin with it.
#[tactic(auto, using(pools::proofs::Decided::pool_true), unfolding(crate::specs::Promises::verdict_of, kinds::specs::Promise::tested))]
pub fn check(pool: &[u32]) -> Result<(), Refusal>
    ensures verdict { result ≡ verdict_of pool.now }
    ensures answer { Answers (check pool.now) pool.now (ended result) }
{
    if fresh::is_pool(pool) {
        return soundness(pool);
    }
    Err(Refusal::Length)
}

// The pool as one that is known to be sound, or why it is none; the calls that go on with reading it begin with it.
pub fn checked(pool: &[u32]) -> Result<SoundPool<'_>, Refusal>
    ensures { MatchResult result (λ p. p.cells.now ≡ pool.now) (λ k. verdict_of pool.now ≡ Err k) }
{
    check(pool)?;
    Ok(SoundPool { cells: pool })
}
