// A pool that has been checked.
ghost use Rattle.pools.specs.Sound.{Sound};

// The cells of a sound pool: what reads them takes this, so that it need not ask.
#[derive(Clone, Copy)]
pub struct SoundPool<'a> {
    pub cells: &'a [u32],
    ghost sound: { ∥ Sound cells.now ∥₁ },
}
