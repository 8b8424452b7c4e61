// The rows of the stored book, out of a sound pool.
#![tactic(auto)]

ghost use Rattle.std.specs.Prelude.{◌≡◌, ◌≤◌, length};
ghost use Rattle.pools.specs.Cells.{stored};
ghost use Rattle.plain.specs.Plain.{limits, smallest_x_of};
ghost use Rattle.kinds.specs.Placed.{placed};
ghost use Rattle.pools.specs.Sound.{Sound};
ghost use Rattle.pages.specs.Book.{version_one, body, by_x, bytes_for};
ghost use Rattle.pages.specs.Writing.{head_bytes};

use cells::SoundPool;
use kinds::{Limits, Pair};

// The largest x, and the largest y.
const LAST: u32 = 4294967295;

// The stored pair with the smallest x from x0 on.
fn first_from(pool: SoundPool<'_>, x0: u32) -> Option<Pair>
    ensures { result ≡ smallest_x_of (limits x0 LAST LAST) (stored pool.entry.cells.now) }
{
    let q = Limits {
        x0,
        x1: LAST,
        y1: LAST,
    };
    outmost::smallest_x(pool, q).finding
}

// A row for each of the stored pairs, by ascending x: the next is the one with the smallest x above the last one's.
// It takes the cells themselves: that each is a word of 32 bits is known of a slice that is a parameter, and not of one in a struct.
pub fn put_pairs(pool: &[u32], bytes: &mut [u8])
    requires { Sound pool.now × (bytes_for version_one (length (stored pool.now)) ≤ length bytes.old) }
    ensures { bytes.new ≡ placed bytes.old head_bytes (body version_one (by_x (stored pool.now))) }
{
    let mut at = pages::HEAD;
    let mut x0: u32 = 0;
    while let Some(p) = first_from(SoundPool { cells: pool }, x0) {
        pages::put_row(bytes, at, p);
        if p.x == LAST {
            break;
        }
        at += pages::PER_ROW;
        x0 = p.x + 1;
    }
}
