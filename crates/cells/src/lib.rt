// The cells of a pool, by name. Each slot, and the header, has PER_SLOT of them. Each reader is one line under its own name: one reader
// by number would put the numbers back into the calls. `Fits` is about two values, a slot's number and the cells lent, so no invariant of
// one type can hold it, and each function says it.
#![tactic(auto)]

ghost use Rattle.std.specs.Prelude.{◌≡◌, ◌*◌, set};
ghost use Rattle.pools.specs.Cells.{per_slot, mark_of, root_of, free_of, count_of, pair_at, left_at, right_at, put_pair, put_links, put_free, put_header};
ghost use Rattle.pools.specs.Links.{Fits, son_at, link_cell};

use kinds::Pair;

mod sound_pool;

pub use sound_pool::SoundPool;

pub const PER_SLOT: usize = 4;

// The most slots that a pool has.
pub const MOST: usize = 4095;

pub const MARK: u32 = 1;

// What a free slot has for its left link.
pub const FREE: u32 = 4294967295;

// The header's cells: the mark, the link to the root, the first free slot, the number of pairs.
const MARK_CELL: usize = 0;

pub const ROOT_CELL: usize = 1;

const FREE_CELL: usize = 2;

const COUNT_CELL: usize = 3;

// A slot's cells, counted from its first: x, y, and its links.
const Y: usize = 1;

const LEFT: usize = 2;

const RIGHT: usize = 3;

// The first cell of a slot.
fn start(slot: u32) -> usize
    ensures { result ≡ slot * per_slot }
{
    slot as usize * PER_SLOT
}

pub fn mark(pool: &[u32]) -> u32
    requires { Fits pool.now 0 }
    ensures { result ≡ mark_of pool.now }
{
    pool[MARK_CELL]
}

pub fn root(pool: &[u32]) -> u32
    requires { Fits pool.now 0 }
    ensures { result ≡ root_of pool.now }
{
    pool[ROOT_CELL]
}

pub fn first_free(pool: &[u32]) -> u32
    requires { Fits pool.now 0 }
    ensures { result ≡ free_of pool.now }
{
    pool[FREE_CELL]
}

pub fn count(pool: &[u32]) -> u32
    requires { Fits pool.now 0 }
    ensures { result ≡ count_of pool.now }
{
    pool[COUNT_CELL]
}

pub fn pair(pool: &[u32], slot: u32) -> Pair
    requires { Fits pool.now slot }
    ensures { result ≡ pair_at pool.now slot }
{
    let at = start(slot);
    Pair {
        x: pool[at],
        y: pool[at + Y],
    }
}

pub fn left(pool: &[u32], slot: u32) -> u32
    requires { Fits pool.now slot }
    ensures { result ≡ left_at pool.now slot }
{
    pool[start(slot) + LEFT]
}

pub fn right(pool: &[u32], slot: u32) -> u32
    requires { Fits pool.now slot }
    ensures { result ≡ right_at pool.now slot }
{
    pool[start(slot) + RIGHT]
}

// The link to the left son, or to the right one. A side is a bool, as the tests that pick it answer: a bit of x, or which pair beats.
#[tactic(auto, unfolding(pools::specs::Links::son_at))]
pub fn son(pool: &[u32], slot: u32, leftward: bool) -> u32
    requires { Fits pool.now slot }
    ensures { result ≡ son_at pool.now slot leftward }
{
    if leftward {
        left(pool, slot)
    } else {
        right(pool, slot)
    }
}

// The cell of the link to the left son, or to the right one.
#[tactic(auto, unfolding(pools::specs::Links::link_cell))]
pub fn link_cell(slot: u32, leftward: bool) -> usize
    ensures { result ≡ link_cell slot leftward }
{
    let at = start(slot);
    if leftward { at + LEFT } else { at + RIGHT }
}

pub fn put_pair(pool: &mut [u32], slot: u32, p: Pair)
    requires { Fits pool.old slot }
    ensures { pool.new ≡ put_pair pool.old slot p }
{
    let at = start(slot);
    pool[at] = p.x;
    pool[at + Y] = p.y;
}

pub fn put_links(pool: &mut [u32], slot: u32, left: u32, right: u32)
    requires { Fits pool.old slot }
    ensures { pool.new ≡ put_links pool.old slot left right }
{
    let at = start(slot);
    pool[at + LEFT] = left;
    pool[at + RIGHT] = right;
}

// The slot in the free form, pointing to the next.
pub fn put_free(pool: &mut [u32], slot: u32, next: u32)
    requires { Fits pool.old slot }
    ensures { pool.new ≡ put_free pool.old slot next }
{
    put_pair(pool, slot, Pair { x: 0, y: 0 });
    put_links(pool, slot, FREE, next);
}

pub fn put_header(pool: &mut [u32], root: u32, free: u32, count: u32)
    requires { Fits pool.old 0 }
    ensures { pool.new ≡ put_header pool.old root free count }
{
    pool[MARK_CELL] = MARK;
    pool[ROOT_CELL] = root;
    pool[FREE_CELL] = free;
    pool[COUNT_CELL] = count;
}

pub fn put_first_free(pool: &mut [u32], slot: u32)
    requires { Fits pool.old 0 }
    ensures { pool.new ≡ set pool.old 2 slot }
{
    pool[FREE_CELL] = slot;
}

pub fn put_count(pool: &mut [u32], count: u32)
    requires { Fits pool.old 0 }
    ensures { pool.new ≡ set pool.old 3 count }
{
    pool[COUNT_CELL] = count;
}
