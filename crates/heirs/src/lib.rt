// What the filling of a hole does at a slot: its heir is found, whose pair moves up, or the slot is given up.
#![tactic(auto)]

ghost use Rattle.std.specs.Prelude.{◌≡◌};
ghost use Rattle.heirs.specs.Heirs.{Sons, Heirs, Promotes, promoted, Releases, released};

// The cell of the link to the son that beats the other, if there is a son.
pub fn heir(pool: &[u32], slot: u32) -> Option<usize>
    requires { Sons pool.now slot }
    ensures { Heirs pool.now slot result }
{
    let left = cells::left(pool, slot);
    let right = cells::right(pool, slot);
    match (left, right) {
        (0, 0) => None,
        (0, _) => Some(cells::link_cell(slot, false)),
        (_, 0) => Some(cells::link_cell(slot, true)),
        _ => {
            let l = cells::pair(pool, left);
            let r = cells::pair(pool, right);
            Some(cells::link_cell(slot, l.beats(r)))
        }
    }
}

// The pair of the slot that a cell links to goes into another slot.
pub fn promote(pool: &mut [u32], slot: u32, cell: usize)
    requires { Promotes pool.old slot cell }
    ensures { pool.new ≡ promoted pool.old slot cell }
{
    let q = cells::pair(pool, pool[cell]);
    cells::put_pair(pool, slot, q);
}

// The slot is unlinked, put into the free form, and becomes the first free slot, pointing to what was the first.
pub fn release(pool: &mut [u32], cell: usize, slot: u32)
    requires { Releases pool.old cell slot }
    ensures { pool.new ≡ released pool.old cell slot }
{
    let next = cells::first_free(pool);
    pool[cell] = 0;
    cells::put_free(pool, slot, next);
    cells::put_first_free(pool, slot);
}
