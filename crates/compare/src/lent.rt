// The cells that are lent as a pool, and what they held before a call.
use crate::draws::draw;

// The most cells that are lent: those of the longest pool, and of one more slot.
pub const MOST: usize = 16388;

#[derive(Drop)]
pub struct Lent {
    pub cells: [u32; MOST],
    before: [u32; MOST],
    pub len: usize,
}

// The four cells of a slot of a fresh pool, of so many slots.
fn fresh(slot: u32, slots: u32) -> [u32; 4] {
    match slot {
        0 => [1, 0, 1, 0],
        _ if slot == slots.wrapping_sub(1) => [0, 0, u32::MAX, 0],
        _ => [0, 0, u32::MAX, slot.wrapping_add(1)],
    }
}

impl Lent {
    pub fn new() -> Lent {
        Lent {
            cells: [0; MOST],
            before: [0; MOST],
            len: 0,
        }
    }

    // The cells.
    pub fn as_slice(&self) -> &[u32] {
        &self.cells[..self.len.min(MOST)]
    }

    // Lends so many cells.
    pub fn lend(&mut self, len: usize) {
        self.len = len;
    }

    // Lends cells that are filled with anything at all.
    pub fn litter(&mut self, n: u32) {
        for i in 0..n {
            self.put(i as usize, draw(i, 0));
        }
        self.lend(n as usize);
    }

    // Writes a cell.
    pub fn put(&mut self, i: usize, value: u32) {
        if let Some(cell) = self.cells.get_mut(i) {
            *cell = value;
        }
    }

    // What a cell holds.
    pub fn at(&self, i: usize) -> u32 {
        self.as_slice().get(i).copied().unwrap_or(0)
    }

    // The four cells of a slot: x, y, and two links. Before the first one the second cell is the root, the last one the count.
    pub fn slot(&self, i: usize) -> [u32; 4] {
        let (slots, _) = self.as_slice().as_chunks::<4>();
        slots.get(i).copied().unwrap_or_default()
    }

    // Whether the cells are those of a fresh pool of n cells.
    pub fn is_fresh(&self, n: u32) -> bool {
        (0..n / 4).all(|i| self.slot(i as usize) == fresh(i, n / 4))
    }

    // Keeps what the cells hold.
    pub fn keep(&mut self) {
        let len = self.len.min(MOST);
        let cells = &self.cells[..len];
        let before = &mut self.before[..];
        before[..len].copy_from_slice(cells);
    }

    // Whether the cells hold what was kept.
    pub fn is_kept(&self) -> bool {
        let len = self.len.min(MOST);
        self.cells[..len] == self.before[..len]
    }
}
