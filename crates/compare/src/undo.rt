// What is to be taken back, last first.
use crate::call::Call;
use crate::draws::Turn;

// The most steps of a pool's life: 4,224 changes, and the starts of 33 runs.
const STEPS: usize = 4257;

// The most cells of all starts: of 33 runs on 4,096 cells. The longest pool has one run.
const STARTS: usize = 135168;

// A run, to the cells at its start, or a change, by another one.
#[derive(Clone, Copy)]
pub enum Undo {
    Start,
    Back(Call),
}

// The steps, and the cells at the start of each run, one behind the other.
#[derive(Drop)]
pub struct Undos {
    steps: [(Turn, Undo); STEPS],
    len: usize,
    starts: [u32; STARTS],
    used: usize,
}

impl Undos {
    pub fn new() -> Undos {
        Undos {
            steps: [(Turn(0), Undo::Start); STEPS],
            len: 0,
            starts: [0; STARTS],
            used: 0,
        }
    }

    // How many steps there are.
    pub fn len(&self) -> usize {
        self.len
    }

    // One more step. What finds no room stays undone, and shows as a difference.
    pub fn push(&mut self, turn: Turn, step: Undo) {
        if let Some(place) = self.steps.get_mut(self.len) {
            *place = (turn, step);
            self.len = self.len.wrapping_add(1);
        }
    }

    // A run starts, with these cells.
    pub fn push_start(&mut self, turn: Turn, cells: &[u32]) {
        self.push(turn, Undo::Start);
        let (_, free) = self.starts.split_at_mut(self.used.min(STARTS));
        for (place, cell) in free.iter_mut().zip(cells) {
            *place = *cell;
        }
        self.used = self.used.wrapping_add(cells.len());
    }

    // The last step, which goes.
    pub fn pop(&mut self) -> Option<(Turn, Undo)> {
        self.len = self.len.checked_sub(1)?;
        self.steps.get(self.len).copied()
    }

    // Whether the cells at the last start, which go, are these.
    pub fn pop_start(&mut self, cells: &[u32]) -> bool {
        let used = self.used.min(STARTS);
        self.used = self.used.wrapping_sub(cells.len());
        self.starts[..used].ends_with(cells)
    }
}
