// Many pseudo-random calls, held to a plain list that is scanned from top to bottom: every answer, and the cells and bytes that it leaves.
#![tactic(auto)]

mod call;
mod codes;
mod counts;
mod desk;
mod draws;
mod kind;
mod lent;
mod plainly;
mod step;
mod undo;

use call::Call;
use counts::{Counts, count};
use draws::Turn;
use kind::Kind;
use lent::Lent;
use plainly::Rows;
use step::Desk;
use undo::{Undo, Undos};

// The lengths of pools.
const LENGTHS: [u32; 9] = [8, 12, 16, 24, 64, 260, 1024, 4096, 16384];

// The turns of a pool's life, and of the longest pool's.
const TURNS: u32 = 4224;

const FEW: u32 = 2;

// A difference of a fresh pool's cells, or of cells after changes are taken back, is printed with these numbers.
const FRESH: u32 = 0;

const RUN: u32 = 34;

impl Desk {
    // A turn: its call, and what is to be taken back of it. Every 128 turns a run starts.
    fn turn(&mut self, rt: &impl Print, turn: Turn) {
        if turn.0 % 128 == 0 {
            let cells = self.pool.as_slice();
            self.undos.push_start(turn, cells);
        }
        if turn.0 % 6 == 0 {
            self.refuse_one(rt, turn);
        }
        if turn.age() == 2304 && self.is_full() {
            count(&mut self.counts.filled);
        }
        if turn.age() == 3840 && self.rows.is_empty() {
            count(&mut self.counts.emptied);
        }
        let asked = self.call_at(turn);
        if let Some(back) = self.one(rt, asked, None, turn) {
            self.undos.push(turn, Undo::Back(back));
        }
    }

    // Takes back a change, or holds the pool's cells to those at the start of a run.
    fn take_back(&mut self, rt: &impl Print, turn: Turn, step: Undo) {
        match step {
            Undo::Back(asked) => {
                let _ = self.one(rt, asked, None, turn);
                count(&mut self.counts.changes);
            }
            Undo::Start => {
                let cells = self.pool.as_slice();
                let is_back = self.undos.pop_start(cells);
                self.tell(rt, RUN, is_back, turn);
                count(&mut self.counts.runs);
            }
        }
    }

    // Turns, and then their changes are taken back, last first.
    fn run(&mut self, rt: &impl Print, first: u32, n: u32) {
        for i in 0..n {
            self.turn(rt, Turn(first.wrapping_add(i)));
        }
        for _ in 0..self.undos.len() {
            if let Some((turn, step)) = self.undos.pop() {
                self.take_back(rt, turn, step);
            }
        }
    }

    // A pool is set up over anything, and checked; and turns.
    fn live(&mut self, rt: &impl Print, n: u32, first: u32, turns: u32) {
        let turn = Turn(first);
        self.pool.litter(n);
        let _ = self.one(rt, Call::new(Kind::SetUp, 0, 0, 0), None, turn);
        let is_fresh = self.pool.is_fresh(n);
        self.tell(rt, FRESH, is_fresh, turn);
        let _ = self.one(rt, Call::new(Kind::Check, 0, 0, 0), None, turn);
        self.run(rt, first, turns);
    }
}

// Pools of each length, and smaller ones again, have 4,224 turns in eleven phases; the longest has two turns.
fn lives(rt: &impl Print, desk: &mut Desk) {
    for i in 0..27 {
        let n = if i < 9 {
            LENGTHS[i as usize]
        } else {
            LENGTHS[(i % 6) as usize]
        };
        let turns = if i == 8 { FEW } else { TURNS };
        desk.live(rt, n, (i + 1) << 13, turns);
    }
}

fn main(rt: HostRuntime) {
    let mut desk = Desk {
        pool: Lent::new(),
        rows: Rows::new(),
        undos: Undos::new(),
        counts: Counts::new(),
    };
    lives(&rt, &mut desk);
    desk.counts.print(&rt);
}
