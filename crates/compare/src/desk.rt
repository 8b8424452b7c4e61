// The calls of a turn, drawn, and the pools that refuse.
use crate::call::{Call, LAST};
use crate::counts::count;
use crate::draws::{Sort, Turn, below, growing, shrinking};
use crate::kind::Kind;
use crate::step::Desk;
use kinds::Refusal;

// What is put in a cell: an x in the other half of the root's stripe, the largest y, a link to the slot itself, or a bit turned over.
fn damaged(old: u32, cell: usize, drawn: u32) -> u32 {
    let turned = old ^ 1u32 << (drawn / 134217728 % 32);
    match cell % 4 {
        _ if cell < 4 => turned,
        0 => old ^ 2147483648,
        1 => u32::MAX,
        _ if drawn % 4 == 1 => u32::try_from(cell / 4).unwrap_or(0),
        _ => turned,
    }
}

impl Desk {
    // The i-th number of a call. A removal's are of one stored pair.
    fn number(&self, kind: Kind, sort: Sort, i: u32, turn: Turn) -> u32 {
        let k = match kind {
            Kind::Delete | Kind::Close => 8,
            _ => 8 | i,
        };
        let stored = self.rows.any(turn.draw(k));
        sort.number(turn.draw(i) % 32, turn.draw(4 | i), stored)
    }

    // A call of a kind; two limits are in their order but for once in 12.
    fn call_of(&self, kind: Kind, turn: Turn) -> Call {
        let [first, second, third] = kind.sorts();
        let a = self.number(kind, first, 1, turn);
        let b = self.number(kind, second, 2, turn);
        let c = self.number(kind, third, 3, turn);
        let is_limit = kind == Kind::Open || kind.is_question() && b != LAST;
        if is_limit && b < a && turn.draw(4) % 12 != 0 {
            return Call::new(kind, b, a, c);
        }
        Call::new(kind, a, b, c)
    }

    // A kind by which the pool grows or shrinks for 64 turns; it is filled in phases 1 to 4, and in 5 filled on.
    fn kind_at(&self, turn: Turn) -> Kind {
        let drawn = turn.draw(0) as usize;
        let phase = turn.phase();
        if phase == 5 || (1..5).contains(&phase) && !self.is_full() {
            return growing(drawn % 8);
        }
        if turn.age() / 64 % 2 == 0 {
            return growing(drawn % 32);
        }
        shrinking(drawn % 32)
    }

    // The call of a turn. Phases 0 and 10 begin with a way down all the levels, along the powers of 2; in 6 to 9 three of four remove a stored pair.
    pub fn call_at(&self, turn: Turn) -> Call {
        let k = turn.age() % 384;
        let phase = turn.phase();
        if phase % 10 == 0 && k < 33 {
            let power = 1u32.checked_shl(k).unwrap_or(0);
            let x = if phase == 0 { power } else { !power };
            return Call::new(Kind::Insert, x, (64 - k) % 33, 0);
        }
        if (6..10).contains(&phase) && !self.rows.is_empty() && turn.age() % 4 != 0 {
            let row = self.rows.any(turn.draw(8));
            return Call::new(Kind::Delete, row.x, row.y, 0);
        }
        self.call_of(self.kind_at(turn), turn)
    }

    // Whether a son of a slot would beat it if its y were the largest.
    fn is_beaten(&self, slot: usize) -> bool {
        let [_, _, left, right] = self.pool.slot(slot);
        let son = if left == 0 { right } else { left };
        son == u32::MAX || son != 0 && self.pool.slot(son as usize)[1] != u32::MAX
    }

    // A cell to damage; the first one where the pool might stay sound, at x of the root, and at y of a slot that no son would beat.
    fn cell_for(&self, drawn: u32) -> usize {
        let among = if drawn % 4 == 0 { 4 } else { self.pool.len };
        let cell = below(among, drawn / 4);
        let is_safe = match cell % 4 {
            0 => cell / 4 == self.pool.slot(0)[1] as usize,
            1 => !self.is_beaten(cell / 4),
            _ => false,
        };
        if 3 < cell && is_safe { 0 } else { cell }
    }

    // Makes any call on a pool of a length that is too small, too large or uneven.
    fn refuse_length(&mut self, rt: &impl Print, turn: Turn) {
        let kind = Kind::ALL[(turn.draw(14) % 17) as usize];
        let asked = self.call_of(kind, turn);
        let drawn = turn.draw(13);
        let lent = self.pool.len;
        let other = match drawn % 8 {
            0 => 0,
            1 => 4,
            2 => 16388,
            _ => below(lent, drawn / 32) | (drawn / 8 % 3 + 1) as usize,
        };
        self.pool.lend(other);
        let _ = self.one(rt, asked, Some(Refusal::Length), turn);
        self.pool.lend(lent);
        count(&mut self.counts.lengths);
    }

    // Makes a call that is no set up on a pool with a damaged cell.
    fn refuse_damaged(&mut self, rt: &impl Print, turn: Turn) {
        let kind = Kind::ALL[(turn.draw(14) % 16 + 1) as usize];
        let asked = self.call_of(kind, turn);
        let drawn = turn.draw(13);
        let cell = self.cell_for(drawn);
        let old = self.pool.at(cell);
        self.pool.put(cell, damaged(old, cell, drawn));
        let _ = self.one(rt, asked, Some(Refusal::Unsound), turn);
        self.pool.put(cell, old);
        count(&mut self.counts.damaged);
    }

    // Makes a call that is refused, by a length in one of two turns, by a damaged cell in the other.
    pub fn refuse_one(&mut self, rt: &impl Print, turn: Turn) {
        if turn.0 / 6 % 2 == 0 {
            self.refuse_length(rt, turn)
        } else {
            self.refuse_damaged(rt, turn)
        }
    }
}
