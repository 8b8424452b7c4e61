// One call on the pool, and the same on the plain list.
use crate::call::Call;
use crate::codes::{DONE, MORE, NOTHING, code_of};
use crate::counts::{Counts, count};
use crate::draws::Turn;
use crate::kind::Kind;
use crate::lent::{Lent, MOST};
use crate::plainly::Rows;
use crate::undo::Undos;
use kinds::{Answer, Five, Limits, Pair, Refusal};

// What the cells for a listing hold before it, and the bytes for a book.
const UNWRITTEN: u32 = 2779096485;

const BLANK: u8 = 238;

// How many cells there are for a listing, and bytes for a book. Fewer of them are lent.
const CELLS: usize = 2048;

const BYTES: usize = 8192;

// The pool, the list of the pairs that it is to hold, what is to be taken back, and the counts.
#[derive(Drop)]
pub struct Desk {
    pub pool: Lent,
    pub rows: Rows,
    pub undos: Undos,
    pub counts: Counts,
}

// The cells or bytes that a call needs beside the pool, and those that are lent.
#[derive(Clone, Copy)]
struct Room {
    need: usize,
    lent: usize,
}

impl Room {
    fn is_short(self) -> bool {
        self.lent < self.need
    }
}

// What a call is to tell, by its numbers, as a caller in C is told.
#[derive(Clone, Copy, PartialEq, Eq)]
struct Told {
    code: u32,
    x: u32,
    y: u32,
    shown: usize,
}

impl Told {
    fn code(code: u32) -> Told {
        Told {
            code,
            x: 0,
            y: 0,
            shown: 0,
        }
    }
}

impl From<Five> for Told {
    fn from(five: Five) -> Told {
        Told {
            code: five.code,
            x: five.x,
            y: five.y,
            shown: five.count as usize,
        }
    }
}

// What a call told, and whether it wrote what it is to.
#[derive(Clone, Copy)]
struct Made {
    five: Five,
    is_written: bool,
}

// Makes a call on a pool, with cells for a listing and bytes for a book.
fn answer(lent: &mut Lent, out: &mut [u32], bytes: &mut [u8], asked: Call) -> Five {
    let pool = &mut lent.cells[..lent.len.min(MOST)];
    let Call { kind, a, b, c } = asked;
    let p = Pair { x: a, y: b };
    let q = Limits {
        x0: a,
        x1: b,
        y1: c,
    };
    let told: Answer = match kind {
        Kind::SetUp => pool::set_up(pool).into(),
        Kind::Check => pool::check(pool).into(),
        Kind::Save => book::save(pool, bytes).into(),
        Kind::Insert => pool::insert(pool, p).into(),
        Kind::Delete => pool::delete(pool, p).into(),
        Kind::Open => strips::open(pool, a, b, c).into(),
        Kind::Close => strips::close(pool, a, b, c).into(),
        Kind::SmallestX => pool::smallest_x(pool, q).into(),
        Kind::LargestX => pool::largest_x(pool, q).into(),
        Kind::SmallestY => pool::smallest_y(pool, a, b).into(),
        Kind::FirstToEnd => strips::first_to_end(pool, a).into(),
        Kind::LastToEnd => strips::last_to_end(pool, a, b).into(),
        Kind::EarliestStart => strips::earliest_start(pool, a, b).into(),
        Kind::Listing => pool::listing(pool, q, out).into(),
        Kind::ListCovers => strips::list_covers(pool, a, out).into(),
        Kind::ListMeets => strips::list_meets(pool, a, b, out).into(),
        Kind::ListContains => strips::list_contains(pool, a, b, out).into(),
    };
    told.into()
}

// What is lent for a need: as much, a half, a quarter and so on, or one more or less; or more than enough.
fn lent_for(need: usize, drawn: u32) -> usize {
    match drawn % 8 {
        7 => usize::MAX,
        part => (need >> part)
            .wrapping_add(drawn as usize / 8 % 3)
            .wrapping_sub(1),
    }
}

// Whether a question that is not refused visits the root, if there is one, no slot twice, and keeps to its bound; and no other call visits.
fn is_bounded(visits: usize, kind: Kind, told: Told, stored: usize) -> bool {
    let is_answered = matches!(told.code, DONE | NOTHING | MORE);
    let bound = if kind.is_question() && is_answered {
        told.shown.wrapping_mul(2).wrapping_add(127)
    } else {
        0
    };
    let most = stored.min(bound);
    visits <= most && (visits == 0) == (most == 0)
}

impl Desk {
    // Whether each slot but the first one holds a pair.
    pub fn is_full(&self) -> bool {
        (self.pool.len / 4).saturating_sub(1) <= self.rows.len()
    }

    // The room that a call needs, and is lent.
    fn room(&self, asked: Call, turn: Turn) -> Room {
        let drawn = turn.draw(12);
        match asked.kind {
            Kind::Save => {
                let need = self.rows.len().wrapping_mul(8).wrapping_add(5);
                let lent = lent_for(need, drawn) % BYTES;
                Room { need, lent }
            }
            kind if kind.is_listing() => {
                let need = self.rows.count(asked).wrapping_mul(2);
                let lent = lent_for(need, drawn) % CELLS;
                Room { need, lent }
            }
            _ => Room { need: 0, lent: 0 },
        }
    }

    // How a change ends that its own numbers do not refuse.
    fn change(&self, asked: Call) -> Result<(), Refusal> {
        let row = asked.row();
        let there = self.rows.get(row.x);
        match asked.kind {
            Kind::Insert | Kind::Open => match there {
                Some(_) => Err(Refusal::Taken),
                None if self.is_full() => Err(Refusal::Full),
                None => Ok(()),
            },
            Kind::Delete | Kind::Close => match there {
                Some(there) if there.y == row.y => Ok(()),
                Some(_) => Err(Refusal::Other),
                None => Err(Refusal::Missing),
            },
            _ => Ok(()),
        }
    }

    // What a call is to tell that neither the pool nor its own numbers refuse.
    fn told(&self, asked: Call, room: Room) -> Told {
        match asked.kind {
            Kind::Check => Told::code(DONE),
            Kind::Save if room.is_short() => Told::code(code_of(Err(Refusal::Short))),
            Kind::Save => Told::code(DONE),
            kind if kind.is_change() => Told::code(code_of(self.change(asked))),
            kind if kind.is_listing() => Told {
                code: if room.is_short() { MORE } else { DONE },
                x: 0,
                y: 0,
                shown: room.need.min(room.lent) / 2,
            },
            _ => match self.rows.best(asked) {
                Some(row) => Told {
                    code: DONE,
                    x: row.x,
                    y: row.y,
                    shown: 0,
                },
                None => Told::code(NOTHING),
            },
        }
    }

    // A call that is lent no more than the pool.
    fn made(&mut self, asked: Call) -> Made {
        Made {
            five: answer(&mut self.pool, &mut [], &mut [], asked),
            is_written: true,
        }
    }

    // A save, and whether the bytes are the list's book, and beyond it as they were.
    fn saved(&mut self, asked: Call, room: Room, told: Told) -> Made {
        let mut bytes = [BLANK; BYTES];
        let lent = room.lent.min(BYTES);
        let five = answer(&mut self.pool, &mut [], &mut bytes[..lent], asked);
        let is_done = told.code == DONE;
        let written = if is_done { room.need.min(BYTES) } else { 0 };
        let (book, rest) = bytes.split_at(written);
        let is_written = is_done == self.rows.is_book(book)
            && rest.iter().all(|byte| *byte == BLANK);
        Made { five, is_written }
    }

    // A listing, and whether the cells hold as many pairs as it is to show, and beyond them what they held.
    fn listed(&mut self, asked: Call, room: Room, told: Told) -> Made {
        let mut out = [UNWRITTEN; CELLS];
        let lent = room.lent.min(CELLS);
        let five = answer(&mut self.pool, &mut out[..lent], &mut [], asked);
        let shown = told.shown.wrapping_mul(2).min(CELLS);
        let (shown, rest) = out.split_at(shown);
        let (pairs, _) = shown.as_chunks::<2>();
        let is_written = self.rows.lists(asked, pairs)
            && rest.iter().all(|cell| *cell == UNWRITTEN);
        Made { five, is_written }
    }

    // Says by a number and the turn that a thing is not right, and counts it.
    pub fn tell(&mut self, rt: &impl Print, number: u32, is_right: bool, turn: Turn) {
        if !is_right {
            count(&mut self.counts.differences);
            let turn = turn.0;
            let _ = println!(rt; "{number} differs in turn {turn}");
        }
    }

    // Makes a call on the pool, of which the health is what refuses it, and the same on the list, and compares.
    // Gives the change that takes it back, if it is a change that is done.
    pub fn one(
        &mut self,
        rt: &impl Print,
        asked: Call,
        health: Option<Refusal>,
        turn: Turn,
    ) -> Option<Call> {
        let kind = asked.kind;
        let room = self.room(asked, turn);
        let told = match health.or(asked.refusal()) {
            Some(refusal) => Told::code(code_of(Err(refusal))),
            None => self.told(asked, room),
        };
        self.pool.keep();
        let made = match kind {
            Kind::Save => self.saved(asked, room, told),
            kind if kind.is_listing() => self.listed(asked, room, told),
            _ => self.made(asked),
        };
        let is_done = kind.is_change() && told.code == DONE;
        let back = if is_done { asked.reversed() } else { None };
        if back.is_some() {
            self.rows.update(asked.row());
        }
        let is_left = if is_done {
            self.pool.slot(0)[3] as usize == self.rows.len()
        } else {
            self.pool.is_kept()
        };
        let is_told = Told::from(made.five) == told
            && is_bounded(made.five.visits as usize, kind, told, self.rows.len());
        self.counts.call(kind, made.five.code);
        self.tell(rt, kind as u32, is_told && is_left && made.is_written, turn);
        back
    }
}
