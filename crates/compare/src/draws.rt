// Pseudo-random numbers, the same on every machine.
use crate::call::LAST;
use crate::kind::Kind;
use kinds::Pair;

// A turn: a number, from which all that is drawn in it comes.
#[derive(Clone, Copy)]
pub struct Turn(pub u32);

impl Turn {
    // The k-th number of the turn, of up to 16.
    pub fn draw(self, k: u32) -> u32 {
        draw(self.0, k)
    }

    // How many turns of the pool's life went before.
    pub fn age(self) -> u32 {
        self.0 % 8192
    }

    // The phase of the pool's life.
    pub fn phase(self) -> u32 {
        self.age() / 384
    }
}

// The k-th number that is drawn by a number.
pub fn draw(n: u32, k: u32) -> u32 {
    mixed(mixed(n << 4 | k))
}

fn mixed(n: u32) -> u32 {
    let m = n.wrapping_mul(2654435769);
    m.wrapping_add(m / 32768)
}

// A number below n, or 0.
pub fn below(n: usize, drawn: u32) -> usize {
    if n == 0 { 0 } else { drawn as usize % n }
}

// The number before, the number itself or the next one.
fn beside(n: u32, drawn: u32) -> u32 {
    n.wrapping_add(drawn % 3).wrapping_sub(1)
}

// The sorts of number that a call has.
#[derive(Clone, Copy)]
pub enum Sort {
    X,
    Y,
    Slot,
    StoredX,
    StoredY,
    StoredEnd,
    StoredNumber,
    LastSlot,
}

impl Sort {
    // A number by one of 32 chances, drawn; or of a stored pair, or beside its x.
    pub fn number(self, chance: u32, drawn: u32, stored: Pair) -> u32 {
        match self {
            Sort::X => any_x(chance, drawn, stored),
            Sort::Y => any_y(chance, drawn, stored),
            Sort::Slot => any_slot(chance, drawn, stored),
            Sort::StoredX => match chance {
                0..=30 => stored.x,
                _ => drawn,
            },
            Sort::StoredY => stored_y(chance, drawn, stored),
            Sort::StoredEnd => stored_half(stored.x / 65536, chance, drawn),
            Sort::StoredNumber => stored_half(stored.x % 65536, chance, drawn),
            Sort::LastSlot => LAST,
        }
    }
}

fn any_x(chance: u32, drawn: u32, stored: Pair) -> u32 {
    match chance {
        0..=3 => beside(1 << (drawn % 32), drawn / 32),
        4..=7 => beside(u32::MAX << (drawn % 32), drawn / 32),
        8..=10 => stored.x,
        11..=14 => beside(stored.x, drawn),
        15..=16 => drawn % 40,
        _ => drawn,
    }
}

fn any_y(chance: u32, drawn: u32, stored: Pair) -> u32 {
    match chance {
        0..=3 => 0,
        4..=7 => u32::MAX,
        8..=15 => drawn % 4,
        16..=19 => stored.y,
        20..=23 => drawn % 65536,
        _ => drawn,
    }
}

fn any_slot(chance: u32, drawn: u32, stored: Pair) -> u32 {
    match chance {
        0 => 0,
        1 => LAST,
        2..=3 => LAST + 1,
        4 => drawn,
        5..=6 => drawn % 65536,
        7..=14 => stored.x / 65536,
        _ => drawn % 40,
    }
}

fn stored_y(chance: u32, drawn: u32, stored: Pair) -> u32 {
    match chance {
        0..=12 => stored.y,
        13 => 0,
        14 => u32::MAX,
        15..=18 => drawn % 4,
        19..=22 => drawn % 40,
        23..=26 => drawn % 65536,
        _ => drawn,
    }
}

fn stored_half(half: u32, chance: u32, drawn: u32) -> u32 {
    match chance {
        0..=29 => half,
        30 => drawn % 40,
        _ => drawn % 65536,
    }
}

impl Kind {
    // The sorts of a call's three numbers.
    pub fn sorts(self) -> [Sort; 3] {
        match self {
            Kind::SetUp | Kind::Check | Kind::Save | Kind::SmallestY => [Sort::X, Sort::X, Sort::X],
            Kind::Insert => [Sort::X, Sort::Y, Sort::X],
            Kind::Delete => [Sort::StoredX, Sort::StoredY, Sort::X],
            Kind::Close => [Sort::StoredY, Sort::StoredEnd, Sort::StoredNumber],
            Kind::SmallestX | Kind::LargestX => [Sort::X, Sort::X, Sort::Y],
            Kind::Listing => [Sort::X, Sort::X, Sort::StoredY],
            Kind::FirstToEnd | Kind::ListCovers => [Sort::Slot, Sort::LastSlot, Sort::X],
            Kind::Open => [Sort::Slot, Sort::Slot, Sort::Slot],
            Kind::LastToEnd | Kind::EarliestStart | Kind::ListMeets | Kind::ListContains => {
                [Sort::Slot, Sort::Slot, Sort::X]
            }
        }
    }
}

// A kind by one of 32 chances, by which a pool grows.
pub fn growing(chance: usize) -> Kind {
    match chance {
        0..=3 | 8..=11 => Kind::Insert,
        4..=7 | 12..=13 => Kind::Open,
        14..=17 => Kind::Delete,
        18..=19 => Kind::Close,
        _ => Kind::READING[(chance - 20) % 12],
    }
}

// A kind by one of 32 chances, by which a pool shrinks.
pub fn shrinking(chance: usize) -> Kind {
    match chance {
        0..=3 | 8..=9 => Kind::Delete,
        4..=7 | 10..=13 => Kind::Close,
        14..=16 => Kind::Insert,
        17..=19 => Kind::Open,
        _ => Kind::READING[(chance - 20) % 12],
    }
}
