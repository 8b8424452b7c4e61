// The plain list, and what a scan of it from top to bottom says that a call is to tell.
use crate::call::Call;
use crate::kind::Kind;
use kinds::Pair;

// The most pairs: those of the longest pool.
const PAIRS: usize = 4095;

// The pairs that a pool is to hold, by ascending x: the first ones.
#[derive(Drop)]
pub struct Rows {
    pairs: [Pair; PAIRS],
    len: usize,
}

// Whether a pair is asked for, and among those that a listing shows.
fn is_shown(asked: Call, row: Pair, shown: &[[u32; 2]]) -> bool {
    asked.asks_for(row) && shown.contains(&[row.x, row.y])
}

// The bytes of a pair in a book.
fn bytes_of(row: Pair) -> [u8; 8] {
    let Pair { x, y } = row;
    (u64::from(x) << 32 | u64::from(y)).to_be_bytes()
}

impl Rows {
    pub fn new() -> Rows {
        Rows {
            pairs: [Pair { x: 0, y: 0 }; PAIRS],
            len: 0,
        }
    }

    // The pairs.
    fn all(&self) -> &[Pair] {
        &self.pairs[..self.len.min(PAIRS)]
    }

    pub fn len(&self) -> usize {
        self.len
    }

    pub fn is_empty(&self) -> bool {
        self.len == 0
    }

    // The pair with this x.
    pub fn get(&self, x: u32) -> Option<Pair> {
        self.all().iter().copied().find(|row| row.x == x)
    }

    // One of the pairs; of none, the pair of two zeros.
    pub fn any(&self, drawn: u32) -> Pair {
        let rows = self.all();
        if rows.is_empty() {
            return Pair::default();
        }
        rows[drawn as usize % rows.len()]
    }

    // Takes the i-th pair out.
    fn remove(&mut self, i: usize) {
        if i < self.len && self.len <= PAIRS {
            self.pairs.copy_within(i + 1..self.len, i);
            self.len -= 1;
        }
    }

    // Puts a pair in as the i-th. What finds no room stays out, and shows as a difference.
    fn insert(&mut self, i: usize, row: Pair) {
        if i <= self.len && self.len < PAIRS {
            self.pairs.copy_within(i..self.len, i + 1);
            self.pairs[i] = row;
            self.len += 1;
        }
    }

    // A change that is done takes its pair out if it is there, and else puts it in, above the first one with a larger x.
    pub fn update(&mut self, row: Pair) {
        match self.all().iter().position(|there| row.x <= there.x) {
            Some(i) if self.get(row.x).is_some() => self.remove(i),
            Some(i) => self.insert(i, row),
            None => self.insert(self.len, row),
        }
    }

    // How many pairs a listing asks for.
    pub fn count(&self, asked: Call) -> usize {
        self.all()
            .iter()
            .filter(|row| asked.asks_for(**row))
            .count()
    }

    // Of the pairs that a question asks for, the last one, the first one with the lowest y, or the first one.
    pub fn best(&self, asked: Call) -> Option<Pair> {
        let mut rows = self
            .all()
            .iter()
            .copied()
            .filter(|row| asked.asks_for(*row));
        match asked.kind {
            Kind::LargestX | Kind::LastToEnd => rows.last(),
            Kind::SmallestY | Kind::EarliestStart => rows.min_by_key(|row| row.y),
            _ => rows.next(),
        }
    }

    // Whether the shown pairs, in any order, are in the list, asked for, and none of them twice: the list has as many that are asked for and shown.
    pub fn lists(&self, asked: Call, shown: &[[u32; 2]]) -> bool {
        let rows = self.all().iter().copied();
        rows.filter(|row| is_shown(asked, *row, shown)).count() == shown.len()
    }

    // Whether bytes are the list's book: how many bytes follow the first four, a 1, and the pairs.
    pub fn is_book(&self, bytes: &[u8]) -> bool {
        let (head, rest) = bytes.split_at(bytes.len().min(5));
        let (pairs, more) = rest.as_chunks::<8>();
        let rows = self.all();
        let follow = rows.len().wrapping_mul(8).wrapping_add(1);
        let size = (follow << 8 | 1).to_be_bytes();
        size.ends_with(head)
            && head.len() == 5
            && more.is_empty()
            && pairs.len() == rows.len()
            && pairs
                .iter()
                .zip(rows)
                .all(|(bytes, row)| *bytes == bytes_of(*row))
    }
}
