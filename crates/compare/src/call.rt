// A call, and what its own numbers say.
use crate::kind::Kind;
use kinds::{Pair, Refusal};

// The largest slot of a line, and the largest number of a strip.
pub const LAST: u32 = 65535;

// A call, with up to three numbers in the order of its parameters.
#[derive(Clone, Copy)]
pub struct Call {
    pub kind: Kind,
    pub a: u32,
    pub b: u32,
    pub c: u32,
}

impl Call {
    pub fn new(kind: Kind, a: u32, b: u32, c: u32) -> Call {
        Call { kind, a, b, c }
    }

    // The pair of a change; a strip's has its end and its number as x, its start as y.
    pub fn row(self) -> Pair {
        if self.kind.is_of_strip() {
            return Pair {
                x: self.b << 16 | self.c,
                y: self.a,
            };
        }
        Pair {
            x: self.a,
            y: self.b,
        }
    }

    // The change that takes this one back.
    pub fn reversed(self) -> Option<Call> {
        let kind = self.kind.reversed()?;
        Some(Call { kind, ..self })
    }

    // The refusal by the call's own numbers: one over 65,535, a strip that ends before it starts, or limits out of order.
    pub fn refusal(self) -> Option<Refusal> {
        let is_over = LAST < self.a || LAST < self.b || self.kind.is_of_strip() && LAST < self.c;
        if self.kind.is_of_slots() && is_over {
            return Some(Refusal::NoStrip);
        }
        if self.a <= self.b {
            return None;
        }
        if self.kind.is_of_strip() {
            return Some(Refusal::NoStrip);
        }
        if self.kind.is_question() {
            return Some(Refusal::Backwards);
        }
        None
    }

    // Whether a question asks for a row. Of a strip the end is x / 65,536, the start y.
    pub fn asks_for(self, row: Pair) -> bool {
        let Call { kind, a, b, c } = self;
        let Pair { x, y } = row;
        let end = x / 65536;
        match kind {
            Kind::SmallestX | Kind::LargestX | Kind::Listing => (a <= x) & (x <= b) & (y <= c),
            Kind::SmallestY => (a <= x) & (x <= b),
            Kind::FirstToEnd | Kind::LastToEnd | Kind::ListCovers => {
                (y <= a) & (a <= end) & (end <= b)
            }
            Kind::EarliestStart => (a <= end) & (end <= b),
            Kind::ListMeets => (y <= b) & (a <= end),
            Kind::ListContains => (y <= a) & (b <= end),
            _ => false,
        }
    }
}
