// A strip's numbers and asked slots, once they are known to fit: the pair that a strip is stored as, and the limits within which the strips
// stand that a question asks for.
#![tactic(auto)]

ghost use Rattle.std.specs.Prelude.{◌≡◌, ◌*◌, ◌≤◌, MatchResult};
ghost use Rattle.kinds.specs.Promise.{tested};
ghost use Rattle.plain.specs.Plain.{limits};
ghost use Rattle.plain.specs.Strips.{largest, over, strip_lines, slot_lines, slots_lines, strip_pair, covers_limits, last_limits, meets_limits, contains_limits};

use kinds::{Limits, Pair, Refusal};

// The largest slot, and the largest number.
const LARGEST: u32 = 65535;

// How far apart the x of two ends are.
const PER_END: u32 = 65536;

// The largest x.
const LAST_X: u32 = 4294967295;

fn over(n: u32) -> bool
    ensures { result ≡ over n }
{
    LARGEST < n
}

// The strips that end from a slot on, with an x up to x1, and start by another.
fn ending_from(end: u32, x1: u32, start: u32) -> Limits
    requires { end ≤ largest }
    ensures { result ≡ limits (end * 65536) x1 start }
{
    Limits {
        x0: end * PER_END,
        x1,
        y1: start,
    }
}

// A strip: no number is too large, and it does not end before it starts.
#[derive(Clone, Copy)]
pub struct Strip {
    pub start: u32,
    pub end: u32,
    pub number: u32,
    pub ghost fits: { (start ≤ end) × (end ≤ largest) × (number ≤ largest) },
}

impl Strip {
    // The strip of these numbers, if they are a strip's.
    #[tactic(auto, unfolding(kinds::specs::Promise::tested))]
    pub fn new(start: u32, end: u32, number: u32) -> Result<Strip, Refusal>
        ensures { MatchResult result (λ s. (tested (strip_lines start end number) ≡ Ok tt) × (s.start ≡ start) × (s.end ≡ end) × (s.number ≡ number)) (λ k. tested (strip_lines start end number) ≡ Err k) }
    {
        if over(start) | over(end) | over(number) | (end < start) {
            return Err(Refusal::NoStrip);
        }
        Ok(Strip { start, end, number })
    }

    // The pair that it is stored as.
    pub fn pair(self) -> Pair
        ensures { result ≡ strip_pair self.start self.end self.number }
    {
        Pair {
            x: self.end * PER_END + self.number,
            y: self.start,
        }
    }
}

// A slot that is asked for.
#[derive(Clone, Copy)]
pub struct Slot {
    pub at: u32,
    pub ghost fits: { at ≤ largest },
}

impl Slot {
    // The slot of this number, if it is not too large.
    #[tactic(auto, unfolding(kinds::specs::Promise::tested))]
    pub fn new(u: u32) -> Result<Slot, Refusal>
        ensures { MatchResult result (λ s. (tested (slot_lines u) ≡ Ok tt) × (s.at ≡ u)) (λ k. tested (slot_lines u) ≡ Err k) }
    {
        if over(u) {
            return Err(Refusal::NoStrip);
        }
        Ok(Slot { at: u })
    }

    // The strips that cover it.
    pub fn covers(self) -> Limits
        ensures { result ≡ covers_limits self.at }
    {
        ending_from(self.at, LAST_X, self.at)
    }
}

// The slots that are asked for, from one to another.
#[derive(Clone, Copy)]
pub struct Slots {
    pub from: u32,
    pub to: u32,
    pub ghost fits: { (from ≤ to) × (to ≤ largest) },
}

impl Slots {
    // The slots from u to v, if neither is too large and they are in their order.
    #[tactic(auto, unfolding(kinds::specs::Promise::tested))]
    pub fn new(u: u32, v: u32) -> Result<Slots, Refusal>
        ensures { MatchResult result (λ s. (tested (slots_lines u v) ≡ Ok tt) × (s.from ≡ u) × (s.to ≡ v)) (λ k. tested (slots_lines u v) ≡ Err k) }
    {
        if over(u) | over(v) {
            return Err(Refusal::NoStrip);
        }
        if v < u {
            return Err(Refusal::Backwards);
        }
        Ok(Slots { from: u, to: v })
    }

    // The strips that cover the first and end no later than the last; by their x alone, those that end in them.
    pub fn last(self) -> Limits
        ensures { result ≡ last_limits self.from self.to }
    {
        ending_from(self.from, self.to * PER_END + LARGEST, self.from)
    }

    // The strips that meet them.
    pub fn meets(self) -> Limits
        ensures { result ≡ meets_limits self.from self.to }
    {
        ending_from(self.from, LAST_X, self.to)
    }

    // The strips that contain them.
    pub fn contains(self) -> Limits
        ensures { result ≡ contains_limits self.from self.to }
    {
        ending_from(self.to, LAST_X, self.from)
    }
}
