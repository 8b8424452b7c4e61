// The types that every crate shares. What they mean is in specs/.
#![tactic(auto)]

ghost use Rattle.std.specs.Prelude.{◌≡◌};
ghost use Rattle.kinds.specs.Codes as codes;
ghost use Rattle.kinds.specs.Answer.{five, refused, ended, walked, listed};
ghost use Rattle.kinds.specs.Pairs.{beats};
ghost use Rattle.kinds.specs.Shape.{Keyed};

// A stored pair. No two stored pairs have the same x.
#[derive(Clone, Copy, PartialEq, Eq, Default)]
pub struct Pair {
    pub x: u32,
    pub y: u32,
}

// The y and behind it the x, as one number: one comparison, where a derived order would make two and look at x first.
fn key(x: u32, y: u32) -> u64
    ensures { Keyed (record { x = x; y = y }) result }
{
    y as u64 * 4294967296 + x as u64
}

impl Pair {
    // A pair beats another if its y is smaller, or y is equal and its x is smaller.
    #[tactic(auto, using(crate::proofs::Order::beats_by_key))]
    pub fn beats(self, other: Pair) -> bool
        ensures { result ≡ beats self other }
    {
        key(self.x, self.y) < key(other.x, other.y)
    }
}

// The limits of a question, inclusive.
#[derive(Clone, Copy, PartialEq, Eq)]
pub struct Limits {
    pub x0: u32,
    pub x1: u32,
    pub y1: u32,
}

// Why a call is refused, each with its code. What it says is in specs/Codes.antt.
#[derive(Clone, Copy, PartialEq, Eq)]
pub enum Refusal {
    Length = 1,
    Unsound = 2,
    Backwards = 3,
    Taken = 4,
    Full = 5,
    Missing = 6,
    Other = 7,
    NoStrip = 9,
    Short = 11,
    Malformed = 12,
}

// The code.
impl From<Refusal> for u32 {
    ghost from_gives = { λ refusal code. code ≡ codes.number_of refusal };

    fn from(refusal: Refusal) -> u32 {
        refusal as u32
    }
}

// The pair that a walk ends with, if it found one, and the tree slots that it visited.
#[derive(Clone, Copy, PartialEq, Eq)]
pub struct Walked {
    pub finding: Option<Pair>,
    pub visits: u32,
}

// What a listing says of itself: how many pairs it wrote, whether a match found no room, and the slots that it visited.
#[derive(Clone, Copy, PartialEq, Eq)]
pub struct Listing {
    pub count: u32,
    pub more: bool,
    pub visits: u32,
}

// What a call ends with: 01's cases, of which a listing's count and whether there are more both always say something. A change that is done has listed nothing; `more` says that a match found no room.
#[derive(Clone, Copy, PartialEq, Eq)]
pub enum Outcome {
    Found(Pair),
    Nothing,
    Listed { count: u32, more: bool },
    Refused(Refusal),
}

// The answer of a call: only a found pair carries a pair. The five numbers of each case are in specs/Answer.antt.
#[derive(Clone, Copy, PartialEq, Eq)]
pub struct Answer {
    pub outcome: Outcome,
    pub visits: u32,
}

// A call that is refused.
impl From<Refusal> for Answer {
    ghost from_gives = { λ refusal answer. answer ≡ refused refusal };

    fn from(refusal: Refusal) -> Answer {
        Answer {
            outcome: Outcome::Refused(refusal),
            visits: 0,
        }
    }
}

// What a change answers, a set up, a check and the writing of the book.
impl From<Result<(), Refusal>> for Answer {
    ghost from_gives = { λ r answer. answer ≡ ended r };

    fn from(r: Result<(), Refusal>) -> Answer {
        match r {
            Ok(()) => Answer {
                outcome: Outcome::Listed {
                    count: 0,
                    more: false,
                },
                visits: 0,
            },
            Err(refusal) => refusal.into(),
        }
    }
}

// What a question for one pair answers.
impl From<Result<Walked, Refusal>> for Answer {
    ghost from_gives = { λ r answer. answer ≡ walked r };

    fn from(r: Result<Walked, Refusal>) -> Answer {
        match r {
            Ok(w) => Answer {
                outcome: match w.finding {
                    Some(p) => Outcome::Found(p),
                    None => Outcome::Nothing,
                },
                visits: w.visits,
            },
            Err(refusal) => refusal.into(),
        }
    }
}

// What a listing answers.
impl From<Result<Listing, Refusal>> for Answer {
    ghost from_gives = { λ r answer. answer ≡ listed r };

    fn from(r: Result<Listing, Refusal>) -> Answer {
        match r {
            Ok(l) => Answer {
                outcome: Outcome::Listed {
                    count: l.count,
                    more: l.more,
                },
                visits: l.visits,
            },
            Err(refusal) => refusal.into(),
        }
    }
}

// An answer as five numbers.
#[derive(Clone, Copy, PartialEq, Eq)]
pub struct Five {
    pub code: u32,
    pub x: u32,
    pub y: u32,
    pub count: u32,
    pub visits: u32,
}

impl Five {
    // The codes of what is not refused.
    pub const DONE: u32 = 0;

    pub const NOTHING: u32 = 8;

    pub const MORE: u32 = 10;
}

impl From<Answer> for Five {
    ghost from_gives = { λ answer numbers. numbers ≡ five answer };

    #[tactic(auto, unfolding(crate::specs::Answer::five, crate::specs::Answer::numbers_of))]
    fn from(a: Answer) -> Five {
        let visits = a.visits;
        match a.outcome {
            Outcome::Found(p) => Five {
                code: Five::DONE,
                x: p.x,
                y: p.y,
                count: 0,
                visits,
            },
            Outcome::Nothing => Five {
                code: Five::NOTHING,
                x: 0,
                y: 0,
                count: 0,
                visits,
            },
            Outcome::Listed { count, more } => Five {
                code: if more { Five::MORE } else { Five::DONE },
                x: 0,
                y: 0,
                count,
                visits,
            },
            Outcome::Refused(refusal) => Five {
                code: refusal.into(),
                x: 0,
                y: 0,
                count: 0,
                visits: 0,
            },
        }
    }
}

// The code of what ends with a code alone.
#[tactic(auto, unfolding(crate::specs::Answer::five, crate::specs::Answer::numbers_of))]
pub fn code_of(r: Result<(), Refusal>) -> u32
    ensures { result ≡ (five (ended r)).code }
{
    match r {
        Ok(()) => Five::DONE,
        Err(refusal) => refusal.into(),
    }
}
