// The codes that calls are to tell: this program's own numbers, those of 01, and none that the library makes of a name.
use kinds::Refusal;

// What is not refused: done, or a pair is found; none is found; a match found no room.
pub const DONE: u32 = 0;

pub const NOTHING: u32 = 8;

pub const MORE: u32 = 10;

// The code of what ends with a code alone.
pub fn code_of(r: Result<(), Refusal>) -> u32 {
    match r {
        Ok(()) => DONE,
        Err(Refusal::Length) => 1,
        Err(Refusal::Unsound) => 2,
        Err(Refusal::Backwards) => 3,
        Err(Refusal::Taken) => 4,
        Err(Refusal::Full) => 5,
        Err(Refusal::Missing) => 6,
        Err(Refusal::Other) => 7,
        Err(Refusal::NoStrip) => 9,
        Err(Refusal::Short) => 11,
        Err(Refusal::Malformed) => 12,
    }
}
