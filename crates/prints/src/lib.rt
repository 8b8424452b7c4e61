// What a line of the script prints, a kind of line at a time. Nothing here reads a line or a pool.
#![tactic(auto)]

ghost use Rattle.std.specs.Prelude.{◌+◌, ◌*◌, ◌/◌, ◌≤◌, ◌≡◌, [], ◌∷◌, ltb, length};
ghost use Rattle.text.specs.Text.{row};
ghost use Rattle.text.specs.Writing.{Puts};
ghost use Rattle.kinds.specs.Answer.{ended};
ghost use Rattle.prints.specs.Rows.{code_row, found_row, list_rows};
ghost use Rattle.prints.specs.Refused.{refused_rows};

use kinds::{Answer, Five, Refusal};
use line::Asked;

// The bytes of five numbers of at most ten digits, each with the byte behind it.
const FIVE_NUMBERS: usize = 55;

// The bytes of three such numbers.
const THREE_NUMBERS: usize = 33;

// Whether so many bytes may be too few for what a line prints, with so many cells of room.
pub fn too_short(room: usize, output: usize) -> bool
    ensures { result ≡ ltb output (55 + 33 * (room / 2)) }
{
    if output < FIVE_NUMBERS {
        return true;
    }
    (output - FIVE_NUMBERS) / THREE_NUMBERS < room / 2
}

// The code alone, whichever it is: a line prints numbers.
pub fn put_code(output: &mut [u8], code: u32) -> usize
    requires { 55 ≤ length output.old }
    ensures { Puts output.old 0 (row (code ∷ [])) output.new result }
{
    text::put_number(output, 0, code, text::NEWLINE)
}

// The code alone, of a change.
pub fn put_ended(output: &mut [u8], r: Result<(), Refusal>) -> usize
    requires { 55 ≤ length output.old }
    ensures { Puts output.old 0 (code_row (ended r)) output.new result }
{
    put_code(output, kinds::code_of(r))
}

// Code, end, number, start, visits.
pub fn put_found(output: &mut [u8], a: Answer) -> usize
    requires { 55 ≤ length output.old }
    ensures { Puts output.old 0 (found_row a) output.new result }
{
    let n = Five::from(a);
    let strip = text::put_number(output, 0, n.code, text::SPACE);
    let visits = text::put_strip(output, strip, n.x, n.y, text::SPACE);
    text::put_number(output, visits, n.visits, text::NEWLINE)
}

// Code, count, visits, and a line for each match.
pub fn put_listed(output: &mut [u8], a: Answer, room: &[u32]) -> usize
    requires { 55 + 33 * (length room.now / 2) ≤ length output.old }
    ensures { Puts output.old 0 (list_rows a room.now) output.new result }
{
    let n = Five::from(a);
    let count = text::put_number(output, 0, n.code, text::SPACE);
    let visits = text::put_number(output, count, n.count, text::SPACE);
    let matches = text::put_number(output, visits, n.visits, text::NEWLINE);
    text::put_matches(output, matches, room, n.count)
}

// A line that is refused before its call: its code, and a 0 for each number that it would print.
#[tactic(auto, unfolding(crate::specs::Refused::refused_rows))]
pub fn put_refused(output: &mut [u8], room: &[u32], asked: Asked, refusal: Refusal) -> usize
    requires { 55 + 33 * (length room.now / 2) ≤ length output.old }
    ensures { Puts output.old 0 (refused_rows room.now refusal asked) output.new result }
{
    match asked {
        Asked::Open { .. } | Asked::Close { .. } | Asked::Malformed => put_code(
            output,
            refusal.into(),
        ),
        Asked::First(_) | Asked::Last { .. } => put_found(output, refusal.into()),
        Asked::Covers(_) => put_listed(output, refusal.into(), room),
    }
}
