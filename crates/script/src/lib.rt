// A line of the script, over any cells: it is read, the pool is checked, and what it asks is done and answered. Nothing here reads or writes a file.
#![tactic(auto)]

ghost use Rattle.std.specs.Prelude.{◌≡◌};
ghost use Rattle.lines.specs.Script.{line_answered, LineKept};
ghost use Rattle.lines.specs.Writing.{refusal_of};

use kinds::Refusal;
use line::Asked;

// What refuses a line before its call, if anything does. A malformed line needs no check.
#[tactic(auto, unfolding(lines::specs::Writing::refusal_of))]
fn refusal(pool: &[u32], asked: Asked) -> Result<(), Refusal>
    ensures { result ≡ refusal_of pool.now asked }
{
    match asked {
        Asked::Malformed => Err(Refusal::Malformed),
        _ => sound::check(pool),
    }
}

// Does what a line asks, and prints its answer from the first byte of the output on: so many bytes, or none where they may be too few.
pub fn answer_line(
    pool: &mut [u32],
    room: &mut [u32],
    bytes: &[u8],
    output: &mut [u8],
) -> Option<usize>
    ensures { LineKept (line_answered pool.old room.old bytes.now output.old) pool.new room.new output.new result }
{
    if prints::too_short(room.len(), output.len()) {
        return None;
    }
    let asked = line::read_line(bytes);
    if let Err(refusal) = refusal(pool, asked) {
        return Some(prints::put_refused(output, room, asked, refusal));
    }
    Some(lines::perform(pool, room, output, asked))
}
