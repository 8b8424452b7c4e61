// A line of the script: what it asks is done, on a pool that is known to be sound, and printed. Nothing here checks the pool.
// `Sound` is required, as the pool is changed in place, and a struct that held its `&mut` would have to promise in each clause that it is
// still the same reference.
#![tactic(auto)]

ghost use Rattle.std.specs.Prelude.{◌+◌, ◌*◌, ◌/◌, ◌≤◌, length};
ghost use Rattle.pools.specs.Sound.{Sound};
ghost use Rattle.lines.specs.Script.{done_by, line_answered, LineKept};
ghost use Rattle.lines.specs.Writing.{Prints};

use cells::SoundPool;
use kinds::Refusal;
use line::Asked;

// What is asked is done, and printed from the first byte on.
pub fn perform(pool: &mut [u32], room: &mut [u32], output: &mut [u8], asked: Asked) -> usize
    requires { Sound pool.old × (55 + 33 * (length room.old / 2) ≤ length output.old) }
    ensures { Prints (done_by pool.old room.old asked) output.old pool.new room.new output.new result × Sound pool.new }
{
    match asked {
        Asked::Open { start, end, number } => {
            let ended = answers::open(pool, start, end, number);
            prints::put_ended(output, ended)
        }
        Asked::Close { start, end, number } => {
            let ended = answers::close(pool, start, end, number);
            prints::put_ended(output, ended)
        }
        Asked::First(u) => {
            let walked = answers::first_to_end(SoundPool { cells: &*pool }, u);
            prints::put_found(output, walked.into())
        }
        Asked::Last { u, e } => {
            let walked = answers::last_to_end(SoundPool { cells: &*pool }, u, e);
            prints::put_found(output, walked.into())
        }
        Asked::Covers(u) => {
            let listed = answers::list_covers(SoundPool { cells: &*pool }, u, room);
            prints::put_listed(output, listed.into(), room)
        }
        Asked::Malformed => prints::put_code(output, Refusal::Malformed.into()),
    }
}

// Does what a line asks, and prints its answer from the first byte of the output on: so many bytes, or none where they may be too few.
pub fn answer_checked(
    pool: &mut [u32],
    room: &mut [u32],
    bytes: &[u8],
    output: &mut [u8],
) -> Option<usize>
    requires { Sound pool.old }
    ensures { LineKept (line_answered pool.old room.old bytes.now output.old) pool.new room.new output.new result × Sound pool.new }
{
    if prints::too_short(room.len(), output.len()) {
        return None;
    }
    let asked = line::read_line(bytes);
    Some(perform(pool, room, output, asked))
}
