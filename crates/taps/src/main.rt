// The script program: lines from standard input, answers to standard output, in large pieces.
// It writes its pool by its own calls alone, so that it is sound from set up on, and no line checks it.
#![tactic(auto)]

ghost use Rattle.std.specs.Prelude.{◌≡◌, ◌+◌, ◌≤◌, length, IfOk, IfSome};
ghost use Rattle.pools.specs.Sound.{Sound};
ghost use Rattle.taps.specs.declared.TheConstants.{PIECE};

use std::io;
use std::io::{Read, Write};

// The bytes of a line that are kept while its end has not been read: one more than a line may have.
const KEPT: usize = 64;

// How many bytes are read at once at most, and written at once.
const PIECE: usize = 65536;

const NEWLINE: u8 = 10;

// A sound pool, the room for a listing, and the answers that have still to be written: so many bytes of the output, since the memory is fixed.
#[derive(Drop)]
struct Desk {
    cells: [u32; 4096],
    room: [u32; 2046],
    output: [u8; PIECE],
    held: usize,
    ghost sound: { ∥ Sound cells ∥₁ },
    ghost within: { held ≤ PIECE },
}

impl Desk {
    // What is held is written.
    fn flush(&mut self, writer: &mut impl Write) -> io::Result<()> {
        writer.write_all(&self.output[..self.held])?;
        self.held = 0;
        Ok(())
    }

    // A line is answered behind what is held, if there is room.
    fn answer_behind(&mut self, line: &[u8]) -> Option<usize>
        ensures { IfSome result (λ told. self.new.held ≡ self.old.held + told) }
    {
        let told = lines::answer_checked(
            &mut self.cells,
            &mut self.room,
            line,
            &mut self.output[self.held..],
        )?;
        self.held += told;
        Some(told)
    }

    // A line is answered behind what is held, which is written first where there may be no room.
    fn answer(&mut self, writer: &mut impl Write, line: &[u8]) -> io::Result<()> {
        if self.answer_behind(line).is_none() {
            self.flush(writer)?;
            self.answer_behind(line);
        }
        Ok(())
    }

    // The lines that end within the input are answered. What is behind the last of them starts where the result says.
    fn answer_lines(&mut self, writer: &mut impl Write, input: &[u8]) -> io::Result<usize>
        ensures { IfOk result (λ from. from ≤ length input.now) }
    {
        let mut from = 0;
        while let Some(length) = input[from..].iter().position(|b| *b == NEWLINE) {
            let end = from + length;
            self.answer(writer, &input[from..end])?;
            from = end + 1;
        }
        Ok(from)
    }
}

// The start of an unended line goes to the front of the input; of a longer one than a line may be, no more than shows that.
fn keep(input: &mut [u8], from: usize, to: usize) -> usize
    requires { (from ≤ to) × (to ≤ length input.old) }
    ensures { result ≤ to }
{
    let kept = (to - from).min(KEPT);
    input.copy_within(from..from + kept, 0);
    kept
}

// The input is read to its end, or to an error, which ends it too, and each line that ends in it is answered.
// What is kept is then the last line, if its newline is missing.
fn read_all(
    reader: &mut impl Read,
    writer: &mut impl Write,
    desk: &mut Desk,
    input: &mut [u8],
) -> io::Result<usize>
    ensures { IfOk result (λ kept. kept ≤ length input.new) }
{
    let mut kept = 0;
    // Each read is one of a number that no input reaches, so that the loop is seen to end.
    for _ in 0..u64::MAX {
        let got = reader.read(&mut input[kept..]).unwrap_or(0);
        if got == 0 {
            break;
        }
        let to = kept + got;
        let from = desk.answer_lines(writer, &input[..to])?;
        desk.flush(writer)?;
        kept = keep(input, from, to);
    }
    Ok(kept)
}

// The whole input is answered, and the last line too if its newline is missing, as long as the answers can be written.
fn run(
    reader: &mut impl Read,
    writer: &mut impl Write,
    desk: &mut Desk,
    input: &mut [u8],
) -> io::Result<()> {
    let kept = read_all(reader, writer, desk, input)?;
    if kept > 0 {
        desk.answer(writer, &input[..kept])?;
        desk.flush(writer)?;
    }
    Ok(())
}

fn main(rt: HostRuntime) {
    let mut cells = [0; 4096];
    // The cells are a pool's, so that set up accepts them.
    let _ = pool::set_up(&mut cells);
    let mut desk = Desk {
        cells,
        room: [0; 2046],
        output: [0; PIECE],
        held: 0,
    };
    let mut input = [0; PIECE];
    // Where answers cannot be written there is no more to do.
    let _ = run(&mut rt.stdin(), &mut rt.stdout(), &mut desk, &mut input);
}
