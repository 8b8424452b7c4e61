// Reading a line of the script: a letter, and decimal numbers after single spaces.
#![tactic(auto)]

ghost use Rattle.std.specs.Prelude.{◌≡◌, [], ◌∷◌, ◌==◌, position, unwrap_or};
ghost use Rattle.line.specs.Line.{space, words, by_words, asked_by};
ghost use Rattle.line.specs.declared.Asked.TheVariants.{Malformed};
ghost use Rattle.line.specs.Reading.{words_in, numbers_of};

use decimal::number_in;

// The most bytes of a line before its newline.
const LONGEST: usize = 63;

const SPACE: u8 = 32;

// What a line asks. A line that is malformed has an answer of its own, so it is one of the cases.
#[derive(Clone, Copy)]
pub enum Asked {
    Open { start: u32, end: u32, number: u32 },
    Close { start: u32, end: u32, number: u32 },
    First(u32),
    Last { u: u32, e: u32 },
    Covers(u32),
    Malformed,
}

// Where the first space of a text is.
fn space_in(text: &[u8]) -> Option<usize>
    ensures { result ≡ position (λ b. b == space) text.now }
{
    text.iter().position(|b| *b == SPACE)
}

// The first word of a text, and what is behind its space, if it has one.
fn first_word(text: &[u8]) -> (&[u8], Option<&[u8]>)
    ensures { words text.now ≡ result.0.now ∷ words_in result.1 }
{
    match space_in(text) {
        Some(n) => (&text[..n], Some(&text[n + 1..])),
        None => (text, None),
    }
}

// The numbers that the words of a text are, if there are so many.
fn numbers_in<const N: usize>(text: &[u8]) -> Option<[u32; N]>
    ensures { result ≡ numbers_of N (words text.now) }
{
    let mut numbers = [0; N];
    let mut rest = Some(text);
    for number in &mut numbers {
        let (word, behind) = first_word(rest?);
        *number = number_in(word)?;
        rest = behind;
    }
    match rest {
        Some(_) => None,
        None => Some(numbers),
    }
}

// What a letter asks with the numbers behind it, if they are as many as it takes.
fn asked_with(letter: u8, text: &[u8]) -> Option<Asked>
    ensures { unwrap_or result Malformed ≡ by_words ((letter ∷ []) ∷ words text.now) }
{
    match letter {
        b'o' => {
            let [start, end, number] = numbers_in::<3>(text)?;
            Some(Asked::Open { start, end, number })
        }
        b'c' => {
            let [start, end, number] = numbers_in::<3>(text)?;
            Some(Asked::Close { start, end, number })
        }
        b'f' => {
            let [u] = numbers_in::<1>(text)?;
            Some(Asked::First(u))
        }
        b'l' => {
            let [u, e] = numbers_in::<2>(text)?;
            Some(Asked::Last { u, e })
        }
        b'a' => {
            let [u] = numbers_in::<1>(text)?;
            Some(Asked::Covers(u))
        }
        _ => None,
    }
}

// What a line asks.
pub fn read_line(line: &[u8]) -> Asked
    ensures { result ≡ asked_by line.now }
{
    if LONGEST < line.len() {
        return Asked::Malformed;
    }
    let [letter, SPACE, text @ ..] = line else {
        return Asked::Malformed;
    };
    asked_with(*letter, text).unwrap_or(Asked::Malformed)
}
