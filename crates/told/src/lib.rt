// An answer as numbers, for a caller in C.
#![tactic(auto)]

ghost use Rattle.std.specs.Prelude.{◌≡◌, [], ◌∷◌};
ghost use Rattle.kinds.specs.Answer.{ended};
ghost use Rattle.told.specs.Told.{code_of, Numbered};

use kinds::{Answer, Five, Refusal};

// The code of an answer.
pub fn code_of(a: Answer) -> u32
    ensures { result ≡ code_of a }
{
    Five::from(a).code
}

// Writes an answer's numbers, and gives its code.
pub fn tell(a: Answer, answer: &mut [u32; 5]) -> u32
    ensures { Numbered a answer.new result }
{
    let n = Five::from(a);
    *answer = [n.code, n.x, n.y, n.count, n.visits];
    n.code
}

// Writes a code, whichever it is, with four zeros beside it, and gives the code.
pub fn tell_code(code: u32, answer: &mut [u32; 5]) -> u32
    ensures code { result ≡ code }
    ensures array { answer.new ≡ code ∷ 0 ∷ 0 ∷ 0 ∷ 0 ∷ [] }
{
    *answer = [code, 0, 0, 0, 0];
    code
}

// Writes the numbers of a change's answer, which is its code alone, and gives the code.
pub fn tell_ended(r: Result<(), Refusal>, answer: &mut [u32; 5]) -> u32
    ensures { Numbered (ended r) answer.new result }
{
    tell_code(kinds::code_of(r), answer)
}
