// A word as a decimal number of 32 bits.
#![tactic(auto)]

ghost use Rattle.std.specs.Prelude.{◌≡◌};
ghost use Rattle.decimal.specs.Decimal.{leading_zero};
ghost use Rattle.decimal.specs.Reading.{digit_of, digits_of, number_in};

// What a byte is worth as a digit.
fn digit(b: u8) -> Option<u32>
    ensures { result ≡ digit_of b }
{
    match b {
        b'0'..=b'9' => Some(u32::from(b - b'0')),
        _ => None,
    }
}

// The number that digits alone give.
#[tactic(auto, using(crate::proofs::Digits::no_byte))]
fn digits_in(word: &[u8]) -> Option<u32>
    ensures { result ≡ digits_of word.now }
{
    let mut n: u32 = 0;
    for b in word {
        n = n.checked_mul(10)?.checked_add(digit(*b)?)?;
    }
    Some(n)
}

// Whether a word of several bytes starts with 0.
fn leading_zero(word: &[u8]) -> bool
    ensures { result ≡ leading_zero word.now }
{
    matches!(word, [b'0', _, ..])
}

// The number that a word is, if it is one: no leading zero but 0 itself, and no more than the largest.
pub fn number_in(word: &[u8]) -> Option<u32>
    ensures { result ≡ number_in word.now }
{
    if word.is_empty() || leading_zero(word) {
        return None;
    }
    digits_in(word)
}
