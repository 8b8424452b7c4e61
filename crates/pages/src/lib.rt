// The bytes of a stored book, written into lent bytes: its head, and a pair's row.
#![tactic(auto)]

ghost use Rattle.std.specs.Prelude.{◌≡◌, ◌+◌, ◌*◌, ◌≤◌, ◌<◌, length};
ghost use Rattle.kinds.specs.Placed.{placed};
ghost use Rattle.pages.specs.Book.{word, version_one};
ghost use Rattle.pages.specs.Writing.{head_bytes, header_of};

use kinds::Pair;

// The bytes of a number.
const WORD: usize = 4;

// The bytes of the length and the version.
pub const HEAD: usize = 5;

// The form of a book: its version, and the bytes of a row, x and y.
const VERSION: u8 = 1;

pub const PER_ROW: usize = 8;

// A number as four bytes, the highest first.
#[tactic(auto, using(crate::proofs::Bytes::one_word))]
fn put_word(bytes: &mut [u8], at: usize, n: u32)
    requires { at + 4 ≤ length bytes.old }
    ensures { bytes.new ≡ placed bytes.old at (word n) }
{
    bytes[at..at + WORD].copy_from_slice(&n.to_be_bytes());
}

// The number of bytes that follow, and the version.
#[tactic(auto, using(crate::proofs::Bytes::one_head))]
pub fn put_head(bytes: &mut [u8], count: u32)
    requires { (head_bytes ≤ length bytes.old) × (1 + version_one.per_row * count < 4294967296) }
    ensures { bytes.new ≡ placed bytes.old 0 (header_of version_one count) }
{
    put_word(bytes, 0, 1 + PER_ROW as u32 * count);
    bytes[WORD] = VERSION;
}

// A pair's row.
#[tactic(auto, using(crate::proofs::Bytes::one_row))]
pub fn put_row(bytes: &mut [u8], at: usize, p: Pair)
    requires { at + version_one.per_row ≤ length bytes.old }
    ensures { bytes.new ≡ placed bytes.old at (version_one.row p) }
{
    put_word(bytes, at, p.x);
    put_word(bytes, at + WORD, p.y);
}
