// The calls that change what is stored.
ghost use Rattle.std.specs.Prelude.{[]};
ghost use Rattle.sound.specs.Promises.{behind_check};
ghost use Rattle.promises.specs.Promises.{insertion, deletion, opening, closing};
ghost use Rattle.told.specs.Told.{Tells};

use kinds::Pair;

// Stores the pair [x, y].
#[unsafe(no_mangle)]
pub extern "C" fn drecerunya_insert(pool: &mut [u32], x: u32, y: u32, answer: &mut [u32; 5]) -> u32
    ensures { Tells (behind_check pool.old (insertion pool.old (record { x = x; y = y }))) pool.old [] result pool.new [] answer.new }
{
    told::tell_ended(pool::insert(pool, Pair { x, y }), answer)
}

// Takes the pair [x, y] out.
#[unsafe(no_mangle)]
pub extern "C" fn drecerunya_delete(pool: &mut [u32], x: u32, y: u32, answer: &mut [u32; 5]) -> u32
    ensures { Tells (behind_check pool.old (deletion pool.old (record { x = x; y = y }))) pool.old [] result pool.new [] answer.new }
{
    told::tell_ended(pool::delete(pool, Pair { x, y }), answer)
}

// Opens a strip: its pair is stored.
#[unsafe(no_mangle)]
pub extern "C" fn drecerunya_open(
    pool: &mut [u32],
    start: u32,
    end: u32,
    number: u32,
    answer: &mut [u32; 5],
) -> u32
    ensures { Tells (behind_check pool.old (opening pool.old start end number)) pool.old [] result pool.new [] answer.new }
{
    told::tell_ended(strips::open(pool, start, end, number), answer)
}

// Closes a strip: its pair is taken out.
#[unsafe(no_mangle)]
pub extern "C" fn drecerunya_close(
    pool: &mut [u32],
    start: u32,
    end: u32,
    number: u32,
    answer: &mut [u32; 5],
) -> u32
    ensures { Tells (behind_check pool.old (closing pool.old start end number)) pool.old [] result pool.new [] answer.new }
{
    told::tell_ended(strips::close(pool, start, end, number), answer)
}
