// The C interface: a thin function for each call. include/drecerunya.h declares them side by side.
#![tactic(auto)]

mod asking;
mod changing;
mod list;

ghost use Rattle.sound.specs.Promises.{behind_check, set_up, check};
ghost use Rattle.promises.specs.Promises.{saved};
ghost use Rattle.told.specs.Told.{Tells, TellsCode};

pub use asking::{
    drecerunya_earliest_start, drecerunya_first_to_end, drecerunya_largest_x,
    drecerunya_last_to_end, drecerunya_smallest_x, drecerunya_smallest_y,
};
pub use changing::{drecerunya_close, drecerunya_delete, drecerunya_insert, drecerunya_open};
pub use list::{
    drecerunya_list_contains, drecerunya_list_covers, drecerunya_list_meets, drecerunya_listing,
};

// Lays out a pool with nothing stored, whatever its cells held.
#[unsafe(no_mangle)]
pub extern "C" fn drecerunya_set_up(pool: &mut [u32]) -> u32
    ensures { TellsCode (set_up pool.old) pool.old result pool.new }
{
    told::code_of(pool::set_up(pool).into())
}

// Says whether a pool is sound, or gives the code of what is wrong.
#[unsafe(no_mangle)]
pub extern "C" fn drecerunya_check(pool: &[u32]) -> u32
    ensures { TellsCode (check pool.now) pool.now result pool.now }
{
    told::code_of(pool::check(pool).into())
}

// Writes the stored book from the first byte on; bytes beyond it stay.
#[unsafe(no_mangle)]
pub extern "C" fn drecerunya_save(pool: &[u32], bytes: &mut [u8], answer: &mut [u32; 5]) -> u32
    ensures { Tells (behind_check pool.now (saved pool.now bytes.old)) pool.now bytes.old result pool.now bytes.new answer.new }
{
    told::tell_ended(book::save(pool, bytes), answer)
}
