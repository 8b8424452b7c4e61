// The questions that are answered by one pair.
ghost use Rattle.std.specs.Prelude.{[]};
ghost use Rattle.plain.specs.Plain.{limits};
ghost use Rattle.sound.specs.Promises.{behind_check};
ghost use Rattle.promises.specs.Promises.{smallest_x_asked, largest_x_asked, smallest_y_asked, first_to_end, last_to_end, earliest_start};
ghost use Rattle.told.specs.Told.{Tells};

use kinds::Limits;

// Of the pairs with x0 ≤ x ≤ x1 and y ≤ y1, the one with the smallest x.
#[unsafe(no_mangle)]
pub extern "C" fn drecerunya_smallest_x(
    pool: &[u32],
    x0: u32,
    x1: u32,
    y1: u32,
    answer: &mut [u32; 5],
) -> u32
    ensures { Tells (behind_check pool.now (smallest_x_asked pool.now (limits x0 x1 y1))) pool.now [] result pool.now [] answer.new }
{
    told::tell(pool::smallest_x(pool, Limits { x0, x1, y1 }).into(), answer)
}

// Of the pairs with x0 ≤ x ≤ x1 and y ≤ y1, the one with the largest x.
#[unsafe(no_mangle)]
pub extern "C" fn drecerunya_largest_x(
    pool: &[u32],
    x0: u32,
    x1: u32,
    y1: u32,
    answer: &mut [u32; 5],
) -> u32
    ensures { Tells (behind_check pool.now (largest_x_asked pool.now (limits x0 x1 y1))) pool.now [] result pool.now [] answer.new }
{
    told::tell(pool::largest_x(pool, Limits { x0, x1, y1 }).into(), answer)
}

// Of the pairs with x0 ≤ x ≤ x1, the one with the smallest y; on equal y the one with the smaller x.
#[unsafe(no_mangle)]
pub extern "C" fn drecerunya_smallest_y(
    pool: &[u32],
    x0: u32,
    x1: u32,
    answer: &mut [u32; 5],
) -> u32
    ensures { Tells (behind_check pool.now (smallest_y_asked pool.now x0 x1)) pool.now [] result pool.now [] answer.new }
{
    told::tell(pool::smallest_y(pool, x0, x1).into(), answer)
}

// The strip that covers slot u and ends first.
#[unsafe(no_mangle)]
pub extern "C" fn drecerunya_first_to_end(pool: &[u32], u: u32, answer: &mut [u32; 5]) -> u32
    ensures { Tells (behind_check pool.now (first_to_end pool.now u)) pool.now [] result pool.now [] answer.new }
{
    told::tell(strips::first_to_end(pool, u).into(), answer)
}

// The strip that covers slot u and ends last, no later than e.
#[unsafe(no_mangle)]
pub extern "C" fn drecerunya_last_to_end(pool: &[u32], u: u32, e: u32, answer: &mut [u32; 5]) -> u32
    ensures { Tells (behind_check pool.now (last_to_end pool.now u e)) pool.now [] result pool.now [] answer.new }
{
    told::tell(strips::last_to_end(pool, u, e).into(), answer)
}

// Of the strips that end in u..v, the one with the earliest start.
#[unsafe(no_mangle)]
pub extern "C" fn drecerunya_earliest_start(
    pool: &[u32],
    u: u32,
    v: u32,
    answer: &mut [u32; 5],
) -> u32
    ensures { Tells (behind_check pool.now (earliest_start pool.now u v)) pool.now [] result pool.now [] answer.new }
{
    told::tell(strips::earliest_start(pool, u, v).into(), answer)
}
