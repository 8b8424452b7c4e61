// The lists, into a second lent slice.
ghost use Rattle.plain.specs.Plain.{limits};
ghost use Rattle.sound.specs.Promises.{behind_check};
ghost use Rattle.promises.specs.Promises.{listing_asked, list_covers, list_meets, list_contains};
ghost use Rattle.told.specs.Told.{Tells};

use kinds::Limits;

// The pairs with x0 ≤ x ≤ x1 and y ≤ y1, two cells each from the slice's start, as many as it has room for.
#[unsafe(no_mangle)]
pub extern "C" fn drecerunya_listing(
    pool: &[u32],
    x0: u32,
    x1: u32,
    y1: u32,
    out: &mut [u32],
    answer: &mut [u32; 5],
) -> u32
    ensures { Tells (behind_check pool.now (listing_asked pool.now (limits x0 x1 y1) out.old)) pool.now out.old result pool.now out.new answer.new }
{
    told::tell(
        pool::listing(pool, Limits { x0, x1, y1 }, out).into(),
        answer,
    )
}

// The strips that cover slot u.
#[unsafe(no_mangle)]
pub extern "C" fn drecerunya_list_covers(
    pool: &[u32],
    u: u32,
    out: &mut [u32],
    answer: &mut [u32; 5],
) -> u32
    ensures { Tells (behind_check pool.now (list_covers pool.now u out.old)) pool.now out.old result pool.now out.new answer.new }
{
    told::tell(strips::list_covers(pool, u, out).into(), answer)
}

// The strips that cover some slot of u..v.
#[unsafe(no_mangle)]
pub extern "C" fn drecerunya_list_meets(
    pool: &[u32],
    u: u32,
    v: u32,
    out: &mut [u32],
    answer: &mut [u32; 5],
) -> u32
    ensures { Tells (behind_check pool.now (list_meets pool.now u v out.old)) pool.now out.old result pool.now out.new answer.new }
{
    told::tell(strips::list_meets(pool, u, v, out).into(), answer)
}

// The strips that cover every slot of u..v.
#[unsafe(no_mangle)]
pub extern "C" fn drecerunya_list_contains(
    pool: &[u32],
    u: u32,
    v: u32,
    out: &mut [u32],
    answer: &mut [u32; 5],
) -> u32
    ensures { Tells (behind_check pool.now (list_contains pool.now u v out.old)) pool.now out.old result pool.now out.new answer.new }
{
    told::tell(strips::list_contains(pool, u, v, out).into(), answer)
}
