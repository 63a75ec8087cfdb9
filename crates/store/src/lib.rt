// One block of numbers, the store, holds all that the second implementation, the generator and the counts keep, in parts that
// begin at fixed places: those of `second` lie below 3072, from 5120 and from 8192 on, the counts of `crosscheck`, `callcheck` and
// `burstcheck` from 3072 on, those of `generator` from 4096 on. A place past the end goes round. There are no structs for a tree, a
// state or their records: the second implementation keeps them in another form than the library on purpose, so that an error in one
// form is not in both, and the equations of its `specs/` speak of these numbers.
#![tactic(auto)]

ghost use Rattle.std.specs.Prelude.{◌≡◌, ◌<◌};
ghost use Rattle.store.specs.Store.{place_of, number_at, stored, added, cleared, noted};

// For each wrong rule of `second` the inputs on which it is seen; there is room for 128.
pub const WRONG: usize = 3584;

// The differences between the library and `second`.
pub const DIFFERENCES: usize = 3152;

// Where number i of a part stands.
fn place(part: usize, i: usize) -> usize
    ensures { (result ≡ place_of part i) × (result < 16384) }
{
    part.wrapping_add(i) % 16384
}

// Number i of a part.
pub fn get(d: &[usize; 16384], part: usize, i: usize) -> usize
    ensures { result ≡ number_at d.now part i }
{
    let at = place(part, i);
    d[at]
}

// Sets number i of a part to x.
pub fn put(d: &mut [usize; 16384], part: usize, i: usize, x: usize)
    ensures { d.new ≡ stored d.old part i x }
{
    let at = place(part, i);
    d[at] = x;
}

// Adds x to number i of a part.
pub fn add(d: &mut [usize; 16384], part: usize, i: usize, x: usize)
    ensures { d.new ≡ added d.old part i x }
{
    let at = place(part, i);
    d[at] = d[at].wrapping_add(x);
}

// Sets n numbers of a part to 0.
pub fn clear(d: &mut [usize; 16384], part: usize, n: usize)
    ensures { d.new ≡ cleared d.old part n }
{
    for i in 0..n {
        put(d, part, i, 0);
    }
}

// Counts one at i of a part, unless two answers are the same.
pub fn note(d: &mut [usize; 16384], part: usize, i: usize, same: bool)
    ensures { d.new ≡ noted d.old part i same }
{
    if !same {
        add(d, part, i, 1);
    }
}
