// The returning transactions: a bit of the library's state for each, by the slots since its service, beside the slot in which it comes
// home, as the second machine has it.
ghost use Rattle.std.specs.Prelude.{◌≡◌, ◌<◌};
ghost use Rattle.callcheck.specs.Same.{bit_is, due_slot, same_return, same_bits, same_returns};

use generator::number_below;
use model::State;
use model::access::returns_of;
use second::home::{forget_returns, is_due, put_return, returning};

// The ways in which the returns of an accelerator are altered: one more is due in one of the next r slots,
pub const ONE_MORE: usize = 0;
// or one in each of them;
pub const IN_EACH: usize = 1;
// one is due now,
pub const AT_ONCE: usize = 2;
// earlier,
pub const EARLIER: usize = 3;
// or more than r slots ahead;
pub const TOO_FAR: usize = 4;
// one is of an accelerator that the tree has not.
pub const UNUSED: usize = 5;

pub const WAYS: usize = 6;

// Is bit k of x set: was one served k slots ago?
fn bit_is(x: u32, k: u8) -> bool
    requires { k < 32 }
    ensures { result ≡ bit_is x k }
{
    (x >> k) % 2 == 1
}

// The slot in which that one comes home, as seen from slot n.
fn due_slot(n: u32, delay: u8, k: u8) -> usize
    ensures { result ≡ due_slot n delay k }
{
    std::num::wrapping_sub_usize(n as usize + delay as usize + 1, k as usize)
}

// Was one of accelerator a's transactions served k slots ago exactly if one comes home in slot n?
fn same_return(x: u32, k: u8, a: usize, n: usize, d: &[usize; 16384]) -> bool
    requires { k < 32 }
    ensures { result ≡ same_return x k a n d.now }
{
    if is_due(d, a, n) {
        return bit_is(x, k);
    }
    !bit_is(x, k)
}

fn same_bits(x: u32, a: usize, n: u32, delay: u8, d: &[usize; 16384]) -> bool
    ensures { result ≡ same_bits x a n delay d.now }
{
    let mut same = true;
    for k in 0..32 {
        same &= same_return(x, k, a, due_slot(n, delay, k), d);
    }
    same
}

// Has accelerator a as many returns in both, each due in the same slot?
pub(crate) fn same_returns(s: State, a: u8, delay: u8, d: &[usize; 16384]) -> bool
    ensures { result ≡ same_returns s a delay d.now }
{
    let x = returns_of(s, a);
    let i = a as usize;
    (x.count_ones() as usize == returning(d, i)) & same_bits(x, i, s.slot, delay, d)
}

// The second machine's returns of accelerator a, by the bits of x, as seen from slot n: the one served last comes home last.
fn give(x: u32, a: usize, n: u32, delay: u8, d: &mut [usize; 16384]) {
    forget_returns(d, a);
    for k in 0..32u8 {
        if bit_is(x, k) {
            put_return(d, a, due_slot(n, delay, k));
        }
    }
}

// All returns of the library's state, on a tree with this return delay, given to the second machine.
pub fn give_all(s: State, delay: u8, d: &mut [usize; 16384]) {
    for a in 0..32u8 {
        give(returns_of(s, a), a as usize, s.slot, delay, d);
    }
}

// How many slots ago the transaction was served that is put in.
fn slots_ago(way: usize, r: usize, d: &mut [usize; 16384]) -> usize {
    if way == ONE_MORE {
        return number_below(d, r) % 16 + 1;
    }
    if way == AT_ONCE {
        return r % 16 + 1;
    }
    if way == EARLIER {
        let more = number_below(d, 30 - r % 16);
        return std::num::wrapping_add_usize(r % 16 + 2, more);
    }
    if way == TOO_FAR { 0 } else { 1 }
}

// The returns x of an accelerator altered in one of the ways, on a tree with return delay r. With 0 there is none that is kept.
pub(crate) fn altered_bits(x: u32, way: usize, r: usize, d: &mut [usize; 16384]) -> u32 {
    if (r == 0) & (way == ONE_MORE) {
        return x;
    }
    if way == IN_EACH {
        return (65534 >> (15 - r % 16)) & 65534;
    }
    x | (1 << (slots_ago(way, r, d) % 32))
}
