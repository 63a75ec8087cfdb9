// The files that both implementations are run on: made at random from a fixed seed, damaged, at a limit, listed, or other texts of
// a tree; and bursts. A text stands in one half of an array, and its length in the store, as every number of the tests does: a slice
// could not be lent beside the other half, of which it is a copy.
//
// Test code, without contracts: it is proved that each function is safe and ends.
#![tactic(auto)]

pub mod bursts;
mod damage;
mod generate;
pub mod limits;
pub mod listed;
pub mod pages;
pub mod shuffle;

use crate::damage::copy_or_damage;
use crate::generate::{LENGTH, SEED, below, make_trace, make_tree};
use store::{get, put};

// The first random number.
pub fn start(d: &mut [usize; 16384]) {
    put(d, SEED, 0, 88172645463325252);
}

// A tree file, in the second half of w; one in four is damaged.
pub fn tree_file(w: &mut [u8; 16384], d: &mut [usize; 16384]) {
    make_tree(w, d);
    copy_or_damage(w, d);
}

// A trace file for a channel, 0 or 1, in the second half of w, for the last tree made, which has so many accelerators; one in four is
// damaged.
pub fn trace_file(w: &mut [u8; 16384], d: &mut [usize; 16384], accs: usize, channel: usize) {
    make_trace(w, d, accs, channel);
    copy_or_damage(w, d);
}

// How many bytes the last file that was made has.
pub fn size(d: &[usize; 16384]) -> usize {
    get(d, LENGTH, 0)
}

// The file of n bytes in the second half of w.
pub fn file_in(w: &[u8; 16384], n: usize) -> &[u8] {
    let to = 8192 + n % 8193;
    let all = &w[..];
    &all[8192..to]
}

// The last file that was made, in the second half of w.
pub fn made<'a>(w: &'a [u8; 16384], d: &[usize; 16384]) -> &'a [u8] {
    file_in(w, size(d))
}

// A number below n.
pub fn number_below(d: &mut [usize; 16384], n: usize) -> usize {
    below(d, n)
}

// The size of a buffer, 0 to 500 bytes.
pub fn buffer_size(d: &mut [usize; 16384]) -> usize {
    let size = below(d, 501);
    if below(d, 4) == 0 {
        return below(d, 20);
    }
    size
}
