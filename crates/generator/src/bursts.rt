// Bursts, made at random: beats about the tree's burst length and about both limits, 16 and 256, sizes good and bad, and starts from which
// the burst often begins or ends at a multiple of 4,096; once in a while any numbers.
use crate::generate::{below, once_in};

// Numbers that no beat size and no count of beats may be, and their neighbours.
const LARGE: [usize; 8] = [256, 257, 511, 512, 65535, 65536, 65537, 4294967295];

// One more than the last address.
const ADDRESSES: usize = 4294967296;

fn large(d: &mut [usize; 16384]) -> usize {
    let i = below(d, 8) % 8;
    LARGE[i]
}

// A beat size: mostly a power of two up to 128.
pub fn some_size(d: &mut [usize; 16384]) -> usize {
    if once_in(d, 30) {
        return large(d);
    }
    if once_in(d, 10) {
        return below(d, 130);
    }
    1 << (below(d, 8) % 8)
}

// One less than n, n, or one more.
fn about(d: &mut [usize; 16384], n: usize) -> usize {
    n.wrapping_add(below(d, 3)).wrapping_sub(1)
}

// About the beats of one piece, of two or of three.
fn about_pieces(d: &mut [usize; 16384], n: usize) -> usize {
    let mut beats = n;
    if once_in(d, 2) {
        beats = beats.wrapping_add(n);
    }
    if once_in(d, 2) {
        beats = beats.wrapping_add(n);
    }
    about(d, beats)
}

// About 16 or about 256, the limit of the other trees.
fn about_other(d: &mut [usize; 16384], most: usize) -> usize {
    if most == 16 {
        return about(d, 256);
    }
    about(d, 16)
}

// A count of beats, for a tree with burst length n on which bursts have at most so many beats, 16 or 256: mostly not more.
pub fn some_beats(d: &mut [usize; 16384], n: usize, most: usize) -> usize {
    let kind = below(d, 20);
    if kind == 0 {
        return large(d);
    }
    if kind < 4 {
        return about(d, most);
    }
    if kind < 6 {
        return about_other(d, most);
    }
    if kind < 13 {
        return about_pieces(d, n);
    }
    below(d, most.wrapping_add(2))
}

// How many bytes so many beats of this size have, unless they are more than a burst may have.
pub fn bytes_of(size: usize, beats: usize) -> usize {
    (size % 256) * (beats % 512)
}

// A distance of at most 2 bytes, or of at most 128, going round.
fn little(d: &mut [usize; 16384]) -> usize {
    if once_in(d, 2) {
        return below(d, 5).wrapping_sub(2);
    }
    below(d, 257).wrapping_sub(128)
}

// A start address, for a burst of so many bytes: mostly the burst begins or ends within a little of a multiple of 4,096, which may be
// the end of all addresses.
pub fn some_start(d: &mut [usize; 16384], bytes: usize) -> usize {
    let any = below(d, ADDRESSES) % ADDRESSES;
    let kind = below(d, 8);
    if kind == 0 {
        return any;
    }
    let mut at = 0usize;
    if kind % 2 == 0 {
        at = any.wrapping_sub(any % 4096);
    }
    if kind < 5 {
        at = at.wrapping_sub(bytes);
    }
    at.wrapping_add(little(d)) % ADDRESSES
}

// Which piece an offered burst begins with: mostly the first.
pub fn some_piece(d: &mut [usize; 16384]) -> usize {
    if once_in(d, 20) {
        return large(d);
    }
    if once_in(d, 3) {
        return below(d, 20);
    }
    0
}
