// The splitter. On trees with several burst lengths, of AXI4 and of AXI3, every beat size and every count of beats up to 259, and some
// larger ones, from starts on both sides of multiples of 4,096; and bursts made at random.
use crate::{same_entries, same_split, wide};
use burst::{Burst, split};
use generator::bursts::{bytes_of, some_beats, some_size, some_start};
use generator::number_below;
use model::{Bus, Tree};
use second::Wrong;
use second::book::most_beats;
use second::bursts::{Asked, BEATS, STARTS, Split, split_one};
use store::{DIFFERENCES, WRONG, add, get, note, put};
use treecheck::judge;

// Splits by the number of their answer.
pub const SPLITS: usize = 3456;

// The pieces of those that are not refused,
pub const PIECES: usize = 3536;

// those of them that end on the last byte of a page,
pub const AT_END: usize = 3537;

// splits whose turn chose a wrong rule,
const TURNS: usize = 3538;

// those on a tree of AXI3 that are not refused,
pub const OLDER: usize = 3544;

// and those that are refused there by 15 only for having 17 to 256 beats.
pub const OVER_16: usize = 3545;

// Burst lengths: six that a tree may have, and three that it may not.
const LENGTHS: [u16; 9] = [1, 2, 3, 16, 255, 256, 0, 257, 65535];

// The same for a tree of AXI3: three, and two.
const OLDER_LENGTHS: [u16; 5] = [1, 3, 16, 17, 256];

// Numbers past those that are tried one by one; some are good ones if they are cut to one or two bytes.
const LARGE: [u32; 8] = [
    384, 512, 65536, 65537, 65792, 2147483649, 4294967168, 4294967295,
];

// How many numbers `number_at` has.
pub const NUMBERS: u32 = 268;

// The multiples of 4,096 about which the starts lie; before 0 come the last addresses.
const PAGES: [u32; 3] = [0, 4096, 2147483648];

// Counts of beats for the starts that are tried one by one.
const SOME_BEATS: [u32; 6] = [1, 2, 17, 32, 33, 256];

// What the entries are before a split.
const START_BEFORE: u32 = 1000000;

const BEATS_BEFORE: u32 = 2000000;

fn narrow(x: usize) -> u32 {
    (x % 4294967296) as u32
}

// The numbers 0 to 259, and then the large ones.
pub fn number_at(i: u32) -> u32 {
    if i < 260 {
        return i;
    }
    LARGE[(i % 8) as usize]
}

// The tree with another burst length.
fn with_length(t: Tree, n: u16) -> Tree {
    let mut b = t.bus;
    b.burst = n;
    let mut next = t;
    next.bus = b;
    next
}

// The tree as one of AXI3.
fn as_older(t: Tree) -> Tree {
    let mut b = t.bus;
    b.axi3 = true;
    let mut next = t;
    next.bus = b;
    next
}

// The tree with its own burst length or, one time in two, with a short one.
pub fn with_some_length(t: Tree, d: &mut [usize; 16384]) -> Tree {
    if number_below(d, 2) == 0 {
        return t;
    }
    with_length(t, (number_below(d, 8) % 8) as u16 + 1)
}

// As `second` takes it.
pub(crate) fn asked(b: Burst) -> Asked {
    Asked {
        start: wide(b.start),
        beats: wide(b.beats),
        size: wide(b.size),
    }
}

// A pattern, from x on, into each entry of an array,
fn fill(a: &mut [u32; 256], x: u32) {
    for i in 0..256usize {
        a[i] = std::num::wrapping_add_u32(x, i as u32);
    }
}

// and of a part of the store.
fn fill_part(d: &mut [usize; 16384], part: usize, x: u32) {
    for i in 0..256 {
        put(d, part, i, std::num::wrapping_add_usize(wide(x), i));
    }
}

// The entries of both arrays, as they are before a split.
pub fn fill_both(starts: &mut [u32; 256], beats: &mut [u32; 256]) {
    fill(starts, START_BEFORE);
    fill(beats, BEATS_BEFORE);
}

// The same in the store.
pub fn fill_parts(d: &mut [usize; 16384]) {
    fill_part(d, STARTS, START_BEFORE);
    fill_part(d, BEATS, BEATS_BEFORE);
}

// The second splitter, on entries as they are before a split.
pub fn second_split(b: Burst, d: &mut [usize; 16384], wrong: Wrong) -> Split {
    fill_parts(d);
    split_one(asked(b), d, wrong)
}

// Has the store the entries of both arrays?
pub fn same_both(starts: &[u32; 256], beats: &[u32; 256], d: &[usize; 16384]) -> bool {
    same_entries(starts, STARTS, d) & same_entries(beats, BEATS, d)
}

// The byte after the last one of a burst that is not refused, in its page.
fn end_in_page(b: Burst) -> usize {
    let size = wide(b.size);
    if size == 0 {
        return 1;
    }
    let start = wide(b.start);
    let low = std::num::wrapping_sub_usize(start, start % size);
    std::num::wrapping_add_usize(low, bytes_of(size, wide(b.beats))) % 4096
}

fn is_good(size: u32) -> bool {
    matches!(size, 1 | 2 | 4 | 8 | 16 | 32 | 64 | 128)
}

// Is it a burst by AXI4, and by its beats none by AXI3?
pub(crate) fn is_over_16(b: Burst) -> bool {
    (16 < b.beats) & (b.beats < 257) & is_good(b.size)
}

// A split on a tree of AXI3.
fn count_older(b: Burst, y: Split, d: &mut [usize; 16384]) {
    note(d, OLDER, 0, y.number != 0);
    note(d, OVER_16, 0, (y.number != 15) | !is_over_16(b));
}

fn count_split(b: Burst, axi3: bool, y: Split, d: &mut [usize; 16384]) {
    add(d, SPLITS, y.number, 1);
    if y.number == 0 {
        add(d, PIECES, 0, y.pieces);
        note(d, AT_END, 0, end_in_page(b) != 0);
    }
    if axi3 {
        count_older(b, y, d);
    }
}

// The wrong rules in turn, and none three times.
const RULES: [Wrong; 13] = [
    Wrong::LastFull,
    Wrong::NotRounded,
    Wrong::ByLength,
    Wrong::EndCrosses,
    Wrong::PageFirst,
    Wrong::BurstFirst,
    Wrong::ThreeBytes,
    Wrong::EntriesLeft,
    Wrong::Beats256,
    Wrong::Beats16,
    Wrong::Nothing,
    Wrong::Nothing,
    Wrong::Nothing,
];

fn wrong_in_turn(d: &mut [usize; 16384]) -> Wrong {
    let turn = get(d, TURNS, 0) % 13;
    add(d, TURNS, 0, 1);
    RULES[turn]
}

// A burst on a tree that is in the rows too: answer and entries; and by a wrong rule.
fn try_split(
    t: Tree,
    b: Burst,
    d: &mut [usize; 16384],
    starts: &mut [u32; 256],
    beats: &mut [u32; 256],
) {
    fill_both(starts, beats);
    let x = split(t, b, starts, beats);
    let wrong = wrong_in_turn(d);
    if wrong != Wrong::Nothing {
        let z = second_split(b, d, wrong);
        let seen = same_both(starts, beats, d);
        note(d, WRONG, wrong as usize, same_split(x, z) & seen);
    }
    let y = second_split(b, d, Wrong::Nothing);
    let same = same_both(starts, beats, d);
    note(d, DIFFERENCES, 0, same_split(x, y) & same);
    count_split(b, t.bus.axi3, y, d);
}

// A start about a page: within 3 bytes of its first one, or about the first from which so many bytes do not reach it.
fn start_near(page: u32, k: u32, size: u32, bytes: u32) -> u32 {
    if k < 7 {
        return std::num::wrapping_sub_u32(std::num::wrapping_add_u32(page, k), 3);
    }
    let at = std::num::wrapping_sub_u32(page, bytes);
    if k < 12 {
        return std::num::wrapping_sub_u32(std::num::wrapping_add_u32(at, k), 9);
    }
    if k == 12 {
        return std::num::wrapping_sub_u32(at, size);
    }
    let more = std::num::wrapping_add_u32(size, k);
    std::num::wrapping_add_u32(at, std::num::wrapping_sub_u32(more, 14))
}

// Is every burst tried on a tree with this bus line, also of those that are refused wherever they start?
fn tries_all(b: Bus) -> bool {
    (b.burst == 16) & !b.axi3
}

// How many starts are tried of a burst, on a tree with this bus line: sixteen, or, if it is refused by 11 or 15 wherever it is, one, for
// other trees than that of AXI4 with length 16 only if its beat size is good, or for one such burst in eight.
fn start_count(b: Bus, size: u32, beats: u32) -> u32 {
    let most = most_beats(b.axi3);
    let taken = (1 <= b.burst) & (b.burst as usize <= most);
    if taken & is_good(size) & (wide(beats) <= std::num::wrapping_add_usize(most, 1)) {
        return 16;
    }
    let turn = std::num::wrapping_add_u32(size, beats) % 8;
    if tries_all(b) | is_good(size) | (turn == 0) {
        return 1;
    }
    0
}

// Beats of this size, so many of them, from starts about the pages, which come in turn.
fn try_starts(
    t: Tree,
    size: u32,
    count: u32,
    d: &mut [usize; 16384],
    starts: &mut [u32; 256],
    beats: &mut [u32; 256],
) {
    let n = start_count(t.bus, size, count);
    let bytes = narrow(bytes_of(wide(size), wide(count)));
    for k in 0..n {
        let turn = std::num::wrapping_add_u32(k, count);
        let page = PAGES[(turn % 3) as usize];
        let b = Burst {
            start: start_near(
                page,
                std::num::wrapping_add_u32(turn, size) % 16,
                size,
                bytes,
            ),
            beats: count,
            size: size,
        };
        try_split(t, b, d, starts, beats);
    }
}

// Beats of this size, any number of them.
fn try_size(
    t: Tree,
    size: u32,
    d: &mut [usize; 16384],
    starts: &mut [u32; 256],
    beats: &mut [u32; 256],
) {
    for i in 0..NUMBERS {
        try_starts(t, size, number_at(i), d, starts, beats);
    }
}

// Any size, on a tree that is put in the rows.
fn try_sizes(t: Tree, d: &mut [usize; 16384], starts: &mut [u32; 256], beats: &mut [u32; 256]) {
    judge(t, d);
    for i in 0..NUMBERS {
        try_size(t, number_at(i), d, starts, beats);
    }
}

// The tree with each of the burst lengths.
pub fn try_lengths(
    t: Tree,
    d: &mut [usize; 16384],
    starts: &mut [u32; 256],
    beats: &mut [u32; 256],
) {
    for i in 0..9usize {
        try_sizes(with_length(t, LENGTHS[i]), d, starts, beats);
    }
}

// The same on the tree as one of AXI3.
pub fn try_older_lengths(
    t: Tree,
    d: &mut [usize; 16384],
    starts: &mut [u32; 256],
    beats: &mut [u32; 256],
) {
    for i in 0..5usize {
        try_sizes(with_length(as_older(t), OLDER_LENGTHS[i]), d, starts, beats);
    }
}

// Every good size from this start, with some counts of beats.
fn try_start(
    t: Tree,
    start: u32,
    d: &mut [usize; 16384],
    starts: &mut [u32; 256],
    beats: &mut [u32; 256],
) {
    for i in 0..48u32 {
        let b = Burst {
            start: start,
            beats: SOME_BEATS[(i / 8 % 6) as usize],
            size: 1 << (i % 8),
        };
        try_split(t, b, d, starts, beats);
    }
}

// Every start within 130 bytes of a page, on a tree that is put in the rows.
pub fn try_band(t: Tree, d: &mut [usize; 16384], starts: &mut [u32; 256], beats: &mut [u32; 256]) {
    judge(t, d);
    for k in 0..783u32 {
        let page = PAGES[(k % 3) as usize];
        let near = std::num::wrapping_sub_u32(k / 3, 130);
        try_start(t, std::num::wrapping_add_u32(page, near), d, starts, beats);
    }
}

// A burst made at random for a tree.
pub fn some_burst(t: Tree, d: &mut [usize; 16384]) -> Burst {
    let size = some_size(d);
    let beats = some_beats(d, t.bus.burst as usize, most_beats(t.bus.axi3));
    let start = some_start(d, bytes_of(size, beats));
    Burst {
        start: narrow(start),
        beats: narrow(beats),
        size: narrow(size),
    }
}

// Bursts made at random, on a tree that is in the rows.
pub fn try_some(t: Tree, d: &mut [usize; 16384], starts: &mut [u32; 256], beats: &mut [u32; 256]) {
    for _ in 0..8usize {
        let b = some_burst(t, d);
        try_split(t, b, d, starts, beats);
    }
}
