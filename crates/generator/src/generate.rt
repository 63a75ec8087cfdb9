// Tree and trace files, made at random from a fixed seed: most are sound, and some break a rule here and there.
use std::io::Write;
use store::{clear, get, put};

// The random number; where the text begins, and its length so far.
pub const SEED: usize = 4096;

pub const SIDE: usize = 4097;

pub const LENGTH: usize = 4098;

// How many fields until one is set past its limits.
const FLAW: usize = 4099;

// How many interconnects are written, the level of each, and which ports are taken.
const INTS: usize = 4100;

const LEVEL: usize = 4112;

const TAKEN: usize = 4160;

// For each channel which accelerators of the last tree have no transactions there: a bit for each.
const IDLE: usize = 4368;

// Where an acc line stands that finds no free port: past the last one.
const NOWHERE: usize = 120;

// The limits of the bus line's delays.
const DELAYS: [(usize, usize); 8] = [
    (1, 255),
    (0, 255),
    (0, 255),
    (0, 255),
    (0, 4095),
    (0, 4095),
    (1, 255),
    (1, 255),
];

// A number below n, by Marsaglia's xorshift.
pub fn below(d: &mut [usize; 16384], n: usize) -> usize {
    let x = get(d, SEED, 0);
    let y = x ^ (x << 13);
    let z = y ^ (y >> 7);
    let next = z ^ (z << 17);
    put(d, SEED, 0, next);
    if n == 0 {
        return 0;
    }
    (next >> 8) % n
}

// True once in n times.
pub fn once_in(d: &mut [usize; 16384], n: usize) -> bool {
    below(d, n) == 0
}

// Up to `few`, and once in n times up to `many`.
fn mixed(d: &mut [usize; 16384], few: usize, n: usize, many: usize) -> usize {
    if once_in(d, n) {
        return below(d, many);
    }
    below(d, few)
}

// Up to `few`, once in 3 times up to `many`, and once in 20 times the most.
fn mixed_or_all(d: &mut [usize; 16384], few: usize, many: usize) -> usize {
    if once_in(d, 20) {
        return many.wrapping_sub(1);
    }
    mixed(d, few, 3, many)
}

// A byte goes to the end of the text, which has room for 8,192.
pub fn put_byte(w: &mut [u8; 16384], d: &mut [usize; 16384], b: u8) {
    let n = get(d, LENGTH, 0) % 8192;
    let at = get(d, SIDE, 0).wrapping_add(n) % 16384;
    w[at] = b;
    put(d, LENGTH, 0, n + 1);
}

pub fn put_text(w: &mut [u8; 16384], d: &mut [usize; 16384], s: &[u8]) {
    for b in s {
        put_byte(w, d, *b);
    }
}

// The digits of n, twenty at most.
pub fn put_number(w: &mut [u8; 16384], d: &mut [usize; 16384], n: usize) {
    let mut text = [0u8; 20];
    let mut rest = &mut text[..20];
    let _ = write!(rest, "{n}");
    let left = rest.len();
    put_text(w, d, &text[..20usize.saturating_sub(left)]);
}

// A tab and x.
pub fn put_column(w: &mut [u8; 16384], d: &mut [usize; 16384], x: usize) {
    put_byte(w, d, 9);
    put_number(w, d, x);
}

// A number past one of its limits.
fn beyond(d: &mut [usize; 16384], low: usize, high: usize) -> usize {
    if (low != 0) & once_in(d, 2) {
        return low.wrapping_sub(1);
    }
    high.wrapping_add(1)
}

// A tab and x, or in a field that is to break its limits a number past them.
fn put_field(w: &mut [u8; 16384], d: &mut [usize; 16384], x: usize, low: usize, high: usize) {
    let left = get(d, FLAW, 0);
    put(d, FLAW, 0, left.wrapping_sub(1));
    let mut y = x;
    if left == 0 {
        y = beyond(d, low, high);
    }
    put_column(w, d, y);
}

// A tab and a number from low to high.
fn put_any(w: &mut [u8; 16384], d: &mut [usize; 16384], low: usize, high: usize) {
    let span = high.wrapping_add(1).wrapping_sub(low);
    let x = low.wrapping_add(below(d, span));
    put_field(w, d, x, low, high);
}

// A number of 1 or more, mostly small.
fn put_mostly(w: &mut [u8; 16384], d: &mut [usize; 16384], few: usize, n: usize, high: usize) {
    let x = mixed(d, few, n, high).wrapping_add(1);
    put_field(w, d, x, 1, high);
}

// A number below `many`, mostly small.
fn put_mixed(w: &mut [u8; 16384], d: &mut [usize; 16384], few: usize, n: usize, many: usize) {
    let x = mixed(d, few, n, many);
    put_field(w, d, x, 0, many.wrapping_sub(1));
}

// A return delay past its limit, "-", one that is empty, or a twelfth number after it.
fn put_wrong_delay(w: &mut [u8; 16384], d: &mut [usize; 16384]) {
    let kind = below(d, 4);
    if kind == 0 {
        let past = below(d, 3);
        put_column(w, d, past.wrapping_add(16));
    } else if kind == 1 {
        put_text(w, d, b"\t-");
    } else if kind == 2 {
        put_byte(w, d, 9);
    } else {
        put_any(w, d, 0, 15);
        put_any(w, d, 0, 15);
    }
}

// The return delay: left out one time in three, mostly small, and wrong once in a while.
fn put_delay(w: &mut [u8; 16384], d: &mut [usize; 16384]) {
    if once_in(d, 3) {
        return;
    }
    if once_in(d, 25) {
        put_wrong_delay(w, d);
    } else {
        put_mixed(w, d, 5, 2, 16);
    }
}

// The burst length: on a bus3 line mostly up to 16, and once in 15 times up to 256; on a bus line up to 256, and once in 5 times up to 16.
fn put_burst(w: &mut [u8; 16384], d: &mut [usize; 16384], older: bool) {
    if older {
        let x = mixed(d, 16, 15, 256);
        put_field(w, d, x.wrapping_add(1), 1, 16);
    } else {
        let x = mixed(d, 256, 5, 16);
        put_field(w, d, x.wrapping_add(1), 1, 256);
    }
}

// The bus line, which is named bus3 one time in three.
fn bus_line(w: &mut [u8; 16384], d: &mut [usize; 16384]) {
    let older = once_in(d, 3);
    if older {
        put_text(w, d, b"bus3");
    } else {
        put_text(w, d, b"bus");
    }
    put_mostly(w, d, 14, 12, 65535);
    for (low, high) in DELAYS {
        put_any(w, d, low, high);
    }
    put_burst(w, d, older);
    put_delay(w, d);
    put_byte(w, d, 10);
}

// A free port of the first `ints` interconnects, of those whose level is at most `top`: 8 x interconnect + port.
fn free_port(d: &mut [usize; 16384], ints: usize, top: usize) -> Option<usize> {
    let all = (ints % 16) * 8;
    if all == 0 {
        return None;
    }
    let mut first = below(d, all);
    if once_in(d, 3) {
        first = all - 1;
    }
    if once_in(d, 150) {
        return Some(first);
    }
    for i in 0..120 {
        let at = first.wrapping_add(i) % all;
        if (get(d, TAKEN, at) == 0) & (get(d, LEVEL, at / 8) <= top) {
            return Some(at);
        }
    }
    None
}

fn put_place(w: &mut [u8; 16384], d: &mut [usize; 16384], at: usize) {
    put(d, TAKEN, at % 128, 1);
    put_field(w, d, at / 8, 0, 14);
    put_field(w, d, at % 8, 0, 7);
}

// An int line, below the root if any port is left for it.
fn int_line(w: &mut [u8; 16384], d: &mut [usize; 16384]) {
    let i = get(d, INTS, 0);
    let above = free_port(d, i, 3);
    if above.is_none() & (i != 0) {
        return;
    }
    put_text(w, d, b"int");
    put_field(w, d, i, 0, 14);
    if let Some(at) = above {
        let level = get(d, LEVEL, at / 8).wrapping_add(1);
        put(d, LEVEL, i, level);
        put_place(w, d, at);
    } else {
        put_text(w, d, b"\t-\t-");
        put(d, LEVEL, 0, 1);
    }
    put_mostly(w, d, 4, 4, 16);
    put_byte(w, d, 10);
    put(d, INTS, 0, i.wrapping_add(1));
}

// The transactions of accelerator a's job on a channel, or none.
fn put_transactions(
    w: &mut [u8; 16384],
    d: &mut [usize; 16384],
    a: usize,
    channel: usize,
    none: bool,
) {
    let mut n = mixed(d, 20, 3, 65536);
    if none {
        n = 0;
    }
    if n == 0 {
        let idle = get(d, IDLE, channel);
        put(d, IDLE, channel, idle | (1 << (a % 32)));
    }
    put_field(w, d, n, 0, 65535);
}

// The reads and writes of accelerator a's job: about one job in five has no reads, one in five no writes, and a few have neither.
fn put_job(w: &mut [u8; 16384], d: &mut [usize; 16384], a: usize) {
    let kind = below(d, 25);
    let neither = kind == 0;
    put_transactions(w, d, a, 0, neither | (kind % 5 == 1));
    put_transactions(w, d, a, 1, neither | (kind % 5 == 2));
}

fn acc_line(w: &mut [u8; 16384], d: &mut [usize; 16384], a: usize) {
    let ints = get(d, INTS, 0);
    let at = free_port(d, ints, 4).unwrap_or(NOWHERE);
    put_text(w, d, b"acc");
    put_field(w, d, a, 0, 31);
    put_place(w, d, at);
    put_mostly(w, d, 4, 3, 16);
    put_mostly(w, d, 5, 4, 1024);
    put_job(w, d, a);
    put_mixed(w, d, 5000, 3, 4294967296);
    put_mostly(w, d, 1000000, 3, 4294967295);
    put_byte(w, d, 10);
}

// The number of acc line i of n: rising, falling, or going round; once in a while any.
fn number_of(d: &mut [usize; 16384], i: usize, n: usize, order: usize) -> usize {
    if once_in(d, 200) {
        return below(d, 32);
    }
    if n == 0 {
        return 0;
    }
    if order == 0 {
        return n.wrapping_sub(i.wrapping_add(1));
    }
    if order == 1 {
        return i.wrapping_add(3) % n;
    }
    i
}

fn acc_lines(w: &mut [u8; 16384], d: &mut [usize; 16384]) {
    let ports = (get(d, INTS, 0) % 16) * 7 + 1;
    let wanted = mixed_or_all(d, 8, 32).wrapping_add(1);
    let n = wanted.min(ports);
    let order = below(d, 4);
    for i in 0..n.min(32) {
        let a = number_of(d, i, n, order);
        acc_line(w, d, a);
    }
}

fn int_lines(w: &mut [u8; 16384], d: &mut [usize; 16384]) {
    let n = mixed_or_all(d, 5, 15).wrapping_add(1);
    for _ in 0..n.min(15) {
        int_line(w, d);
    }
}

// Nothing is written yet; the random number stays.
fn begin(d: &mut [usize; 16384]) {
    clear(d, SIDE, 256);
    let flaw = below(d, 1500);
    put(d, FLAW, 0, flaw);
}

// A tree file, in the first half of w.
pub fn make_tree(w: &mut [u8; 16384], d: &mut [usize; 16384]) {
    begin(d);
    clear(d, IDLE, 2);
    bus_line(w, d);
    int_lines(w, d);
    acc_lines(w, d);
}

// How far the next line's slot is from the one before.
fn stride(d: &mut [usize; 16384]) -> usize {
    let kind = below(d, 10);
    if kind < 6 {
        return 0;
    }
    if kind < 9 {
        return below(d, 6);
    }
    mixed(d, 50, 40, 4000000000)
}

fn put_request(w: &mut [u8; 16384], d: &mut [usize; 16384], slot: usize, a: usize) {
    put_byte(w, d, 111);
    put_field(w, d, slot, 0, 4294967294);
    put_column(w, d, a);
    put_mostly(w, d, 5, 4, 16);
    put_byte(w, d, 10);
}

// An accelerator below `accs`, at random: the first from there on, going round, that is not skipped.
fn asked(d: &mut [usize; 16384], accs: usize, skipped: usize) -> usize {
    let n = accs % 256;
    if n == 0 {
        return 0;
    }
    let first = below(d, n);
    for i in 0..32 {
        let a = first.wrapping_add(i) % n;
        if (skipped >> (a % 32)) % 2 == 0 {
            return a;
        }
    }
    first
}

fn request_line(
    w: &mut [u8; 16384],
    d: &mut [usize; 16384],
    slot: usize,
    accs: usize,
    skipped: usize,
) {
    let mut at = slot;
    let mut a = asked(d, accs, skipped);
    if once_in(d, 250) {
        a = accs.wrapping_add(below(d, 3));
    }
    if once_in(d, 250) {
        at = below(d, slot);
        a = below(d, accs.wrapping_add(1));
    }
    put_request(w, d, at, a);
}

// Those that a trace for a channel leaves out: mostly the accelerators of the last tree that have no transactions there.
fn left_out(d: &mut [usize; 16384], channel: usize) -> usize {
    if once_in(d, 4) {
        return 0;
    }
    get(d, IDLE, channel % 2)
}

// A trace file for a channel, in the first half of w, for a tree with so many accelerators. What is held of one without transactions
// there is never admitted, so one trace in four asks for any.
pub fn make_trace(w: &mut [u8; 16384], d: &mut [usize; 16384], accs: usize, channel: usize) {
    begin(d);
    let skipped = left_out(d, channel);
    let lines = below(d, 30);
    let mut slot = 0usize;
    for _ in 0..lines {
        slot = slot.wrapping_add(stride(d)) % 4294967295;
        request_line(w, d, slot, accs, skipped);
    }
}
