// The six tree files of document 01's case 11, trees with a return delay at its limits, trees by the record names of their bus lines, and
// trees with all interconnects and accelerators, each in the second half of w.
use crate::generate::{LENGTH, SIDE, put_byte, put_column, put_text};
use store::put;

// Nothing is written yet.
fn begin(d: &mut [usize; 16384]) {
    put(d, SIDE, 0, 8192);
    put(d, LENGTH, 0, 0);
}

// A bus line under this record name, up to the burst length.
fn put_named(w: &mut [u8; 16384], d: &mut [usize; 16384], name: &[u8], burst: usize) {
    put_text(w, d, name);
    put_text(w, d, b"\t16\t1\t4\t2\t2\t30\t25\t1\t1");
    put_column(w, d, burst);
}

// The bus line up to the burst length.
fn put_head(w: &mut [u8; 16384], d: &mut [usize; 16384], burst: usize) {
    begin(d);
    put_named(w, d, b"bus", burst);
}

// The end of the bus line, and the root.
fn put_root(w: &mut [u8; 16384], d: &mut [usize; 16384]) {
    put_text(w, d, b"\nint\t0\t-\t-\t1\n");
}

// The bus line, with what comes after its burst length; the root.
fn put_line(w: &mut [u8; 16384], d: &mut [usize; 16384], burst: usize, rest: &[u8]) {
    put_head(w, d, burst);
    put_text(w, d, rest);
    put_root(w, d);
}

fn put_bus(w: &mut [u8; 16384], d: &mut [usize; 16384], burst: usize) {
    put_line(w, d, burst, b"");
}

// A line under this record name: the block's number, the interconnect above it and the port there; and the rest of the line.
fn put_block(
    w: &mut [u8; 16384],
    d: &mut [usize; 16384],
    name: &[u8],
    place: [usize; 3],
    rest: &[u8],
) {
    put_text(w, d, name);
    for x in place {
        put_column(w, d, x);
    }
    put_text(w, d, rest);
}

fn put_int(w: &mut [u8; 16384], d: &mut [usize; 16384], i: usize, parent: usize, port: usize) {
    put_block(w, d, b"int", [i, parent, port], b"\t1\n");
}

fn put_acc(w: &mut [u8; 16384], d: &mut [usize; 16384], a: usize, i: usize, port: usize) {
    put_block(w, d, b"acc", [a, i, port], b"\t4\t8\t1\t1\t0\t1000\n");
}

// Interconnects below one another, `levels` of them, and an accelerator on the lowest.
fn chain(w: &mut [u8; 16384], d: &mut [usize; 16384], levels: usize) {
    put_bus(w, d, 16);
    for i in 1..levels.min(15) {
        put_int(w, d, i, i - 1, 1);
    }
    put_acc(w, d, 0, levels.wrapping_sub(1), 0);
}

// The bus line, the root, and four interconnects under it.
fn put_four(w: &mut [u8; 16384], d: &mut [usize; 16384]) {
    put_bus(w, d, 16);
    put_int(w, d, 1, 0, 1);
    put_int(w, d, 2, 0, 2);
    put_int(w, d, 3, 0, 3);
    put_int(w, d, 4, 0, 4);
}

// Four interconnects under the root, and n accelerators on their ports; one more would be on the root.
fn crowd(w: &mut [u8; 16384], d: &mut [usize; 16384], n: usize) {
    put_four(w, d);
    for a in 0..n.min(33) {
        put_acc(w, d, a, (a / 8 + 1) % 5, a % 8);
    }
}

// Interconnect i of fifteen: seven under the root, and seven under the seventh of these, at ports 1 to 7.
fn put_one_of_15(w: &mut [u8; 16384], d: &mut [usize; 16384], i: usize) {
    if i < 8 {
        put_int(w, d, i, 0, i);
    } else {
        put_int(w, d, i, 7, i.wrapping_sub(7));
    }
}

// The bus line, with the rest of it, the root, and fourteen interconnects.
fn put_15(w: &mut [u8; 16384], d: &mut [usize; 16384], rest: &[u8]) {
    put_line(w, d, 16, rest);
    for i in 1..15 {
        put_one_of_15(w, d, i);
    }
}

// 15 interconnects and 32 accelerators, the last at port 7 of the last interconnect.
fn wide(w: &mut [u8; 16384], d: &mut [usize; 16384], rest: &[u8]) {
    put_15(w, d, rest);
    for a in 0..31 {
        put_acc(w, d, a, (a / 8 + 1) % 5, a % 8);
    }
    put_acc(w, d, 31, 14, 7);
}

fn single(w: &mut [u8; 16384], d: &mut [usize; 16384], burst: usize) {
    put_bus(w, d, burst);
    put_acc(w, d, 0, 0, 0);
}

// How many files there are with a return delay at its limits.
pub const DELAYS: usize = 8;

// Of each its burst length and its return delay, which is empty once, there twice, and "-".
const DELAYED: [(usize, &[u8]); DELAYS] = [
    (16, b"\t0"),
    (16, b"\t15"),
    (16, b"\t16"),
    (16, b"\t"),
    (16, b"\t1\t1"),
    (16, b"\t-"),
    (257, b"\t15"),
    (256, b"\t1"),
];

// One of them: a bus line with more after its burst length, and two accelerators.
pub fn make_delay(w: &mut [u8; 16384], d: &mut [usize; 16384], i: usize) {
    let (burst, delay) = DELAYED[i % DELAYS];
    put_head(w, d, burst);
    put_text(w, d, delay);
    put_rest(w, d);
}

// How many files there are by the record names of their bus lines.
pub const NAMES: usize = 32;

// Of the first twelve, of which eight are named bus3 and four bus, the burst length and the return delay, which most leave out.
const NAMED: [(usize, &[u8]); 12] = [
    (16, b""),
    (17, b""),
    (16, b"\t0"),
    (16, b"\t15"),
    (16, b"\t16"),
    (1, b"\t1"),
    (0, b""),
    (256, b""),
    (16, b""),
    (17, b""),
    (256, b""),
    (257, b""),
];

// A bus line named bus3 or bus, up to the burst length.
fn put_either(w: &mut [u8; 16384], d: &mut [usize; 16384], older: bool, burst: usize) {
    if older {
        put_named(w, d, b"bus3", burst);
    } else {
        put_named(w, d, b"bus", burst);
    }
}

// The end of the bus line, the root, and two accelerators.
fn put_rest(w: &mut [u8; 16384], d: &mut [usize; 16384]) {
    put_root(w, d);
    put_acc(w, d, 0, 0, 0);
    put_acc(w, d, 1, 0, 7);
}

// One bus line, at the limits of its name.
fn make_one(w: &mut [u8; 16384], d: &mut [usize; 16384], i: usize) {
    let (burst, delay) = NAMED[i % 12];
    put_either(w, d, i < 8, burst);
    put_text(w, d, delay);
    put_rest(w, d);
}

// Two bus lines, for i up to 3 of different names and else of the same, the second with a burst length of 16 or 17.
fn make_two(w: &mut [u8; 16384], d: &mut [usize; 16384], i: usize) {
    let first = i % 2 == 0;
    put_either(w, d, first, 16);
    put_byte(w, d, 10);
    let burst = 16 + i / 2 % 2;
    if i < 4 {
        put_either(w, d, !first, burst);
    } else {
        put_either(w, d, first, burst);
    }
    put_rest(w, d);
}

// A second bus line, of the other name, at the end.
fn make_last(w: &mut [u8; 16384], d: &mut [usize; 16384], first: bool) {
    put_either(w, d, first, 16);
    put_rest(w, d);
    put_either(w, d, !first, 16);
    put_byte(w, d, 10);
}

// What is nearly one of the two names.
const NEAR: [&[u8]; 10] = [
    b"bus33", b"BUS3", b"Bus3", b"bu3", b"bu", b"3bus", b"bus ", b"bus3 ", b"bus2", b"bus03",
];

// A bus line under one of them.
fn make_near(w: &mut [u8; 16384], d: &mut [usize; 16384], i: usize) {
    put_named(w, d, NEAR[i.min(9)], 16);
    put_rest(w, d);
}

// One of the files by the record names of their bus lines: twelve with one bus line, eight with two, two with a second one at the end,
// and ten with another name.
pub fn make_name(w: &mut [u8; 16384], d: &mut [usize; 16384], i: usize) {
    begin(d);
    if i < 12 {
        make_one(w, d, i);
    } else if i < 20 {
        make_two(w, d, i - 12);
    } else if i < 22 {
        make_last(w, d, i == 20);
    } else {
        make_near(w, d, i - 22);
    }
}

// The widest tree, with a return delay of 15.
pub fn make_wide_late(w: &mut [u8; 16384], d: &mut [usize; 16384]) {
    wide(w, d, b"\t15");
}

// One of the six files of case 11: levels 4 and 5, 32 accelerators and number 32, B 256 and 257; then the widest tree.
pub fn make_case(w: &mut [u8; 16384], d: &mut [usize; 16384], i: usize) {
    match i {
        0 => chain(w, d, 4),
        1 => chain(w, d, 5),
        2 => crowd(w, d, 32),
        3 => crowd(w, d, 33),
        4 => single(w, d, 256),
        5 => single(w, d, 257),
        _ => wide(w, d, b""),
    }
}
