// Inputs that are not generated: the edge list of the reader's own check, document 01's case 11, return delays at their limits, the
// record names of bus lines, and files and buffers at the size limit.
use crate::results::{CASE11, CHANNEL_TURNS, DELAY_FILES, EDGES, NAME_FILES};
use crate::trials::{try_file_runs, try_tree};
use callcheck::try_machine;
use generator::limits::{DELAYS, NAMES, make_case, make_delay, make_name, make_wide_late};
use generator::listed::heading_at;
use generator::pages::long_file;
use generator::{file_in, made, size};
use reader::read_tree;
use second::Wrong;
use second::book::{READ, read_book};
use store::{add, get};

// The channel whose turn it is.
fn next_channel(d: &mut [usize; 16384]) -> usize {
    add(d, CHANNEL_TURNS, 0, 1);
    get(d, CHANNEL_TURNS, 0) % 2
}

// A trace on a tree file that is accepted, run over a buffer of this size.
fn try_on(
    tree: &[u8],
    channel: usize,
    s: &[u8],
    d: &mut [usize; 16384],
    out: &mut [u8; 131074],
    size: usize,
) {
    read_book(tree, d, Wrong::Nothing);
    let t = read_tree(tree).tree;
    try_file_runs(tree, t, channel, s, d, out, size);
}

// A trace on the tree of document 01's report, and on that tree with a return delay.
fn try_trace_file(
    channel: usize,
    s: &[u8],
    d: &mut [usize; 16384],
    out: &mut [u8; 131074],
    size: usize,
) {
    let tree =
        b"bus\t8\t1\t4\t2\t2\t30\t25\t1\t1\t16\nint\t0\t-\t-\t1\nacc\t0\t0\t0\t4\t2\t10\t5\t1000\t2000\nacc\t1\t0\t3\t4\t2\t1\t0\t0\t100\n";
    try_on(tree, channel, s, d, out, size);
    let late =
        b"bus\t8\t1\t4\t2\t2\t30\t25\t1\t1\t16\t15\nint\t0\t-\t-\t1\nacc\t0\t0\t0\t3\t2\t10\t5\t1000\t2000\nacc\t1\t0\t3\t1\t2\t1\t0\t0\t100\n";
    try_on(late, channel, s, d, out, size);
}

// A tree file, or a trace for a channel.
fn try_file(
    s: &[u8],
    is_tree: bool,
    channel: usize,
    d: &mut [usize; 16384],
    out: &mut [u8; 131074],
    size: usize,
) {
    if is_tree {
        try_tree(s, d, out);
        return;
    }
    try_trace_file(channel, s, d, out, size);
}

// The listed file whose heading is at `at`; where the next heading is.
fn try_next(s: &[u8], at: usize, d: &mut [usize; 16384], out: &mut [u8; 131074]) -> usize {
    let n = s.len();
    if n <= at {
        return n;
    }
    let h = heading_at(s, at);
    let from = h.start;
    let size = h.size;
    if n < from {
        return n;
    }
    if n - from < size {
        return n;
    }
    let to = from + size;
    let channel = next_channel(d);
    try_file(&s[from..to], s[at] == 116, channel, d, out, 64);
    add(d, EDGES, 0, 1);
    to
}

// Each file of the list.
pub fn try_listed(s: &[u8], d: &mut [usize; 16384], out: &mut [u8; 131074]) {
    let mut at = 0;
    for _ in 0..1000usize {
        at = try_next(s, at, d, out);
    }
}

// Case 11.
pub fn try_case_11(w: &mut [u8; 16384], d: &mut [usize; 16384], out: &mut [u8; 131074]) {
    for i in 0..6 {
        make_case(w, d, i);
        try_tree(made(w, d), d, out);
        add(d, CASE11, 0, 1);
    }
}

// A tree file that was made, and, if it is accepted, calls and runs on it.
fn try_limit(w: &[u8; 16384], d: &mut [usize; 16384], out: &mut [u8; 131074]) {
    let n = size(d);
    let r = try_tree(file_in(w, n), d, out);
    let Ok(()) = r.answer else {
        return;
    };
    let t = r.tree;
    try_machine(t, d);
    let s = b"o\t0\t0\t16\no\t0\t1\t9\no\t40\t0\t5\n";
    let channel = next_channel(d);
    try_file_runs(file_in(w, n), t, channel, s, d, out, 200);
}

// Return delays at their limits, left out and wrong.
pub fn try_delays(w: &mut [u8; 16384], d: &mut [usize; 16384], out: &mut [u8; 131074]) {
    for i in 0..DELAYS {
        make_delay(w, d, i);
        add(d, DELAY_FILES, 0, 1);
        try_limit(w, d, out);
    }
}

// Bus lines under both record names and under others, at the limits of each name, and two of them; and such a line in a trace.
pub fn try_names(w: &mut [u8; 16384], d: &mut [usize; 16384], out: &mut [u8; 131074]) {
    for i in 0..NAMES {
        make_name(w, d, i);
        add(d, NAME_FILES, 0, 1);
        try_limit(w, d, out);
    }
    try_trace_file(READ, b"bus\t0\t0\t1\n", d, out, 64);
    try_trace_file(READ, b"o\t0\t0\t1\nbus3\t0\t0\t1\n", d, out, 64);
}

// The trees of 15 interconnects and 32 accelerators, the second with a return delay.
pub fn try_wide(w: &mut [u8; 16384], d: &mut [usize; 16384], out: &mut [u8; 131074]) {
    make_case(w, d, 6);
    try_made(w, d, out);
    make_wide_late(w, d);
    try_made(w, d, out);
}

// Runs on such a tree, where accelerator 31 alone holds transactions at last.
fn try_made(w: &[u8; 16384], d: &mut [usize; 16384], out: &mut [u8; 131074]) {
    let n = size(d);
    let t = try_tree(file_in(w, n), d, out).tree;
    let channel = next_channel(d);
    try_file_runs(file_in(w, n), t, channel, b"o\t0\t31\t16\n", d, out, 64);
    let all = b"o\t0\t0\t9\no\t0\t30\t2\no\t1\t31\t16\n";
    try_file_runs(file_in(w, n), t, channel, all, d, out, 64);
}

fn try_long_file(page: &mut [u8], i: usize, d: &mut [usize; 16384], out: &mut [u8; 131074]) {
    let n = long_file(page, i);
    if n <= page.len() {
        try_file(&page[0..n], 4 < i, READ, d, out, 500);
    }
}

// Files at the limits of sizes and totals, and a trace with a late line, over buffers at the size limit.
pub fn try_long(page: &mut [u8], d: &mut [usize; 16384], out: &mut [u8; 131074]) {
    for i in 0..7 {
        try_long_file(page, i, d, out);
    }
    let late = b"o\t0\t0\t16\no\t65534\t1\t3\n";
    try_trace_file(READ, late, d, out, 65536);
    try_trace_file(READ, late, d, out, 65537);
}
