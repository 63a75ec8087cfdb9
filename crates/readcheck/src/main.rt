// Runs the readers on edge files and writes the answer to each: for a tree its interconnects, accelerators and return
// delay, and bus3 where that is the name of its bus line, for a trace its requests and the sum of their counts, walked from the bytes; or the refusal's number and line.
//
// Standard input holds the files, each after a line of three fields: t for a tree or o for a trace, a name, and how many
// bytes the file has. A trace is read on the first tree of document 01's report. Files near the size limit are made by `generator`.
#![tactic(auto)]

use generator::pages::long_file;
use input::read_full;
use lines::FileError;
use model::{Bus, Tree};
use reader::read_tree;
use records::empty_tree;
use text::{Field, part_end, read_field};
use trace::{read_trace, request_at};

fn words(out: &impl Print, s: &[u8]) {
    let _ = out.write_all(s);
}

fn figure(out: &impl Print, n: u64) {
    words(out, b"\t");
    let _ = out.print(n);
}

// Writes the answer; says whether it is accepted.
fn show(out: &impl Print, answer: Result<(), FileError>) -> bool {
    match answer {
        Ok(()) => {
            words(out, b"\taccepted");
            true
        }
        Err(FileError::Refused(r, n)) => {
            words(out, b"\trefused");
            figure(out, model::number(r) as u64);
            figure(out, n as u64);
            false
        }
        Err(FileError::Broken) => {
            words(out, b"\trefused\t11");
            false
        }
    }
}

fn figure_bus(out: &impl Print, b: Bus) {
    figure(out, b.delay as u64);
    if b.axi3 {
        words(out, b"\tbus3");
    }
}

fn try_tree(out: &impl Print, name: &[u8], s: &[u8]) {
    words(out, name);
    let r = read_tree(s);
    show(out, r.answer);
    if r.answer.is_ok() {
        figure(out, r.tree.ints as u64);
        figure(out, r.tree.accs as u64);
        figure_bus(out, r.tree.bus);
    }
    words(out, b"\n");
}

// The requests of a trace, and the sum of their counts.
fn walk(out: &impl Print, s: &[u8]) {
    let mut at = 0;
    let mut lines: u64 = 0;
    let mut sum: u64 = 0;
    for _ in 0..8193u32 {
        if let Some((r, next)) = request_at(s, at) {
            at = next;
            lines = lines.wrapping_add(1);
            sum = sum.wrapping_add(r.count as u64);
        }
    }
    figure(out, lines);
    figure(out, sum);
}

fn try_trace(out: &impl Print, name: &[u8], t: Tree, s: &[u8]) {
    words(out, name);
    if show(out, read_trace(t, s)) {
        walk(out, s);
    }
    words(out, b"\n");
}

fn try_file(out: &impl Print, t: Tree, is_tree: bool, name: &[u8], s: &[u8]) {
    if is_tree {
        try_tree(out, name, s);
    } else {
        try_trace(out, name, t, s);
    }
}

fn size_of(s: &[u8]) -> usize {
    let f = read_field(s);
    let Field::Number(x) = f else {
        return 0;
    };
    if x < 65536 { x as usize } else { 0 }
}

// One file of the input, from `at` on; where the next one begins.
fn next_file(out: &impl Print, t: Tree, s: &[u8], at: usize) -> usize {
    let n = s.len();
    if n < 2 {
        return n;
    }
    if n - 2 < at {
        return n;
    }
    let from = at + 2;
    let mid = part_end(s, from, 9);
    if n <= mid {
        return n;
    }
    let end = part_end(s, mid + 1, 10);
    if n <= end {
        return n;
    }
    let size = size_of(&s[mid + 1..end]);
    let start = end + 1;
    if n - start < size {
        return n;
    }
    let stop = start + size;
    try_file(out, t, s[at] == b't', &s[from..mid], &s[start..stop]);
    stop
}

// Each file of the input.
fn try_files(out: &impl Print, t: Tree, s: &[u8]) {
    let mut at = 0;
    for _ in 0..1000u32 {
        at = next_file(out, t, s, at);
    }
}

// The tree of document 01's report.
fn report_tree() -> Tree {
    read_tree(
        b"bus\t8\t1\t4\t2\t2\t30\t25\t1\t1\t16\nint\t0\t-\t-\t1\nacc\t0\t0\t0\t4\t2\t10\t5\t1000\t2000\nacc\t1\t0\t3\t4\t2\t1\t0\t0\t100\n",
    ).tree
}

// The files at the limits of sizes and totals, by their numbers in `generator`, and their names.
const LONG: [(usize, &[u8]); 7] = [
    (5, b"65536 bytes"),
    (6, b"65537 bytes"),
    (0, b"total 65535"),
    (1, b"total 65536"),
    (2, b"falling slot over the total"),
    (3, b"8192 lines"),
    (4, b"65537 bytes"),
];

// Each of them, the first two as trees.
fn try_long(out: &impl Print, t: Tree) {
    let mut page = [0u8; 65537];
    for (i, name) in LONG {
        let n = long_file(&mut page, i);
        if n <= page.len() {
            try_file(out, t, 4 < i, name, &page[..n]);
        }
    }
}

// A trace on a tree that breaks its rules.
fn try_broken(out: &impl Print) {
    try_trace(out, b"broken tree", empty_tree(), b"");
}

fn main(rt: HostRuntime) {
    let out = &rt;
    let t = report_tree();
    let mut input = [0u8; 65536];
    let n = read_full(&mut rt.stdin(), &mut input);
    try_files(out, t, &input[..n]);
    try_long(out, t);
    try_broken(out);
}
