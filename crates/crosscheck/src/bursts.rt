// Bursts: split, joined and offered, by the library, and split and joined by its exports.
use crate::results::{CUTS, JOINED};
use alter::altered;
use answercheck::exported::{same_cut, same_joined};
use burst::Burst;
use burstcheck::joins::try_joins;
use burstcheck::offers::{try_altered, try_limits, try_offers, try_other};
use burstcheck::splits::{
    NUMBERS, fill_both, fill_parts, number_at, same_both, second_split, some_burst, try_band,
    try_lengths, try_older_lengths, try_some, with_some_length,
};
use generator::{made, tree_file};
use model::Tree;
use razhikum::{razhikum_join, razhikum_split};
use reader::read_tree;
use second::book::read_book;
use second::bursts::join_one;
use second::{Said, Wrong};
use store::{DIFFERENCES, add, note};
use treecheck::judge;

// On a tree: bursts split, and offered from a fresh state on and on altered states; and on the tree altered.
fn try_on(t: Tree, d: &mut [usize; 16384], starts: &mut [u32; 256], beats: &mut [u32; 256]) {
    judge(t, d);
    try_some(t, d, starts, beats);
    let s = try_offers(t, d);
    try_altered(t, s, d);
    let changed = altered(t, d);
    judge(changed, d);
    try_some(changed, d, starts, beats);
    try_other(changed, s, d);
}

// A burst by the export, on a tree file of which the second reader says so; a tree that is refused leaves the entries too.
fn try_exported(
    tree: &[u8],
    b: Burst,
    s: Said,
    d: &mut [usize; 16384],
    starts: &mut [u32; 256],
    beats: &mut [u32; 256],
) {
    fill_both(starts, beats);
    let x = razhikum_split(tree, b.start, b.beats, b.size, starts, beats);
    let mut said = s;
    let mut n = 0;
    if s.number == 0 {
        let y = second_split(b, d, Wrong::Nothing);
        said.number = y.number;
        n = y.pieces;
        add(d, CUTS, y.number, 1);
    } else {
        fill_parts(d);
        add(d, CUTS, 1, 1);
    }
    let same = same_both(starts, beats, d);
    note(d, DIFFERENCES, 0, same_cut(x, n, said) & same);
}

// Bursts by the export, made at random for the tree that the reader has found.
fn try_exports(
    tree: &[u8],
    t: Tree,
    d: &mut [usize; 16384],
    starts: &mut [u32; 256],
    beats: &mut [u32; 256],
) {
    let s = read_book(tree, d, Wrong::Nothing);
    for _ in 0..8usize {
        let b = some_burst(t, d);
        try_exported(tree, b, s, d, starts, beats);
    }
}

// The joiner by the export: an answer of this number.
fn try_join(pieces: u32, answered: u32, number: u32, d: &mut [usize; 16384]) {
    let x = razhikum_join(pieces, answered, number);
    let y = join_one(
        pieces as usize,
        answered as usize,
        number as usize,
        Wrong::Nothing,
    );
    note(d, DIFFERENCES, 0, same_joined(x, y));
    add(d, JOINED, 0, 1);
}

// So many pieces, any number of them answered: the next answer, and another.
fn try_pieces(pieces: u32, d: &mut [usize; 16384]) {
    for i in 0..NUMBERS {
        let answered = number_at(i);
        try_join(pieces, answered, answered.wrapping_add(1), d);
        try_join(pieces, answered, pieces.wrapping_add(i % 2), d);
    }
}

// Any number of pieces.
fn try_joined(d: &mut [usize; 16384]) {
    for i in 0..NUMBERS {
        try_pieces(number_at(i), d);
    }
}

// A generated tree file.
fn try_file(
    w: &mut [u8; 16384],
    d: &mut [usize; 16384],
    starts: &mut [u32; 256],
    beats: &mut [u32; 256],
) {
    tree_file(w, d);
    let r = read_tree(made(w, d));
    try_exports(made(w, d), r.tree, d, starts, beats);
    if r.answer.is_ok() {
        try_on(with_some_length(r.tree, d), d, starts, beats);
    }
}

// Every size and count of beats on a small tree, as one of AXI4 and of AXI3; bursts about both limits offered on it, and on one whose bus
// line is named bus3.
fn try_small(d: &mut [usize; 16384], starts: &mut [u32; 256], beats: &mut [u32; 256]) {
    let t = read_tree(
        b"bus\t8\t1\t4\t2\t2\t30\t25\t1\t1\t16\nint\t0\t-\t-\t1\nacc\t0\t0\t0\t4\t2\t10\t5\t1000\t2000\n",
    ).tree;
    try_lengths(t, d, starts, beats);
    try_older_lengths(t, d, starts, beats);
    try_band(t, d, starts, beats);
    try_limits(t, d);
    let older = read_tree(
        b"bus3\t8\t1\t4\t2\t2\t30\t25\t1\t1\t8\nint\t0\t-\t-\t1\nacc\t0\t0\t0\t4\t2\t10\t5\t1000\t2000\n",
    ).tree;
    try_limits(older, d);
}

// Small trees, the joiner, and generated trees.
pub fn try_bursts(d: &mut [usize; 16384]) {
    let mut starts = [0u32; 256];
    let mut beats = [0u32; 256];
    let mut w = [0u8; 16384];
    try_small(d, &mut starts, &mut beats);
    try_joins(d);
    try_joined(d);
    for _ in 0..800usize {
        try_file(&mut w, d, &mut starts, &mut beats);
    }
}
