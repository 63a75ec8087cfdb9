// A tree written back: the library's answer and every byte of its buffer, beside those of `second`; and other texts of the tree, which
// are read as the same tree and written as the same text.
use crate::compare::over;
use crate::results::{TEXTS, WRITING_TURNS, WRITINGS, WRITTEN};
use answercheck::exported::same_page;
use answercheck::{OURS, same_bytes, same_said, same_slices, same_written, written_by, written_of};
use generator::shuffle::{other_text, text_in};
use model::Tree;
use razhikum::{Page, razhikum_rewrite};
use reader::read_tree;
use second::written::{Written, text_size, write_back};
use second::{Said, Wrong};
use store::{DIFFERENCES, WRONG, add, get, note};
use treecheck::same_tree;
use writer::write_tree;

// The library's writing, over n bytes from a place on.
fn library_written(t: Tree, out: &mut [u8; 131074], from: usize, n: usize) -> Written {
    over(out, from, n, |part| written_of(write_tree(t, part)))
}

// The exported writing, over n bytes from a place on.
pub fn exported_written(tree: &[u8], out: &mut [u8; 131074], from: usize, n: usize) -> Page {
    over(out, from, n, |part| razhikum_rewrite(tree, part))
}

// The second writing, over n bytes from OURS on.
pub fn second_written(
    tree: Said,
    d: &[usize; 16384],
    out: &mut [u8; 131074],
    n: usize,
    wrong: Wrong,
) -> Written {
    over(out, OURS, n, |part| write_back(tree, d, part, wrong))
}

fn accepted() -> Said {
    Said { number: 0, line: 0 }
}

// The wrong rules of a text,
const OF_TEXT: [Wrong; 5] = [
    Wrong::AsRead,
    Wrong::ByNumber,
    Wrong::NoPort7,
    Wrong::ZeroWritten,
    Wrong::NameLost,
];

// and those of its refusals.
const OF_REFUSALS: [Wrong; 3] = [Wrong::LongFirst, Wrong::ShortFirst, Wrong::WrittenShort];

// A writing over n bytes by each of these wrong rules, against what the library did.
fn try_wrong_writings(
    d: &mut [usize; 16384],
    out: &mut [u8; 131074],
    right: Written,
    n: usize,
    rules: &[Wrong],
) {
    for rule in rules {
        let wrong = *rule;
        let w = second_written(accepted(), d, out, n, wrong);
        note(
            d,
            WRONG,
            wrong as usize,
            same_written(w, right) & same_bytes(out, n),
        );
    }
}

// A writing over n bytes of each buffer, and by these wrong rules.
fn try_writing(t: Tree, d: &mut [usize; 16384], out: &mut [u8; 131074], n: usize, rules: &[Wrong]) {
    let right = library_written(t, out, 0, n);
    let w = second_written(accepted(), d, out, n, Wrong::Nothing);
    note(
        d,
        DIFFERENCES,
        0,
        same_written(w, right) & same_bytes(out, n),
    );
    add(d, WRITINGS, w.number, 1);
    try_wrong_writings(d, out, right, n, rules);
}

// The sizes of buffers for a text of n bytes: 0, short, one byte less, one byte more, larger, and at the size limit.
fn size_in_turn(turn: usize, n: usize) -> usize {
    let text = n.min(4096);
    match turn % 7 {
        0 => 0,
        1 => text / 2,
        2 => text.wrapping_sub(1) % 4096,
        3 => text + 1,
        4 => text + 40,
        5 => 65536,
        _ => 65537,
    }
}

// The size of the next buffer for a text of n bytes.
pub fn next_size(d: &mut [usize; 16384], n: usize) -> usize {
    let turn = get(d, WRITING_TURNS, 0);
    add(d, WRITING_TURNS, 0, 1);
    size_in_turn(turn, n)
}

// The library's text of n bytes.
fn text_of(out: &[u8; 131074], n: usize) -> &[u8] {
    let to = n % 65538;
    let all = &out[..];
    &all[0..to]
}

// A text of the tree in the rows, whose written text is the first n bytes: it is read as the tree, and written as that text.
fn try_text(s: &[u8], d: &mut [usize; 16384], out: &mut [u8; 131074], n: usize) {
    let r = read_tree(s);
    let t = r.tree;
    let tree = same_tree(t, d);
    note(d, DIFFERENCES, 0, same_said(r.answer, accepted()) & tree);
    let w = library_written(t, out, OURS, n);
    let same = same_written(w, written_by(0, 0, n));
    note(d, DIFFERENCES, 0, same & same_bytes(out, n));
    let x = exported_written(s, out, OURS, n);
    let same = same_page(x, n, accepted());
    note(d, DIFFERENCES, 0, same & same_bytes(out, n));
    note(d, TEXTS, 0, same_slices(s, text_of(out, n)));
}

// The text of the tree, acc lines in the order of a turn, a return delay of 0 left out or not.
fn try_order(t: Tree, d: &mut [usize; 16384], out: &mut [u8; 131074], n: usize, turn: usize) {
    let mut w = [0u8; 4096];
    library_written(t, out, 0, n);
    let zero = (t.bus.delay == 0) & (turn % 2 != 0);
    let size = other_text(text_of(out, n), &mut w, turn, zero);
    try_text(text_in(&w, size), d, out, n);
}

// A configuration, of which the rows say whether it keeps its rules: over just enough bytes, one byte less, and a buffer in its turn.
pub fn try_writings(t: Tree, d: &mut [usize; 16384], out: &mut [u8; 131074]) {
    let n = text_size(d) % 4096;
    try_writing(t, d, out, n, &OF_TEXT);
    let short = n.wrapping_sub(1) % 4096;
    try_writing(t, d, out, short, &OF_REFUSALS);
    let size = next_size(d, n);
    try_writing(t, d, out, size, &OF_REFUSALS);
}

// A tree that keeps its rules, and its texts: the written one, and another.
pub fn try_written(t: Tree, d: &mut [usize; 16384], out: &mut [u8; 131074]) {
    try_writings(t, d, out);
    add(d, WRITTEN, 0, 1);
    let n = text_size(d) % 4096;
    let turn = get(d, WRITTEN, 0);
    try_order(t, d, out, n, 0);
    try_order(t, d, out, n, turn);
}
