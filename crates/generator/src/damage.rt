// Damage to a file: its text is copied, with a byte or a line changed, put in, left out, doubled or moved, or a line under another name.
use crate::generate::{LENGTH, SIDE, below, once_in, put_byte, put_text};
use store::{get, put};

// The bytes that damage puts in: digits, separators, "-", letters of the record names, and bytes that stand nowhere.
const BYTES: [u8; 16] = [
    48, 49, 57, 9, 10, 45, 111, 98, 97, 105, 13, 0, 43, 32, 58, 255,
];

fn copy(w: &mut [u8; 16384], d: &mut [usize; 16384], from: usize, to: usize) {
    for i in from..to {
        let b = w[i % 8192];
        put_byte(w, d, b);
    }
}

// Where the line of the byte at p begins.
fn line_from(w: &[u8; 16384], p: usize) -> usize {
    for at in (0..p).rev() {
        if w[at % 8192] == b'\n' {
            return at + 1;
        }
    }
    0
}

// Where the first of these bytes from p on stands, or the end of the n bytes.
fn byte_from(w: &[u8; 16384], p: usize, n: usize, b: u8) -> usize {
    (p..n).find(|at| w[*at % 8192] == b).unwrap_or(n)
}

// Where the line after that of the byte at p begins, or the end of the n bytes.
fn line_to(w: &[u8; 16384], p: usize, n: usize) -> usize {
    byte_from(w, p, n, b'\n').saturating_add(1).min(n)
}

fn put_any_byte(w: &mut [u8; 16384], d: &mut [usize; 16384]) {
    let i = below(d, 16) % 16;
    put_byte(w, d, BYTES[i]);
}

// One byte of the n is changed, left out, or has another before it.
fn damage_byte(w: &mut [u8; 16384], d: &mut [usize; 16384], n: usize, kind: usize) {
    let p = below(d, n);
    copy(w, d, 0, p);
    if kind < 2 {
        put_any_byte(w, d);
    }
    if kind == 0 {
        copy(w, d, p, n);
    } else {
        copy(w, d, p.wrapping_add(1), n);
    }
}

// The line at `from` changes places with the next one, at `to`.
fn exchange(w: &mut [u8; 16384], d: &mut [usize; 16384], from: usize, to: usize, n: usize) {
    let past = line_to(w, to, n);
    copy(w, d, 0, from);
    copy(w, d, to, past);
    copy(w, d, from, to);
    copy(w, d, past, n);
}

// A line is doubled, left out, or changes places with the next one.
fn damage_line(w: &mut [u8; 16384], d: &mut [usize; 16384], n: usize, kind: usize) {
    let p = below(d, n);
    let from = line_from(w, p);
    let to = line_to(w, p, n);
    if kind == 3 {
        copy(w, d, 0, to);
        copy(w, d, from, n);
    } else if kind == 4 {
        copy(w, d, 0, from);
        copy(w, d, to, n);
    } else {
        exchange(w, d, from, to, n);
    }
}

// A record name, or what is nearly one: mostly bus or bus3.
fn put_name(w: &mut [u8; 16384], d: &mut [usize; 16384]) {
    match below(d, 20) {
        0 => put_text(w, d, b"bus33"),
        1 => put_text(w, d, b"BUS3"),
        2 => put_text(w, d, b"bu3"),
        3 => put_text(w, d, b"bus "),
        4 => put_text(w, d, b"3bus"),
        5 => put_text(w, d, b"bu"),
        6 => put_text(w, d, b"bus2"),
        7 => put_text(w, d, b"int3"),
        8..=13 => put_text(w, d, b"bus3"),
        _ => put_text(w, d, b"bus"),
    }
}

// A line, mostly the first, has another name, or is doubled under another name.
fn damage_name(w: &mut [u8; 16384], d: &mut [usize; 16384], n: usize, kind: usize) {
    let mut p = 0;
    if once_in(d, 4) {
        p = below(d, n);
    }
    let from = line_from(w, p);
    let mut to = from;
    if kind != 6 {
        to = line_to(w, p, n);
    }
    copy(w, d, 0, to);
    put_name(w, d);
    let rest = byte_from(w, from, n, b'\t');
    copy(w, d, rest, n);
}

// The file is cut, at any byte or before its last one.
fn cut(w: &mut [u8; 16384], d: &mut [usize; 16384], n: usize) {
    let mut p = below(d, n);
    if once_in(d, 2) {
        p = n.wrapping_sub(1);
    }
    copy(w, d, 0, p);
}

// Copies the text in the first half of w to the second half, one time in four with damage.
pub fn copy_or_damage(w: &mut [u8; 16384], d: &mut [usize; 16384]) {
    let n = get(d, LENGTH, 0);
    put(d, SIDE, 0, 8192);
    put(d, LENGTH, 0, 0);
    let kind = below(d, 40);
    if (n == 0) | (9 < kind) {
        copy(w, d, 0, n);
        return;
    }
    if kind < 3 {
        damage_byte(w, d, n, kind);
    } else if kind < 6 {
        damage_line(w, d, n, kind);
    } else if kind < 9 {
        damage_name(w, d, n, kind);
    } else {
        cut(w, d, n);
    }
}
