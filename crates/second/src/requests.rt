// The second reader of a trace. Each line goes into a log.
use crate::book::{accs, is_broken};
use crate::scan::{OFFER, Scan, any_dash, begun, field, read_lines, within};
use crate::{Said, Wrong, answer};
use store::{add, clear, get, put};

// The total of each accelerator's counts, the slot of the line before, and how many lines are in the log.
const TOTAL: usize = 1024;

const BEFORE: usize = 1064;

pub(crate) const LINES: usize = 1065;

// The log: each line as one number.
pub(crate) const LOG: usize = 8192;

fn packed(slot: usize, acc: usize, count: usize) -> usize {
    (slot % 4294967296) * 65536 + (acc % 256) * 256 + count % 256
}

pub(crate) fn slot_in(x: usize) -> usize {
    x / 65536
}

pub(crate) fn acc_in(x: usize) -> usize {
    x / 256 % 256
}

pub(crate) fn count_in(x: usize) -> usize {
    x % 256
}

// How many lines the log has,
pub fn lines(d: &[usize; 16384]) -> usize {
    get(d, LINES, 0)
}

// and of line i of it, the first at 0, the slot,
pub fn slot_at(d: &[usize; 16384], i: usize) -> usize {
    slot_in(get(d, LOG, i % 8192))
}

// the accelerator,
pub fn acc_at(d: &[usize; 16384], i: usize) -> usize {
    acc_in(get(d, LOG, i % 8192))
}

// and the count.
pub fn count_at(d: &[usize; 16384], i: usize) -> usize {
    count_in(get(d, LOG, i % 8192))
}

fn falls(d: &[usize; 16384]) -> bool {
    field(d, 1) < get(d, BEFORE, 0)
}

// The refusal of a line, or 0.
fn fault(s: Scan, d: &[usize; 16384], known: usize, wrong: Wrong) -> usize {
    if s.bad | (s.name != OFFER) | (s.fields != 4) {
        return 1;
    }
    if any_dash(d, 3) {
        return 1;
    }
    if !within(d, 1, 0, 4294967294) | !within(d, 3, 1, 16) {
        return 2;
    }
    if (wrong == Wrong::FallingFirst) & falls(d) {
        return 6;
    }
    let a = field(d, 2);
    if known <= a {
        return 7;
    }
    if falls(d) {
        return 6;
    }
    if 65535 < get(d, TOTAL, a).wrapping_add(field(d, 3)) {
        return 2;
    }
    0
}

fn enter(d: &mut [usize; 16384]) {
    let slot = field(d, 1);
    let a = field(d, 2);
    let count = field(d, 3);
    let at = get(d, LINES, 0) % 8192;
    put(d, LOG, at, packed(slot, a, count));
    add(d, LINES, 0, 1);
    add(d, TOTAL, a % 32, count);
    put(d, BEFORE, 0, slot);
}

// The refusal of a line, or 0 and the line is in the log.
fn judge(s: Scan, d: &mut [usize; 16384], known: usize, wrong: Wrong) -> usize {
    let number = fault(s, d, known, wrong);
    if number == 0 {
        enter(d);
    }
    number
}

fn read_requests(s: &[u8], d: &mut [usize; 16384], wrong: Wrong) -> Said {
    clear(d, TOTAL, 64);
    if 65536 < s.len() {
        return answer(2, 0);
    }
    let known = accs(d);
    match read_lines(s, d, |line, d| judge(line, d, known, wrong)) {
        Ok(rest) if begun(rest) => answer(1, rest.line),
        Ok(_) => answer(0, 0),
        Err(said) => said,
    }
}

// Reads a trace file, for the tree in the rows, into the log.
pub fn read_log(s: &[u8], d: &mut [usize; 16384], wrong: Wrong) -> Said {
    if is_broken(d) {
        return answer(11, 0);
    }
    read_requests(s, d, wrong)
}
