// The second report: the text of document 01, with document 02's two shares, for the tree in the rows, from the second bounds.
use crate::Wrong;
use crate::book::accs;
use crate::response::{Row, figures};
use std::io::Write;

// A byte goes to the page; where the next one goes.
pub(crate) fn byte(page: &mut [u8; 65536], at: usize, b: u8) -> usize {
    page[at % 65536] = b;
    at.wrapping_add(1)
}

pub(crate) fn word(page: &mut [u8; 65536], at: usize, s: &[u8]) -> usize {
    let mut next = at;
    for b in s {
        next = byte(page, next, *b);
    }
    next
}

// The digits of n, twenty at most.
pub(crate) fn number(page: &mut [u8; 65536], at: usize, n: usize) -> usize {
    let mut text = [0u8; 20];
    let mut rest = &mut text[..];
    let _ = write!(rest, "{n}");
    let left = rest.len();
    word(page, at, &text[..20usize.saturating_sub(left)])
}

// A number and a tab.
fn column(page: &mut [u8; 65536], at: usize, n: usize) -> usize {
    let next = number(page, at, n);
    byte(page, next, 9)
}

fn verdict(page: &mut [u8; 65536], at: usize, meets: bool) -> usize {
    if meets {
        return word(page, at, b"meets\n");
    }
    word(page, at, b"late\n")
}

fn line(page: &mut [u8; 65536], at: usize, a: usize, r: Row) -> usize {
    let mut next = at;
    for n in [
        a, r.level, r.sr, r.sw, r.reads, r.writes, r.response, r.period,
    ] {
        next = column(page, next, n);
    }
    verdict(page, next, r.meets)
}

// Writes the report at the beginning of the page; how many bytes it has.
pub fn write_report(d: &[usize; 16384], page: &mut [u8; 65536]) -> usize {
    let mut next = word(
        page,
        0,
        b"acc\tlevel\tsr\tsw\tyr\tyw\tresp\tperiod\tverdict\n",
    );
    let mut all = true;
    for a in 0..accs(d).min(32) {
        let r = figures(d, a, Wrong::Nothing);
        next = line(page, next, a, r);
        all = all & r.meets;
    }
    next = word(page, next, b"all\t");
    verdict(page, next, all)
}
