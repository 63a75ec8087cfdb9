// Why a transaction waited, by the tickets: a run is kept slot by slot, each as who is served and the slot in which the ticket of that
// transaction was put into its queue.
use crate::book::{acc_row, accs, cell, int_row};
use crate::queues::{run_over, run_refusal, since};
use crate::{Said, Wrong, answer};

// What is said of a transaction: the number and line of a refusal, or 0; how many slots it waited, and the slot of its admission.
#[derive(Clone, Copy)]
pub struct Told {
    pub number: usize,
    pub line: usize,
    pub count: usize,
    pub slot: usize,
}

fn packed(a: usize, slot: usize) -> usize {
    (slot % 65536) * 256 + a % 256
}

fn served_in(x: usize) -> usize {
    x % 256
}

fn admitted_in(x: usize) -> usize {
    x / 256
}

// Runs the lines of the log on a channel over as many slots as the past has places, and keeps each slot; how many are used.
pub fn keep_run(d: &mut [usize; 16384], channel: usize, past: &mut [usize]) -> usize {
    run_over(
        d,
        channel,
        past,
        Wrong::Nothing,
        |d, a| packed(a, since(d, a)),
    )
}

// How many transactions of accelerator a are served.
pub fn services(past: &[usize], a: usize) -> usize {
    past.iter().filter(|x| served_in(**x) == a).count()
}

// The slot that serves transaction k of accelerator a, the first at 1.
fn service(past: &[usize], a: usize, k: usize) -> Option<usize> {
    let mut n = 0usize;
    for (s, x) in past.iter().enumerate() {
        if served_in(*x) == a {
            n = n.wrapping_add(1);
            if n == k {
                return Some(s);
            }
        }
    }
    None
}

// The deepest interconnect on the ways of accelerators a and b. A parent has the lower number: of two interconnects, the one with
// the higher number is not on the way up from the other, so that one goes up, until both are the same.
fn meeting(d: &[usize; 16384], a: usize, b: usize) -> usize {
    let mut i = cell(d, acc_row(d, a), 1);
    let mut j = cell(d, acc_row(d, b), 1);
    for _ in 0..6usize {
        if i < j {
            j = cell(d, int_row(j), 1);
        } else if j < i {
            i = cell(d, int_row(i), 1);
        }
    }
    i
}

// What is told beside an accelerator b that is served while one of a waits. A wrong rule names the root, or an interconnect for a's
// own.
fn met(d: &[usize; 16384], a: usize, b: usize, wrong: Wrong) -> usize {
    if (a == b) & (wrong != Wrong::OwnMeets) {
        return 255;
    }
    if wrong == Wrong::RootMeets {
        return 0;
    }
    meeting(d, a, b)
}

// Byte p of a list, where slot x is told of: whom it serves if p is even, and else where the paths meet.
fn byte_of(d: &[usize; 16384], a: usize, x: usize, p: usize, wrong: Wrong) -> u8 {
    let b = served_in(x);
    if p % 2 == 0 {
        return (b % 256) as u8;
    }
    (met(d, a, b, wrong) % 256) as u8
}

// The list in bytes: byte p tells of slot from + p / 2. The last byte of an odd buffer is left, except by a wrong rule.
fn write_list(
    d: &[usize; 16384],
    past: &[usize],
    a: usize,
    from: usize,
    until: usize,
    out: &mut [u8],
    wrong: Wrong,
) {
    let n = out.len();
    for p in 0..n {
        let s = from.wrapping_add(p / 2);
        if past.len() <= s {
            return;
        }
        if (until <= s) | ((p % 2 == 0) & (n - p == 1) & (wrong != Wrong::HalfPair)) {
            return;
        }
        out[p] = byte_of(d, a, past[s], p, wrong);
    }
}

// The refusal: those of a run, 7, 12; or 0. A wrong rule tests 12 first.
fn refusal(
    trace: Said,
    d: &[usize; 16384],
    n: usize,
    a: usize,
    served: bool,
    wrong: Wrong,
) -> Said {
    let r = run_refusal(trace, d, n, Wrong::Nothing);
    if r.number != 0 {
        return r;
    }
    let unknown = accs(d) <= a;
    if !served & (!unknown | (wrong == Wrong::NumberFirst)) {
        return answer(12, 0);
    }
    if unknown {
        return answer(7, 0);
    }
    answer(0, 0)
}

fn tell(r: Said, count: usize, slot: usize) -> Told {
    Told {
        number: r.number,
        line: r.line,
        count: count,
        slot: slot,
    }
}

// Lists the slots that the transaction served in slot s waited. A wrong rule begins one slot late, or lists slot s too.
fn list(d: &[usize; 16384], past: &[usize], s: usize, out: &mut [u8], wrong: Wrong) -> Told {
    if past.len() <= s {
        return tell(answer(0, 0), 0, 0);
    }
    let x = past[s];
    let mut from = admitted_in(x);
    let mut until = s;
    if wrong == Wrong::AdmittedLate {
        from = from.wrapping_add(1);
    }
    if wrong == Wrong::ServiceListed {
        until = s.wrapping_add(1);
    }
    write_list(d, past, served_in(x), from, until, out, wrong);
    if until < from {
        return tell(answer(0, 0), 0, from);
    }
    tell(answer(0, 0), until - from, from)
}

// Why transaction k of accelerator a waited, in the run whose slots the past has; the trace is refused so, or accepted.
pub fn why(
    trace: Said,
    d: &[usize; 16384],
    past: &[usize],
    a: usize,
    k: usize,
    out: &mut [u8],
    wrong: Wrong,
) -> Told {
    let service = service(past, a, k);
    let r = refusal(trace, d, out.len(), a, service.is_some(), wrong);
    match service {
        Some(s) if r.number == 0 => list(d, past, s, out, wrong),
        _ => tell(r, 0, 0),
    }
}
