// The second bounds: the capacity of a port on a channel is the sum over the accelerators whose way up enters by it and whose job has
// transactions there.
use crate::Wrong;
use crate::book::{
    NOTHING, READ, WRITE, acc_row, accs, carried, cell, int_row, is_broken, is_jobless, level,
};
use crate::queues::{passes, total};

// The figures of an accelerator: of the shares and the transactions of others that of reads first.
#[derive(Clone, Copy)]
pub struct Row {
    pub level: usize,
    pub sr: usize,
    pub sw: usize,
    pub reads: usize,
    pub writes: usize,
    pub response: usize,
    pub period: usize,
    pub meets: bool,
}

// Both go round at 2 to the 64th power.
fn sum(x: usize, y: usize) -> usize {
    x.wrapping_add(y)
}

fn times(x: usize, y: usize) -> usize {
    x.wrapping_mul(y)
}

// What accelerator a counts on a channel: phi, or nothing without a job there. A wrong rule counts phi on both.
fn weight(d: &[usize; 16384], a: usize, channel: usize, wrong: Wrong) -> usize {
    if is_jobless(d, a, channel, wrong) & (wrong != Wrong::BothCount) {
        return 0;
    }
    cell(d, acc_row(d, a), 3)
}

fn capacity(d: &[usize; 16384], i: usize, p: usize, channel: usize, wrong: Wrong) -> usize {
    total(|a| {
        if (a < accs(d)) && passes(d, a, i, p) {
            weight(d, a, channel, wrong)
        } else {
            0
        }
    })
}

// The sum over the ports of interconnect i, but `own`, of the smaller of g and the capacity of the port.
fn others<F: Fn(usize) -> usize>(d: &[usize; 16384], i: usize, own: usize, capacity: F) -> usize
    requires { F.IsAlwaysCallable capacity }
{
    let grain = cell(d, int_row(i), 3);
    let mut found = 0;
    for p in 0..8 {
        if p != own {
            found = sum(found, grain.min(capacity(p)));
        }
    }
    found
}

// A wrong rule: the capacity of a port that carries an interconnect is taken through that one's own granularity.
fn nested_capacity(d: &[usize; 16384], i: usize, p: usize, channel: usize) -> usize {
    let below = carried(d, i, p);
    if (31 < below) & (below != NOTHING) {
        let j = below.wrapping_sub(32);
        return others(d, j, 8, |q| capacity(d, j, q, channel, Wrong::Nested));
    }
    capacity(d, i, p, channel, Wrong::Nested)
}

// D at interconnect i, entered by port p, on a channel.
fn rivals(d: &[usize; 16384], i: usize, p: usize, channel: usize, wrong: Wrong) -> usize {
    if wrong == Wrong::Nested {
        return others(d, i, p, |q| nested_capacity(d, i, q, channel));
    }
    let own = if wrong == Wrong::OwnPort { 8 } else { p };
    others(d, i, own, |q| capacity(d, i, q, channel, wrong))
}

// The product of 1 + D on the way from accelerator a up to the root.
fn share(d: &[usize; 16384], a: usize, channel: usize, wrong: Wrong) -> usize {
    let mut row = acc_row(d, a);
    let mut product = 1;
    let mut over = false;
    for _ in 0..4usize {
        if !over {
            let i = cell(d, row, 1);
            let rival = rivals(d, i, cell(d, row, 2), channel, wrong);
            product = times(product, sum(rival, 1));
            over = i == 0;
            row = int_row(i);
        }
    }
    product
}

fn bus(d: &[usize; 16384], column: usize) -> usize {
    cell(d, 0, column)
}

// Reads: tA + pR + B x tD.
fn read_slot(d: &[usize; 16384]) -> usize {
    sum(sum(bus(d, 1), bus(d, 5)), times(bus(d, 9), bus(d, 7)))
}

// Writes: tA + B x tD + pW + tB.
fn write_slot(d: &[usize; 16384]) -> usize {
    let words = times(bus(d, 9), bus(d, 7));
    sum(sum(bus(d, 1), words), sum(bus(d, 6), bus(d, 8)))
}

// A read or write alone is its slot time and the latency of each interconnect on the way.
fn read_alone(d: &[usize; 16384], levels: usize) -> usize {
    sum(read_slot(d), times(levels, sum(bus(d, 2), bus(d, 3))))
}

fn write_alone(d: &[usize; 16384], levels: usize) -> usize {
    let there = bus(d, 2).max(bus(d, 3));
    sum(write_slot(d), times(levels, sum(there, bus(d, 4))))
}

// The windows for n transactions with a budget: those that use it up, and one more for what is left. A wrong rule leaves that one out,
// another has one where there are no transactions.
fn windows(n: usize, budget: usize, wrong: Wrong) -> usize {
    if budget == 0 {
        return 0;
    }
    let left = n % budget != 0;
    let empty = n == 0;
    let more = (left & (wrong != Wrong::RoundedDown)) | (empty & (wrong == Wrong::EmptyWindow));
    sum(n / budget, more as usize)
}

// The wait of the job in an acc row for new windows, P slots for each. A wrong rule leaves it out, another takes the other channel's
// slot time.
fn window_wait(d: &[usize; 16384], row: usize, wrong: Wrong) -> usize {
    if wrong == Wrong::NoWindows {
        return 0;
    }
    let budget = cell(d, row, 4);
    let reads = times(windows(cell(d, row, 5), budget, wrong), bus(d, 0));
    let writes = times(windows(cell(d, row, 6), budget, wrong), bus(d, 0));
    if wrong == Wrong::OtherSlot {
        return sum(times(reads, write_slot(d)), times(writes, read_slot(d)));
    }
    sum(times(reads, read_slot(d)), times(writes, write_slot(d)))
}

// The refusal of a bound, or 0: 11, then 7. A wrong rule tests 7 first.
pub fn bound_refusal(d: &[usize; 16384], a: usize, wrong: Wrong) -> usize {
    let unknown = accs(d) <= a;
    if unknown & (wrong == Wrong::UnknownFirst) {
        return 7;
    }
    if is_broken(d) {
        return 11;
    }
    if unknown { 7 } else { 0 }
}

// Those where a bound is refused.
pub fn no_figures() -> Row {
    Row {
        level: 0,
        sr: 0,
        sw: 0,
        reads: 0,
        writes: 0,
        response: 0,
        period: 0,
        meets: false,
    }
}

// The figures of accelerator a of the tree in the rows.
pub fn figures(d: &[usize; 16384], a: usize, wrong: Wrong) -> Row {
    let row = acc_row(d, a);
    let levels = level(d, cell(d, row, 1));
    let sr = share(d, a, READ, wrong);
    let sw = share(d, a, WRITE, wrong);
    let reads = cell(d, row, 5);
    let writes = cell(d, row, 6);
    let others_read = times(reads, sr.wrapping_sub(1));
    let others_write = times(writes, sw.wrapping_sub(1));
    let alone = sum(
        times(reads, read_alone(d, levels)),
        times(writes, write_alone(d, levels)),
    );
    let waiting = sum(
        times(others_read, read_slot(d)),
        times(others_write, write_slot(d)),
    );
    let held = window_wait(d, row, wrong);
    let response = sum(cell(d, row, 7), sum(alone, sum(waiting, held)));
    let period = cell(d, row, 8);
    Row {
        level: levels,
        sr: sr,
        sw: sw,
        reads: others_read,
        writes: others_write,
        response: response,
        period: period,
        meets: response <= period,
    }
}
