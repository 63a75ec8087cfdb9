// The library's readers, machine, runner, bounds, waits, writer and bursts, run beside those of `second` on the generated and the listed
// inputs of `generator`. It writes how many inputs of each kind there were, how often each of several wrong rules, followed on
// purpose, was seen, and last how many differences there are.
#![tactic(auto)]

mod bursts;
mod compare;
mod edges;
mod exports;
mod results;
mod trials;
mod walked;
mod whys;
mod writings;

use crate::bursts::try_bursts;
use crate::edges::{try_case_11, try_delays, try_listed, try_long, try_names, try_wide};
use crate::results::show;
use crate::trials::{try_altered, try_file_runs, try_tree};
use callcheck::try_machine;
use generator::{buffer_size, file_in, made, number_below, start, trace_file, tree_file};
use input::read_full;

// A generated tree, in w, and, if it is accepted, a generated trace for one of the channels, in v.
fn try_pair(
    w: &mut [u8; 16384],
    v: &mut [u8; 16384],
    d: &mut [usize; 16384],
    out: &mut [u8; 131074],
) {
    tree_file(w, d);
    let n = generator::size(d);
    let r = try_tree(file_in(w, n), d, out);
    let Ok(()) = r.answer else {
        return;
    };
    let t = r.tree;
    try_machine(t, d);
    let channel = number_below(d, 2);
    trace_file(v, d, t.accs as usize, channel);
    try_altered(t, channel, made(v, d), d, out);
    let size = buffer_size(d);
    try_file_runs(file_in(w, n), t, channel, made(v, d), d, out, size);
}

// The generated inputs, case 11, the return delay's limits, the record names of bus lines, and the widest trees.
fn try_generated(d: &mut [usize; 16384], out: &mut [u8; 131074]) {
    let mut w = [0u8; 16384];
    let mut v = [0u8; 16384];
    start(d);
    for _ in 0..2200usize {
        try_pair(&mut w, &mut v, d, out);
    }
    try_case_11(&mut w, d, out);
    try_delays(&mut w, d, out);
    try_names(&mut w, d, out);
    try_wide(&mut w, d, out);
}

fn main(rt: HostRuntime) {
    let mut d = [0usize; 16384];
    let mut out = [0u8; 131074];
    try_generated(&mut d, &mut out);
    let mut page = [0u8; 65537];
    let n = read_full(&mut rt.stdin(), &mut page);
    try_listed(&page[..n], &mut d, &mut out);
    try_long(&mut page, &mut d, &mut out);
    try_bursts(&mut d);
    show(&rt, &d);
}
