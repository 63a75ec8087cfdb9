// One input at a time: both implementations are run on it, and what is found is counted.
use crate::compare::{library_run, same_bound, same_bounds, second_run};
use crate::exports::{try_trace_exports, try_tree_exports};
use crate::results::{
    ALTERED, BOUND_ANSWERS, BOUNDS, BUFFERS, DELAYED, DONE, JOBS, LEVELS, OLDER, RENAMED, REQUESTS,
    RUN_REFUSALS, SIZES, SLOTS, STOPPED, STUCK, TANGLED, TRACES, TREES, VARIED, WINDOWS,
    WRITE_RUNS, ZEROS,
};
use crate::walked::same_requests;
use crate::whys::try_whys;
use crate::writings::{try_writings, try_written};
use alter::altered;
use alter::tangle::{WAYS, tangled};
use answercheck::{same_bytes, same_end, same_flag, same_said};
use callcheck::{busy_state, try_other};
use generator::number_below;
use lines::FileError;
use model::Tree;
use placing::TreeReply;
use reader::read_tree;
use second::book::{READ, WRITE, cell, deepest, is_jobless, other, read_book, varied};
use second::queues::{Ended, is_stuck, run_refusal};
use second::requests::{lines, read_log};
use second::response::bound_refusal;
use second::written::text_size;
use second::{Said, Wrong};
use store::{DIFFERENCES, WRONG, add, note};
use trace::read_trace;
use treecheck::{is_empty, judge, same_tree};

fn count_delay(delay: u8, d: &mut [usize; 16384]) {
    if delay != 0 {
        add(d, DELAYED, 0, 1);
    }
    if delay == 15 {
        add(d, DELAYED, 1, 1);
    }
}

// What the job of accelerator a has: 0 reads and writes, 1 writes only, 2 reads only, 3 neither.
fn job_kind(d: &[usize; 16384], a: usize) -> usize {
    let no_reads = is_jobless(d, a, READ, Wrong::Nothing);
    let no_writes = is_jobless(d, a, WRITE, Wrong::Nothing);
    no_reads as usize + 2 * (no_writes as usize)
}

// The jobs of an accepted tree.
fn count_jobs(accs: usize, d: &mut [usize; 16384]) {
    for a in 0..accs.min(32) {
        let kind = job_kind(d, a);
        add(d, JOBS, kind, 1);
    }
}

// Does a wrong rule change a bound of the tree?
fn note_bounds(t: Tree, d: &mut [usize; 16384], wrong: Wrong) {
    let same = same_bounds(t, d, wrong);
    note(d, WRONG, wrong as usize, same);
}

// The bounds of an accepted tree.
fn try_bounds(t: Tree, d: &mut [usize; 16384]) {
    let right = same_bounds(t, d, Wrong::Nothing);
    note(d, DIFFERENCES, 0, right);
    note_bounds(t, d, Wrong::OwnPort);
    note_bounds(t, d, Wrong::Nested);
    note_bounds(t, d, Wrong::BothCount);
    note_bounds(t, d, Wrong::RoundedDown);
    note_bounds(t, d, Wrong::NoWindows);
    note_bounds(t, d, Wrong::OtherSlot);
    note_bounds(t, d, Wrong::EmptyWindow);
    add(d, BOUNDS, 0, t.accs as usize + 1);
}

// An accepted tree: its entries and its bounds.
fn try_content(t: Tree, d: &mut [usize; 16384]) {
    let tree = same_tree(t, d);
    note(d, DIFFERENCES, 0, tree);
    try_bounds(t, d);
    count_jobs(t.accs as usize, d);
    let levels = deepest(d);
    add(d, LEVELS, levels, 1);
    if varied(d) {
        add(d, VARIED, 0, 1);
    }
    count_delay(t.bus.delay, d);
    add(d, OLDER, 0, t.bus.axi3 as usize);
    if t.ints == 15 {
        add(d, SIZES, 0, 1);
    }
    if t.accs == 32 {
        add(d, SIZES, 1, 1);
    }
}

// An accepted file has as many bytes as its tree written back; or two more, for a return delay of 0.
fn count_zero(s: &[u8], delay: u8, d: &mut [usize; 16384]) {
    let n = text_size(d);
    if s.len() != n {
        let two_more = s.len() == n.wrapping_add(2);
        note(d, DIFFERENCES, 0, two_more & (delay == 0));
        add(d, ZEROS, 0, 1);
    }
}

// Does a wrong rule change the answer on a tree file?
fn note_reading(s: &[u8], answer: Result<(), FileError>, d: &mut [usize; 16384], wrong: Wrong) {
    let said = read_book(s, d, wrong);
    note(d, WRONG, wrong as usize, same_said(answer, said));
}

// A tree file. The rows are left with the second reader's tree.
pub fn try_tree(s: &[u8], d: &mut [usize; 16384], out: &mut [u8; 131074]) -> TreeReply {
    let r = read_tree(s);
    let t = r.tree;
    let answer = r.answer;
    note_reading(s, answer, d, Wrong::OrderFirst);
    note_reading(s, answer, d, Wrong::LongLetIn);
    note_reading(s, answer, d, Wrong::LongRefused);
    note_reading(s, answer, d, Wrong::OtherName);
    let said = read_book(s, d, Wrong::Nothing);
    note(d, DIFFERENCES, 0, same_said(answer, said));
    add(d, TREES, said.number, 1);
    if said.number == 0 {
        try_content(t, d);
        count_zero(s, t.bus.delay, d);
        try_written(t, d, out);
    } else {
        let empty = is_empty(t, d);
        note(d, DIFFERENCES, 0, empty);
    }
    try_tree_exports(s, said, d, out);
    r
}

// A trace file, on the tree that the rows have too. The log is left with its lines.
fn try_trace(t: Tree, s: &[u8], d: &mut [usize; 16384]) -> Said {
    let answer = read_trace(t, s);
    let wrongly = read_log(s, d, Wrong::FallingFirst);
    note(
        d,
        WRONG,
        Wrong::FallingFirst as usize,
        same_said(answer, wrongly),
    );
    let said = read_log(s, d, Wrong::Nothing);
    note(d, DIFFERENCES, 0, same_said(answer, said));
    add(d, TRACES, said.number, 1);
    if said.number == 0 {
        let requests = same_requests(s, d);
        note(d, DIFFERENCES, 0, requests);
        let n = lines(d);
        add(d, REQUESTS, 0, n);
    }
    said
}

fn count_run(e: Ended, d: &mut [usize; 16384]) {
    if e.number != 0 {
        add(d, RUN_REFUSALS, e.number, 1);
        return;
    }
    if e.done {
        add(d, DONE, 0, 1);
    } else {
        add(d, STOPPED, 0, 1);
    }
    if is_stuck(d) {
        add(d, STUCK, 0, 1);
    }
    add(d, SLOTS, 0, e.slots);
    let window = cell(d, 0, 0);
    if window != 0 {
        add(d, WINDOWS, 0, e.slots / window);
    }
}

// The wrong rules of a run that is not refused.
const RULES: [Wrong; 12] = [
    Wrong::WholeRun,
    Wrong::FromZero,
    Wrong::Growing,
    Wrong::LowerReset,
    Wrong::NotOutstanding,
    Wrong::HomeLate,
    Wrong::HomeEarly,
    Wrong::HomeAtWindow,
    Wrong::DoneAtHome,
    Wrong::OtherChannel,
    Wrong::JoblessAdmitted,
    Wrong::DoneHolding,
];

// A run over n bytes by each of these rules, against what the library did.
fn try_wrong_runs(
    said: Said,
    d: &mut [usize; 16384],
    channel: usize,
    out: &mut [u8; 131074],
    right: Ended,
    n: usize,
) {
    for wrong in RULES {
        let e = second_run(said, d, channel, out, n, wrong);
        note(
            d,
            WRONG,
            wrong as usize,
            same_end(e, right) & same_bytes(out, n),
        );
    }
}

// A run over n bytes that the library ends so: is an order of its tests seen that is wrong?
fn note_order(said: Said, d: &mut [usize; 16384], right: Ended, n: usize, wrong: Wrong) {
    let r = run_refusal(said, d, n, wrong);
    note(
        d,
        WRONG,
        wrong as usize,
        (r.number == right.number) & (r.line == right.line),
    );
}

// A run on a channel over n bytes of each buffer; what the library answers.
fn same_run(
    t: Tree,
    channel: usize,
    s: &[u8],
    said: Said,
    d: &mut [usize; 16384],
    out: &mut [u8; 131074],
    n: usize,
) -> Ended {
    let right = library_run(t, channel, s, out, n);
    let e = second_run(said, d, channel, out, n, Wrong::Nothing);
    note(d, DIFFERENCES, 0, same_end(e, right) & same_bytes(out, n));
    count_run(e, d);
    add(d, WRITE_RUNS, 0, channel);
    add(d, BUFFERS, 0, n);
    right
}

// Such a run, and by each wrong rule; the slots used if it is done, else 0.
fn try_run(
    t: Tree,
    channel: usize,
    s: &[u8],
    said: Said,
    d: &mut [usize; 16384],
    out: &mut [u8; 131074],
    n: usize,
) -> usize {
    let right = same_run(t, channel, s, said, d, out, n);
    note_order(said, d, right, n, Wrong::SizeFirst);
    note_order(said, d, right, n, Wrong::TraceFirst);
    if said.number == 0 {
        try_wrong_runs(said, d, channel, out, right, n);
    }
    if right.done { right.slots } else { 0 }
}

// A trace, and runs of it: over a buffer of n bytes, and if that is done, over just enough and over one byte less; if it is
// refused, now and then over a buffer that is too large; and on the other channel once. What the second reader says of it.
fn try_runs(
    t: Tree,
    channel: usize,
    s: &[u8],
    d: &mut [usize; 16384],
    out: &mut [u8; 131074],
    n: usize,
) -> Said {
    let said = try_trace(t, s, d);
    let slots = try_run(t, channel, s, said, d, out, n);
    if slots != 0 {
        try_run(t, channel, s, said, d, out, slots);
        let short = slots - 1;
        try_run(t, channel, s, said, d, out, short);
    }
    if said.number != 0 {
        if number_below(d, 4) == 0 {
            try_run(t, channel, s, said, d, out, 65537);
        }
    }
    same_run(t, other(channel), s, said, d, out, n);
    said
}

// The same on the tree of an accepted file, and the waits in the trace.
pub fn try_file_runs(
    tree: &[u8],
    t: Tree,
    channel: usize,
    s: &[u8],
    d: &mut [usize; 16384],
    out: &mut [u8; 131074],
    n: usize,
) {
    let said = try_runs(t, channel, s, d, out, n);
    try_whys(t, channel, s, said, d, out, n);
    try_trace_exports(tree, channel, s, said, d, out, n);
}

// A bound of accelerator a, which the tree may not have.
fn try_bound(t: Tree, a: u8, d: &mut [usize; 16384]) {
    let same = same_bound(t, a, d, Wrong::Nothing);
    note(d, DIFFERENCES, 0, same);
    let wrongly = same_bound(t, a, d, Wrong::UnknownFirst);
    note(d, WRONG, Wrong::UnknownFirst as usize, wrongly);
    let refusal = bound_refusal(d, a as usize, Wrong::Nothing);
    add(d, BOUND_ANSWERS, refusal, 1);
}

// Another tree: whether it keeps its rules, its start, calls on it from a state of t, its bounds, its text, and if it breaks them
// runs of the trace s and a wait in it. The rows are left with t again.
fn try_other_tree(
    t: Tree,
    changed: Tree,
    channel: usize,
    s: &[u8],
    d: &mut [usize; 16384],
    out: &mut [u8; 131074],
) -> bool {
    let state = busy_state(t, d);
    let keeps = judge(changed, d);
    add(d, ALTERED, keeps as usize, 1);
    let same = same_flag(t.bus.axi3, changed.bus.axi3);
    note(d, RENAMED, keeps as usize, same);
    try_other(changed, state, d);
    try_bound(changed, 0, d);
    try_bound(changed, 32, d);
    if keeps {
        try_written(changed, d, out);
    } else {
        try_writings(changed, d, out);
        let said = try_runs(changed, channel, s, d, out, 8);
        try_whys(changed, channel, s, said, d, out, 8);
    }
    let back = judge(t, d);
    note(d, DIFFERENCES, 0, back);
    keeps
}

// The tree t, altered at random and in one of the ways of `tangle`, of which those are counted that break the rules.
pub fn try_altered(
    t: Tree,
    channel: usize,
    s: &[u8],
    d: &mut [usize; 16384],
    out: &mut [u8; 131074],
) {
    try_other_tree(t, altered(t, d), channel, s, d, out);
    let way = WAYS[number_below(d, 7) % 7];
    if !try_other_tree(t, tangled(t, way, d), channel, s, d, out) {
        add(d, TANGLED, way as usize, 1);
    }
}
