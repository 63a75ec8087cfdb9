// What the static library exports, each field of each answer beside what `second` says of the same files.
use crate::compare::{over, second_run};
use crate::results::{EXPORTS, NO_CHANNEL, REWRITINGS};
use crate::whys::{Question, next_question, second_why};
use crate::writings::{exported_written, next_size, second_written};
use answercheck::exported::{
    kind_of, kind_told, same_count, same_outcome, same_page, same_reading, same_row, same_wait,
};
use answercheck::{same_bytes, same_pages, same_slices, told_by};
use answers::{Outcome, Wait};
use razhikum::{
    razhikum_bound, razhikum_count, razhikum_read_trace, razhikum_read_tree, razhikum_report,
    razhikum_run, razhikum_why,
};
use second::book::accs;
use second::past::keep_run;
use second::queues::refused;
use second::response::{bound_refusal, figures, no_figures};
use second::sheet::write_report;
use second::written::text_size;
use second::{Said, Wrong};
use store::{DIFFERENCES, add, get, note};

// The number of accelerators, none where the tree is refused.
fn try_count(tree: &[u8], s: Said, d: &mut [usize; 16384]) {
    let x = razhikum_count(tree);
    let mut n = 0;
    if s.number == 0 {
        n = accs(d);
    }
    note(d, DIFFERENCES, 0, same_count(x, n, s));
}

// The refusal of a bound of accelerator a: that of the tree, or one that has no line.
fn bound_said(s: Said, a: u8, d: &[usize; 16384]) -> Said {
    if s.number != 0 {
        return s;
    }
    Said {
        number: bound_refusal(d, a as usize, Wrong::Nothing),
        line: 0,
    }
}

fn try_bound(tree: &[u8], a: u8, s: Said, d: &mut [usize; 16384]) {
    let x = razhikum_bound(tree, a);
    let said = bound_said(s, a, d);
    let mut expected = no_figures();
    if said.number == 0 {
        expected = figures(d, a as usize, Wrong::Nothing);
    }
    note(d, DIFFERENCES, 0, same_row(x, said, expected));
    add(d, EXPORTS, 1, 1);
}

// Every accelerator, one past the last, and 255.
fn try_bounds(tree: &[u8], s: Said, d: &mut [usize; 16384]) {
    for a in 0..33u8 {
        if a as usize <= accs(d) {
            try_bound(tree, a, s, d);
        }
    }
    try_bound(tree, 255, s, d);
}

// The report; a refusal leaves the whole page.
fn try_report(tree: &[u8], s: Said, d: &mut [usize; 16384]) {
    let mut theirs = [46u8; 65536];
    let mut ours = [46u8; 65536];
    let x = razhikum_report(tree, &mut theirs);
    let mut n = 0;
    if s.number == 0 {
        n = write_report(d, &mut ours);
        add(d, EXPORTS, 2, 1);
    } else {
        add(d, EXPORTS, 3, 1);
    }
    note(
        d,
        DIFFERENCES,
        0,
        same_page(x, n, s) & same_pages(&theirs, &ours),
    );
}

// The tree written back over n bytes; one that is refused leaves them, whatever their number.
fn try_rewriting(tree: &[u8], s: Said, d: &mut [usize; 16384], out: &mut [u8; 131074], n: usize) {
    let x = exported_written(tree, out, 0, n);
    let w = second_written(s, d, out, n, Wrong::Nothing);
    let said = Said {
        number: w.number,
        line: w.line,
    };
    note(
        d,
        DIFFERENCES,
        0,
        same_page(x, w.bytes, said) & same_bytes(out, n),
    );
    if s.number == 0 {
        add(d, REWRITINGS, w.number, 1);
    } else {
        add(d, REWRITINGS, 1, 1);
    }
}

// Over just enough bytes, and over a buffer in its turn.
fn try_rewritings(tree: &[u8], s: Said, d: &mut [usize; 16384], out: &mut [u8; 131074]) {
    let n = text_size(d) % 4096;
    try_rewriting(tree, s, d, out, n);
    let size = next_size(d, n);
    try_rewriting(tree, s, d, out, size);
}

// A run and a wait on a channel that are refused so, and leave the buffer.
fn try_refusal(
    tree: &[u8],
    channel: u8,
    trace: &[u8],
    kind: usize,
    s: Said,
    d: &mut [usize; 16384],
) {
    let mut theirs = [46u8; 8];
    let ours = [46u8; 8];
    let x = razhikum_run(tree, channel, trace, &mut theirs);
    let e = refused(s.number, s.line);
    note(
        d,
        DIFFERENCES,
        0,
        same_outcome(x, kind, e) & same_slices(&theirs, &ours),
    );
    let y = razhikum_why(tree, channel, trace, 0, 1, &mut theirs);
    let w = told_by(s.number, s.line, 0, 0);
    note(
        d,
        DIFFERENCES,
        0,
        same_wait(y, kind, w) & same_slices(&theirs, &ours),
    );
}

// A channel that there is not comes before both files, whatever they are.
fn try_no_channel(tree: &[u8], trace: &[u8], d: &mut [usize; 16384]) {
    let s = Said { number: 2, line: 0 };
    try_refusal(tree, 2, trace, 4, s, d);
    try_refusal(tree, 255, trace, 4, s, d);
    add(d, NO_CHANNEL, 0, 4);
}

// A tree that is refused comes before its trace, and leaves the buffer of a run and of a wait, on both channels in turn.
fn try_refused(tree: &[u8], s: Said, d: &mut [usize; 16384]) {
    let reading = razhikum_read_trace(tree, b"x");
    note(d, DIFFERENCES, 0, same_reading(reading, 1, s));
    let turn = (get(d, EXPORTS, 5) % 2) as u8;
    try_refusal(tree, turn, b"x", 2, s, d);
    add(d, EXPORTS, 0, 1);
    add(d, EXPORTS, 5, 1);
    add(d, EXPORTS, 7, 1);
}

// A tree file on which the second reader says s; the rows have its tree if it is accepted.
pub fn try_tree_exports(tree: &[u8], s: Said, d: &mut [usize; 16384], out: &mut [u8; 131074]) {
    let reading = razhikum_read_tree(tree);
    note(d, DIFFERENCES, 0, same_reading(reading, 1, s));
    add(d, EXPORTS, 0, 1);
    try_count(tree, s, d);
    try_bounds(tree, s, d);
    try_report(tree, s, d);
    try_rewritings(tree, s, d, out);
    try_no_channel(tree, b"x", d);
    if s.number != 0 {
        try_refused(tree, s, d);
    }
}

// The number of a channel in an export.
fn exported_channel(channel: usize) -> u8 {
    (channel % 2) as u8
}

// The exported run on a channel over the first n bytes.
fn exported_run(
    tree: &[u8],
    channel: usize,
    trace: &[u8],
    out: &mut [u8; 131074],
    n: usize,
) -> Outcome {
    let c = exported_channel(channel);
    over(out, 0, n, |part| razhikum_run(tree, c, trace, part))
}

// The exported answer why a transaction waited, over the first bytes.
fn exported_why(tree: &[u8], trace: &[u8], q: Question, out: &mut [u8; 131074]) -> Wait {
    let c = exported_channel(q.channel);
    over(out, 0, q.size, |part| {
        razhikum_why(tree, c, trace, q.accelerator, q.number, part)
    })
}

// A question to accelerator a of the trace, which the tree may not have.
fn try_wait(
    tree: &[u8],
    channel: usize,
    trace: &[u8],
    s: Said,
    d: &mut [usize; 16384],
    past: &[usize],
    a: u8,
    out: &mut [u8; 131074],
) {
    let turn = get(d, EXPORTS, 6);
    let q = next_question(channel, d, past, a, turn, out);
    let x = exported_why(tree, trace, q, out);
    let w = second_why(s, d, past, q, out, Wrong::Nothing);
    note(
        d,
        DIFFERENCES,
        0,
        same_wait(x, kind_told(w), w) & same_bytes(out, q.size),
    );
    add(d, EXPORTS, 6, 1);
}

// A question to each trace, unless its run goes on after these slots; its accelerators and one past the last come in turn.
fn try_waits(
    tree: &[u8],
    channel: usize,
    trace: &[u8],
    s: Said,
    d: &mut [usize; 16384],
    out: &mut [u8; 131074],
) {
    let a = get(d, EXPORTS, 6) % (accs(d) % 255 + 1);
    let mut slots = [0usize; 1000];
    if s.number != 0 {
        let none = &slots[..];
        try_wait(
            tree,
            channel,
            trace,
            s,
            d,
            &none[0..0],
            (a % 256) as u8,
            out,
        );
        return;
    }
    let n = keep_run(d, channel, &mut slots) % 1001;
    if n < 1000 {
        let all = &slots[..];
        try_wait(tree, channel, trace, s, d, &all[0..n], (a % 256) as u8, out);
    }
}

// A trace file on an accepted tree file, on which the second reader says s; the log has its lines. It is read, run on a channel over n
// bytes, and asked for a wait; and it is given to a channel that there is not.
pub fn try_trace_exports(
    tree: &[u8],
    channel: usize,
    trace: &[u8],
    s: Said,
    d: &mut [usize; 16384],
    out: &mut [u8; 131074],
    n: usize,
) {
    let reading = razhikum_read_trace(tree, trace);
    note(d, DIFFERENCES, 0, same_reading(reading, 2, s));
    add(d, EXPORTS, 0, 1);
    let x = exported_run(tree, channel, trace, out, n);
    let e = second_run(s, d, channel, out, n, Wrong::Nothing);
    note(
        d,
        DIFFERENCES,
        0,
        same_outcome(x, kind_of(e), e) & same_bytes(out, n),
    );
    add(d, EXPORTS, 4, 1);
    try_waits(tree, channel, trace, s, d, out);
    try_no_channel(tree, trace, d);
}
