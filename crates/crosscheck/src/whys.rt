// Why a transaction waited: the library's answer and every byte of its buffer, beside those of `second`.
use crate::compare::over;
use crate::results::{
    LONG_RUNS, RUNS_ASKED, WHY_SLOTS, WHYS, WHYS_ASKED, WHYS_AT_ONCE, WHYS_CUT, WRITE_WHYS,
};
use answercheck::{OURS, same_bytes, same_told, told_of};
use callcheck::channel_of;
use model::Tree;
use second::past::{Told, keep_run, services, why};
use second::{Said, Wrong};
use store::{DIFFERENCES, WRONG, add, get, note};

// A question: a channel, an accelerator, the number of one of its transactions, and the size of the buffer that is lent.
#[derive(Clone, Copy)]
pub struct Question {
    pub channel: usize,
    pub accelerator: u8,
    pub number: u32,
    pub size: usize,
}

// The library's answer, over the first bytes.
fn library_why(t: Tree, s: &[u8], q: Question, out: &mut [u8; 131074]) -> Told {
    let c = channel_of(q.channel);
    over(out, 0, q.size, |part| {
        told_of(waits::why(t, c, s, q.accelerator, q.number, part))
    })
}

// The second answer, over bytes from OURS on.
pub fn second_why(
    said: Said,
    d: &[usize; 16384],
    past: &[usize],
    q: Question,
    out: &mut [u8; 131074],
    wrong: Wrong,
) -> Told {
    let a = q.accelerator as usize;
    let k = q.number as usize;
    over(out, OURS, q.size, |part| {
        why(said, d, past, a, k, part, wrong)
    })
}

// An answer: by its number, and of those told the slots, those served in the slot of admission, and those cut by their buffer.
fn count_why(w: Told, size: usize, d: &mut [usize; 16384]) {
    add(d, WHYS, w.number, 1);
    if w.number != 0 {
        return;
    }
    add(d, WHY_SLOTS, 0, w.count);
    if w.count == 0 {
        add(d, WHYS_AT_ONCE, 0, 1);
    }
    if size / 2 < w.count {
        add(d, WHYS_CUT, 0, 1);
    }
}

// The wrong rules of a question.
const RULES: [Wrong; 6] = [
    Wrong::ServiceListed,
    Wrong::AdmittedLate,
    Wrong::RootMeets,
    Wrong::OwnMeets,
    Wrong::HalfPair,
    Wrong::NumberFirst,
];

// The question by each wrong rule, against what the library answered.
fn try_wrong_whys(
    said: Said,
    d: &mut [usize; 16384],
    past: &[usize],
    q: Question,
    out: &mut [u8; 131074],
    right: Told,
) {
    for wrong in RULES {
        let w = second_why(said, d, past, q, out, wrong);
        note(
            d,
            WRONG,
            wrong as usize,
            same_told(w, right) & same_bytes(out, q.size),
        );
    }
}

fn try_why(
    t: Tree,
    s: &[u8],
    said: Said,
    d: &mut [usize; 16384],
    past: &[usize],
    q: Question,
    out: &mut [u8; 131074],
) {
    let right = library_why(t, s, q, out);
    let w = second_why(said, d, past, q, out, Wrong::Nothing);
    note(
        d,
        DIFFERENCES,
        0,
        same_told(w, right) & same_bytes(out, q.size),
    );
    count_why(w, q.size, d);
    add(d, WRITE_WHYS, 0, q.channel);
    if (right.number == 0) | (right.number == 7) {
        try_wrong_whys(said, d, past, q, out, right);
    }
}

// The numbers that are asked of an accelerator, so many of which are served: 0, the first, one in the middle, the last, one more,
// and the highest of the type.
fn number_asked(i: usize, served: usize) -> u32 {
    let k = match i {
        0 | 1 => i,
        2 => served.wrapping_add(1) / 2,
        3 => served,
        4 => served.wrapping_add(1),
        _ => 4294967295,
    };
    (k % 4294967296) as u32
}

// The sizes of buffers for a list of so many slots: 0, 1, short and odd, short, just enough, one byte more, and larger.
fn size_lent(i: usize, count: usize) -> usize {
    let slots = count.min(32748);
    match i {
        0 => 0,
        1 => 1,
        2 => slots / 2 * 2 + 1,
        3 => slots / 2 * 2,
        4 => slots * 2,
        5 => slots * 2 + 1,
        _ => slots * 2 + 40,
    }
}

fn question_of(channel: usize, a: u8, k: u32, size: usize) -> Question {
    Question {
        channel: channel,
        accelerator: a,
        number: k,
        size: size,
    }
}

// One of the questions to accelerator a, with a buffer in its turn; the past is the run on the channel.
pub fn next_question(
    channel: usize,
    d: &mut [usize; 16384],
    past: &[usize],
    a: u8,
    i: usize,
    out: &mut [u8; 131074],
) -> Question {
    let k = number_asked(i % 6, services(past, a as usize));
    let said = Said { number: 0, line: 0 };
    let q = question_of(channel, a, k, 0);
    let w = second_why(said, d, past, q, out, Wrong::Nothing);
    let turn = get(d, WHYS_ASKED, 0);
    add(d, WHYS_ASKED, 0, 1);
    question_of(channel, a, k, size_lent(turn % 7, w.count))
}

fn try_number(
    t: Tree,
    channel: usize,
    s: &[u8],
    d: &mut [usize; 16384],
    past: &[usize],
    a: u8,
    i: usize,
    out: &mut [u8; 131074],
) {
    let q = next_question(channel, d, past, a, i, out);
    let said = Said { number: 0, line: 0 };
    try_why(t, s, said, d, past, q, out);
}

// Every accelerator, one past the last, and 255: a question to each, another one in each turn.
fn try_accelerators(
    t: Tree,
    channel: usize,
    s: &[u8],
    d: &mut [usize; 16384],
    past: &[usize],
    turn: usize,
    out: &mut [u8; 131074],
) {
    for a in 0..33u8 {
        if a <= t.accs {
            let i = turn.wrapping_add(a as usize);
            try_number(t, channel, s, d, past, a, i, out);
        }
    }
    try_number(t, channel, s, d, past, 255, turn, out);
}

// Every question.
fn try_turns(
    t: Tree,
    channel: usize,
    s: &[u8],
    d: &mut [usize; 16384],
    past: &[usize],
    out: &mut [u8; 131074],
) {
    for turn in 0..6 {
        try_accelerators(t, channel, s, d, past, turn, out);
    }
}

// The first transaction of accelerator 0, over buffers at the size limit.
fn try_largest(
    t: Tree,
    channel: usize,
    s: &[u8],
    said: Said,
    d: &mut [usize; 16384],
    past: &[usize],
    out: &mut [u8; 131074],
) {
    for size in 65536..65538 {
        try_why(t, s, said, d, past, question_of(channel, 0, 1, size), out);
    }
}

// The run of a trace that goes on after the first slots takes long. It is asked of if the trace is run over many bytes, and else one
// in 32 times: then every question.
fn try_long_run(
    t: Tree,
    channel: usize,
    s: &[u8],
    d: &mut [usize; 16384],
    out: &mut [u8; 131074],
    n: usize,
) {
    add(d, LONG_RUNS, 0, 1);
    if (n < 500) & (get(d, LONG_RUNS, 0) % 32 != 0) {
        return;
    }
    let mut slots = [0usize; 65536];
    let used = keep_run(d, channel, &mut slots) % 65537;
    let all = &slots[..];
    try_turns(t, channel, s, d, &all[0..used], out);
    add(d, RUNS_ASKED, 0, 1);
}

// An accepted trace on the tree that the rows have: the run is kept once, and questions are asked of it.
fn try_accepted(
    t: Tree,
    channel: usize,
    s: &[u8],
    said: Said,
    d: &mut [usize; 16384],
    out: &mut [u8; 131074],
    n: usize,
) {
    let mut slots = [0usize; 1000];
    let used = keep_run(d, channel, &mut slots) % 1001;
    if used == 1000 {
        try_long_run(t, channel, s, d, out, n);
        return;
    }
    let all = &slots[..];
    let past = &all[0..used];
    let turn = get(d, RUNS_ASKED, 0);
    try_accelerators(t, channel, s, d, past, turn, out);
    add(d, RUNS_ASKED, 0, 1);
    if turn % 8 == 0 {
        try_largest(t, channel, s, said, d, past, out);
    }
}

// A configuration that breaks its rules, or a trace that is refused: no run is kept.
fn try_refused(
    t: Tree,
    channel: usize,
    s: &[u8],
    said: Said,
    d: &mut [usize; 16384],
    out: &mut [u8; 131074],
) {
    let none = [0usize; 1];
    let all = &none[..];
    let q = question_of(channel, 0, 1, 8);
    try_why(t, s, said, d, &all[0..0], q, out);
    add(d, WHYS_ASKED, 0, 1);
    if get(d, WHYS_ASKED, 0) % 16 == 0 {
        try_largest(t, channel, s, said, d, &all[0..0], out);
    }
}

// A trace of which the second reader says so, and which is run on a channel over n bytes; the log has its lines.
pub fn try_whys(
    t: Tree,
    channel: usize,
    s: &[u8],
    said: Said,
    d: &mut [usize; 16384],
    out: &mut [u8; 131074],
    n: usize,
) {
    if said.number == 0 {
        try_accepted(t, channel, s, said, d, out, n);
    } else {
        try_refused(t, channel, s, said, d, out);
    }
}
