// Another text of a tree: its acc lines in another order, and a return delay of 0 put in.

// A byte of the text; where the next one goes.
fn put_at(w: &mut [u8; 4096], at: usize, b: u8) -> usize {
    w[at % 4096] = b;
    at.wrapping_add(1)
}

// Where each line begins; how many there are.
fn line_starts(s: &[u8], starts: &mut [usize; 64]) -> usize {
    let mut lines = 0usize;
    let mut ended = true;
    for (i, b) in s.iter().enumerate() {
        if ended {
            starts[lines % 64] = i;
            lines = lines.wrapping_add(1);
        }
        ended = *b == b'\n';
    }
    lines
}

// Does an acc line begin here?
fn is_acc(s: &[u8], at: usize) -> bool {
    if s.len() <= at {
        return false;
    }
    s[at] == 97
}

// How many lines come before the acc lines.
fn head(s: &[u8], starts: &[usize; 64], lines: usize) -> usize {
    starts
        .iter()
        .take(lines)
        .filter(|at| !is_acc(s, **at))
        .count()
}

// The step of a turn: 1, or a prime above 32, which meets all of up to 32 lines.
const STEPS: [usize; 6] = [1, 37, 41, 43, 47, 53];

// So many steps of a turn.
fn steps(n: usize, turn: usize) -> usize {
    (n % 64) * STEPS[turn % 6]
}

// The line at place i: the first ones stay, and the others go round; in turn 0 all stay.
fn line_at(i: usize, first: usize, lines: usize, turn: usize) -> usize {
    if i < first {
        return i;
    }
    if lines <= first {
        return i;
    }
    let far = steps(i - first, turn).wrapping_add(turn);
    first.wrapping_add(far % (lines - first))
}

// The line that begins at `from`, without its LF.
fn put_line(w: &mut [u8; 4096], at: usize, s: &[u8], from: usize) -> usize {
    let mut next = at;
    for b in s.iter().skip(from).take_while(|b| **b != b'\n') {
        next = put_at(w, next, *b);
    }
    next
}

// The text, its acc lines in the order of the turn, at the beginning of w; with a return delay of 0 at the end of its bus line if
// `zero` says so. How many bytes it has.
pub fn other_text(s: &[u8], w: &mut [u8; 4096], turn: usize, zero: bool) -> usize {
    let mut starts = [0usize; 64];
    let lines = line_starts(s, &mut starts);
    let first = head(s, &starts, lines);
    let mut next = 0;
    for i in 0..lines.min(64) {
        let from = starts[line_at(i, first, lines, turn) % 64];
        next = put_line(w, next, s, from);
        if (i == 0) & zero {
            next = put_at(w, next, b'\t');
            next = put_at(w, next, b'0');
        }
        next = put_at(w, next, b'\n');
    }
    next
}

// The text of n bytes in w.
pub fn text_in(w: &[u8; 4096], n: usize) -> &[u8] {
    let to = n % 4097;
    let all = &w[..];
    &all[0..to]
}
