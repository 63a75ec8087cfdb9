// The joiner: every count of pieces up to 259 and some larger ones, as many answered, and numbers about those.
use crate::splits::{NUMBERS, number_at};
use crate::{same_join, wide};
use burst::joiner::{Joiner, join, joiner_for};
use second::Wrong;
use second::bursts::{DONE, Joined, join_one};
use store::{DIFFERENCES, WRONG, add, get, note};

// Answers to a joiner: 0 taken, 1 done, else by the number of the refusal.
pub const JOINS: usize = 3488;

// Answers whose turn chose a wrong rule.
const TURNS: usize = 3539;

fn count_join(y: Joined, d: &mut [usize; 16384]) {
    if y.code == DONE {
        add(d, JOINS, 1, 1);
    } else {
        add(d, JOINS, y.code, 1);
    }
}

// The wrong rules in turn, and none.
const RULES: [Wrong; 3] = [Wrong::DoneEarly, Wrong::AfterLast, Wrong::Nothing];

fn wrong_in_turn(d: &mut [usize; 16384]) -> Wrong {
    let turn = get(d, TURNS, 0) % 3;
    add(d, TURNS, 0, 1);
    RULES[turn]
}

// An answer of this number; and by a wrong rule.
fn try_join(j: Joiner, number: u32, d: &mut [usize; 16384]) {
    let x = join(j, number);
    let pieces = wide(j.pieces);
    let answered = wide(j.answered);
    let y = join_one(pieces, answered, wide(number), Wrong::Nothing);
    note(d, DIFFERENCES, 0, same_join(x, y));
    count_join(y, d);
    let wrong = wrong_in_turn(d);
    if wrong != Wrong::Nothing {
        let z = join_one(pieces, answered, wide(number), wrong);
        note(d, WRONG, wrong as usize, same_join(x, z));
    }
}

// Six numbers about the next one, the last piece's, and the one after it.
fn number_near(j: Joiner, k: u32) -> u32 {
    if k < 6 {
        return std::num::wrapping_sub_u32(std::num::wrapping_add_u32(j.answered, k), 2);
    }
    std::num::wrapping_add_u32(j.pieces, k % 2)
}

fn try_numbers(j: Joiner, d: &mut [usize; 16384]) {
    for k in 0..8u32 {
        try_join(j, number_near(j, k), d);
    }
}

// So many pieces: the joiner as it begins, and with any number of answers.
fn try_pieces(pieces: u32, d: &mut [usize; 16384]) {
    let first = joiner_for(pieces);
    note(
        d,
        DIFFERENCES,
        0,
        (first.pieces == pieces) & (first.answered == 0),
    );
    for i in 0..NUMBERS {
        let j = Joiner {
            pieces: pieces,
            answered: number_at(i),
        };
        try_numbers(j, d);
    }
}

// Any number of pieces.
pub fn try_joins(d: &mut [usize; 16384]) {
    for i in 0..NUMBERS {
        try_pieces(number_at(i), d);
    }
}
