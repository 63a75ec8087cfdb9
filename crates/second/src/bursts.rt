// The second splitter, joiner and offered burst. A burst is walked beat by beat: a beat ends before the next multiple of the beat size,
// and a piece begins where the one before has all its beats. The joiner counts down the pieces that are not answered. An offered burst
// is single offers on the queues.
use crate::Wrong;
use crate::book::{cell, is_broken, is_older, most_beats};
use crate::calls::{offer_one, rules_broken};
use store::{add, clear, put};

// Of each piece the start address,
pub const STARTS: usize = 6144;

// and the beats.
pub const BEATS: usize = 6400;

// How many entries each of them has.
pub const ENTRIES: usize = 256;

// A burst: its start address, its beats, and the bytes of a beat.
#[derive(Clone, Copy)]
pub struct Asked {
    pub start: usize,
    pub beats: usize,
    pub size: usize,
}

// What the splitter says: the number of a refusal, or 0; how many pieces there are.
#[derive(Clone, Copy)]
pub struct Split {
    pub number: usize,
    pub pieces: usize,
}

// What the joiner says: 0 taken, DONE, or the number of a refusal; the pieces, and how many are answered.
#[derive(Clone, Copy)]
pub struct Joined {
    pub code: usize,
    pub pieces: usize,
    pub answered: usize,
}

pub const DONE: usize = 255;

// What comes of an offered burst: the number of a refusal, or 0; how many pieces are admitted.
#[derive(Clone, Copy)]
pub struct Offered {
    pub number: usize,
    pub admitted: usize,
}

// A walk over the beats: the next byte, the beats that are left of this piece, and the pieces so far.
#[derive(Clone, Copy)]
struct Walk {
    at: usize,
    left: usize,
    pieces: usize,
}

// A power of two has no bit in common with the number below it. A wrong rule takes 3 too.
fn is_size(size: usize, wrong: Wrong) -> bool {
    let below = size.wrapping_sub(1);
    let power = (size != 0) & (size < 129) & (size & below == 0);
    power | ((size == 3) & (wrong == Wrong::ThreeBytes))
}

// The byte after a beat that begins at `at`: the next multiple of the beat size.
fn after_beat(at: usize, size: usize) -> usize {
    if size == 0 {
        return at;
    }
    let down = at.wrapping_sub(at % size);
    down.wrapping_add(size)
}

// Has a beat a byte past the block of 4,096 bytes in which the burst starts? A wrong rule asks for the byte after the beat.
fn leaves_block(b: Asked, wrong: Wrong) -> bool {
    let last = b.start | 4095;
    let beats = b.beats;
    let mut at = b.start;
    for _ in 0..beats {
        at = after_beat(at, b.size);
        let mut byte = at.wrapping_sub(1);
        if wrong == Wrong::EndCrosses {
            byte = at;
        }
        if last < byte {
            return true;
        }
    }
    false
}

// Does the burst cross a multiple of 4,096? A wrong rule asks only how long it is.
fn crosses(b: Asked, wrong: Wrong) -> bool {
    let size = b.size;
    if size == 0 {
        return false;
    }
    if wrong == Wrong::ByLength {
        return 4096 / size < b.beats;
    }
    leaves_block(b, wrong)
}

// The most beats of a burst on the tree in the rows, by its bus line's name. A wrong rule has one limit for every tree.
fn most_taken(d: &[usize; 16384], wrong: Wrong) -> usize {
    if wrong == Wrong::Beats256 {
        return most_beats(false);
    }
    if wrong == Wrong::Beats16 {
        return most_beats(true);
    }
    most_beats(is_older(d))
}

// The refusals 15 and 16 of a burst of at most so many beats, or 0. A wrong rule tests 16 first.
fn bad_burst(b: Asked, most: usize, wrong: Wrong) -> usize {
    let bad = (b.beats == 0) | (most < b.beats) | !is_size(b.size, wrong);
    if bad & (wrong != Wrong::PageFirst) {
        return 15;
    }
    if crosses(b, wrong) {
        return 16;
    }
    if bad { 15 } else { 0 }
}

// The refusal of a burst, or 0. A wrong rule tests 11 last.
fn refusal(broken: bool, b: Asked, d: &[usize; 16384], wrong: Wrong) -> usize {
    if broken & (wrong != Wrong::BurstFirst) {
        return 11;
    }
    let number = bad_burst(b, most_taken(d, wrong), wrong);
    if broken & (number == 0) {
        return 11;
    }
    number
}

// How far from its beat a piece starts: only by a wrong rule, in which a later one starts as far from a multiple as the burst.
fn skew(w: Walk, b: Asked, wrong: Wrong) -> usize {
    let size = b.size;
    if size == 0 {
        return 0;
    }
    if (wrong != Wrong::NotRounded) | (w.pieces == 0) {
        return 0;
    }
    b.start % size
}

// A piece begins with the next beat. A wrong rule gives it all n beats at once.
fn begin_piece(w: Walk, b: Asked, n: usize, d: &mut [usize; 16384], wrong: Wrong) {
    let start = w.at.wrapping_add(skew(w, b, wrong));
    put(d, STARTS, w.pieces % ENTRIES, start);
    let mut beats = 0;
    if wrong == Wrong::LastFull {
        beats = n;
    }
    put(d, BEATS, w.pieces % ENTRIES, beats);
}

// The next beat, which is the first of a piece if the piece before has its n beats.
fn walk_beat(w: Walk, b: Asked, n: usize, d: &mut [usize; 16384], wrong: Wrong) -> Walk {
    let mut left = w.left;
    let mut pieces = w.pieces;
    if left == 0 {
        begin_piece(w, b, n, d, wrong);
        left = n;
        pieces = pieces.wrapping_add(1);
    }
    if wrong != Wrong::LastFull {
        let here = pieces.wrapping_sub(1) % ENTRIES;
        add(d, BEATS, here, 1);
    }
    Walk {
        at: after_beat(w.at, b.size),
        left: left.wrapping_sub(1),
        pieces: pieces,
    }
}

// The pieces of a burst, each with as many beats as the bus line says. A wrong rule leaves the entries past them.
fn cut(b: Asked, d: &mut [usize; 16384], wrong: Wrong) -> usize {
    if wrong != Wrong::EntriesLeft {
        clear(d, STARTS, 512);
    }
    let n = cell(d, 0, 9);
    let beats = b.beats;
    let mut w = Walk {
        at: b.start,
        left: 0,
        pieces: 0,
    };
    for _ in 0..beats {
        w = walk_beat(w, b, n, d, wrong);
    }
    w.pieces
}

// The splitter, on the configuration in the rows. A refusal leaves the entries.
pub fn split_one(b: Asked, d: &mut [usize; 16384], wrong: Wrong) -> Split {
    let number = refusal(is_broken(d), b, d, wrong);
    let mut pieces = 0;
    if number == 0 {
        pieces = cut(b, d, wrong);
    }
    Split {
        number: number,
        pieces: pieces,
    }
}

// The answer of the piece of this number. A wrong rule says done one answer early, or takes the one after the last.
pub fn join_one(pieces: usize, answered: usize, number: usize, wrong: Wrong) -> Joined {
    let open = pieces.wrapping_sub(answered);
    let keeps = (pieces != 0) & (pieces < 257) & (open <= pieces);
    let due = number.wrapping_add(open) == pieces.wrapping_add(1);
    if !(keeps & due & ((open != 0) | (wrong == Wrong::AfterLast))) {
        return Joined {
            code: 11,
            pieces: pieces,
            answered: answered,
        };
    }
    let last = if wrong == Wrong::DoneEarly { 2 } else { 1 };
    Joined {
        code: if open == last { DONE } else { 0 },
        pieces: pieces,
        answered: number,
    }
}

// Offers n transactions of accelerator a, until one is refused. A wrong rule counts that one among those admitted.
fn offer_pieces(d: &mut [usize; 16384], a: usize, n: usize, wrong: Wrong) -> Offered {
    for admitted in 0..n {
        let number = offer_one(d, a, Wrong::Nothing);
        if number != 0 {
            return Offered {
                number: number,
                admitted: if wrong == Wrong::RefusedCounted {
                    admitted + 1
                } else {
                    admitted
                },
            };
        }
    }
    Offered {
        number: 0,
        admitted: n,
    }
}

// How many of the pieces are offered: those from one on, counted from 0. A wrong rule begins with the first, or offers the burst as one.
fn pieces_from(pieces: usize, from: usize, wrong: Wrong) -> usize {
    let mut left = pieces.saturating_sub(from);
    if wrong == Wrong::FromFirst {
        left = pieces;
    }
    if wrong == Wrong::OneOffer {
        left = left.min(1);
    }
    left
}

// The pieces of a burst of accelerator a, from one on, offered one by one.
pub fn offer_burst(
    b: Asked,
    a: usize,
    from: usize,
    d: &mut [usize; 16384],
    wrong: Wrong,
) -> Offered {
    let number = refusal(rules_broken(d, Wrong::Nothing), b, d, wrong);
    if number != 0 {
        return Offered {
            number: number,
            admitted: 0,
        };
    }
    let pieces = cut(b, d, Wrong::Nothing);
    offer_pieces(d, a, pieces_from(pieces, from, wrong), wrong)
}
