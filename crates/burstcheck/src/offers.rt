// Offered bursts, on states that offered bursts and slots lead to, on altered ones, and on a configuration that the state is not of.
use crate::splits::{asked, is_over_16, some_burst};
use crate::{same_offered, wide};
use burst::Burst;
use burst::offers::{BurstReply, offer_burst};
use callcheck::channel_of;
use callcheck::returns::give_all;
use callcheck::states::altered;
use generator::bursts::some_piece;
use generator::number_below;
use machine::{fresh, slot};
use model::access::{admitted_of, allowance_of, last_of, waiting_of};
use model::{Channel, State, Tree};
use second::Wrong;
use second::book::{READ, WRITE};
use second::bursts::Offered;
use second::calls::{PARTS, Part, alter, set_slot_count};
use store::{DIFFERENCES, WRONG, add, get, note};
use treecheck::judge;

// Offered bursts by the number of their answer.
pub const OFFERED: usize = 3504;

// The pieces admitted,
pub const ADMITTED: usize = 3540;

// the bursts of which some pieces are admitted and one is refused,
pub const IN_PART: usize = 3541;

// those that begin with a later piece and of which some are admitted,
pub const RESUMED: usize = 3542;

// those whose turn chose a wrong rule,
const TURNS: usize = 3543;

// and those that are refused by 15 on a tree of AXI3 only for having 17 to 256 beats.
pub const OVER_16_OFFERED: usize = 3546;

// Counts of beats about both limits.
const LIMITS: [u32; 6] = [15, 16, 17, 255, 256, 257];

// What is offered: a burst of accelerator a, from one of its pieces on.
#[derive(Clone, Copy)]
struct Call {
    b: Burst,
    a: u8,
    from: u32,
}

fn channel_number(c: Channel) -> usize {
    match c {
        Channel::Read => READ,
        Channel::Write => WRITE,
    }
}

// The record of each accelerator and the turn of each interconnect, in the second machine.
fn put_records(s: State, d: &mut [usize; 16384]) {
    for a in 0..32u8 {
        let i = a as usize;
        alter(d, Part::Waiting, i, waiting_of(s, a) as usize);
        alter(d, Part::Used, i, admitted_of(s, a) as usize);
        if a < 15 {
            alter(d, Part::LastPort, i, last_of(s, a) as usize);
            alter(d, Part::Allowance, i, allowance_of(s, a) as usize);
        }
    }
}

// The second machine is given the state, on a tree with this return delay.
fn put_state(s: State, delay: u8, d: &mut [usize; 16384]) {
    let c = s.channel;
    alter(d, Part::Channel, 0, channel_number(c));
    set_slot_count(d, s.slot as usize);
    put_records(s, d);
    give_all(s, delay, d);
}

// What the second machine does on the state.
fn second_offer(t: Tree, s: State, c: Call, d: &mut [usize; 16384], wrong: Wrong) -> Offered {
    put_state(s, t.bus.delay, d);
    second::bursts::offer_burst(asked(c.b), c.a as usize, wide(c.from), d, wrong)
}

// Is a wrong rule seen?
fn note_wrong(t: Tree, s: State, c: Call, x: BurstReply, d: &mut [usize; 16384], wrong: Wrong) {
    let z = second_offer(t, s, c, d, wrong);
    let same = same_offered(x, z, t.bus.delay, d);
    note(d, WRONG, wrong as usize, same);
}

fn count_offer(c: Call, axi3: bool, y: Offered, d: &mut [usize; 16384]) {
    add(d, OFFERED, y.number, 1);
    add(d, ADMITTED, 0, y.admitted);
    note(d, IN_PART, 0, (y.admitted == 0) | (y.number == 0));
    note(d, RESUMED, 0, (y.admitted == 0) | (c.from == 0));
    let over = axi3 & (y.number == 15) & is_over_16(c.b);
    note(d, OVER_16_OFFERED, 0, !over);
}

// The wrong rules in turn.
const RULES: [Wrong; 5] = [
    Wrong::OneOffer,
    Wrong::FromFirst,
    Wrong::RefusedCounted,
    Wrong::Beats256,
    Wrong::Beats16,
];

fn wrong_in_turn(d: &mut [usize; 16384]) -> Wrong {
    let turn = get(d, TURNS, 0) % 5;
    add(d, TURNS, 0, 1);
    RULES[turn]
}

// An offered burst on a tree that is in the rows too; and by a wrong rule.
fn try_offer(t: Tree, s: State, c: Call, d: &mut [usize; 16384]) -> State {
    let x = offer_burst(t, s, c.a, c.b, c.from);
    let wrong = wrong_in_turn(d);
    note_wrong(t, s, c, x, d, wrong);
    let y = second_offer(t, s, c, d, Wrong::Nothing);
    let same = same_offered(x, y, t.bus.delay, d);
    note(d, DIFFERENCES, 0, same);
    count_offer(c, t.bus.axi3, y, d);
    if y.number == 11 {
        note_wrong(t, s, c, x, d, Wrong::BurstFirst);
    }
    x.state
}

// A burst: two times in three one that the splitter does not refuse for its size or its page.
fn burst_to_offer(t: Tree, d: &mut [usize; 16384]) -> Burst {
    let b = some_burst(t, d);
    if number_below(d, 3) == 0 {
        return b;
    }
    Burst {
        start: std::num::wrapping_sub_u32(b.start, b.start % 4096),
        beats: b.beats,
        size: 1 << (number_below(d, 5) % 5),
    }
}

fn some_call(t: Tree, d: &mut [usize; 16384]) -> Call {
    let a = number_below(d, t.accs as usize + 2);
    let from = some_piece(d);
    Call {
        b: burst_to_offer(t, d),
        a: (a % 256) as u8,
        from: (from % 4294967296) as u32,
    }
}

// n offered bursts, about one in two after a slot.
fn try_calls(t: Tree, s: State, n: usize, d: &mut [usize; 16384]) -> State {
    let mut state = s;
    for _ in 0..n {
        if number_below(d, 2) == 0 {
            let r = slot(t, state);
            state = r.state;
        }
        state = try_offer(t, state, some_call(t, d), d);
    }
    state
}

// The starting state of a channel, or the one that comes with a refusal.
fn first_state(t: Tree, c: Channel) -> State {
    fresh(t, c).state
}

// Offered bursts from a fresh state on, on a tree that is in the rows; the state that they lead to.
pub fn try_offers(t: Tree, d: &mut [usize; 16384]) -> State {
    let channel = number_below(d, 2);
    try_calls(t, first_state(t, channel_of(channel)), 16, d)
}

// The same where an entry of the state is altered at random, on a tree that may be another than that of the state.
pub fn try_altered(t: Tree, s: State, d: &mut [usize; 16384]) {
    let part = PARTS[number_below(d, 4) % 4];
    let i = number_below(d, 32);
    let n = number_below(d, 10) % 256;
    try_calls(t, altered(s, part, i, n as u16), 3, d);
}

// The same on another tree that is in the rows, from the state as it is.
pub fn try_other(t: Tree, s: State, d: &mut [usize; 16384]) {
    try_calls(t, s, 4, d);
}

// Bursts about both limits of beats, each offered on a fresh state of both channels, on a tree that is put in the rows.
pub fn try_limits(t: Tree, d: &mut [usize; 16384]) {
    judge(t, d);
    for i in 0..12usize {
        let s = first_state(t, channel_of(i % 2));
        let c = Call {
            b: Burst {
                start: 0,
                beats: LIMITS[i / 2],
                size: 1,
            },
            a: 0,
            from: 0,
        };
        try_offer(t, s, c, d);
    }
}
