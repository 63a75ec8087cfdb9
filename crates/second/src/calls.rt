// The calls of the second machine one by one: an offer, a slot, and the rules of a state that come before both. A state may
// be altered, so that some break a rule.
ghost use Rattle.std.specs.Prelude.{◌≡◌};
ghost use Rattle.second.specs.Machine.{queued_of, used_of, last_port_of, left_of, slot_of};

use crate::Wrong;
use crate::book::{acc_row, accs, cell, int_row, ints, is_broken};
use crate::home::{outstanding, returning, returns_keep};
use crate::queues::{
    ADMITTED, ALLOWANCE, LAST, QUEUE, SERVED, SLOT, USED, advance, clear_state, is_idle, one_slot,
    place_in_queue, push, queued, set_channel, start, waits,
};
use store::{get, put};

// The parts of a state that are altered.
#[derive(Clone, Copy, PartialEq, Eq)]
pub enum Part {
    // For each accelerator what waits,
    Waiting,
    // and what is used of its budget;
    Used,
    // for each interconnect its last port,
    LastPort,
    // and its allowance;
    Allowance,
    // and the channel.
    Channel,
}

pub const PARTS: [Part; 5] = [
    Part::Waiting,
    Part::Used,
    Part::LastPort,
    Part::Allowance,
    Part::Channel,
];

// The slot count of the last slot there is.
const LAST_SLOT: usize = 4294967295;

pub fn slot_count(d: &[usize; 16384]) -> usize
    ensures { result ≡ slot_of d.now }
{
    get(d, SLOT, 0)
}

pub fn set_slot_count(d: &mut [usize; 16384], n: usize) {
    put(d, SLOT, 0, n);
}

// What waits for accelerator a,
pub fn waiting(d: &[usize; 16384], a: usize) -> usize
    ensures { result ≡ queued_of d.now a }
{
    queued(d, a)
}

// what it has used of its budget,
pub fn used(d: &[usize; 16384], a: usize) -> usize
    ensures { result ≡ used_of d.now a }
{
    get(d, USED, a)
}

// the last port of interconnect i,
pub fn last_port(d: &[usize; 16384], i: usize) -> usize
    ensures { result ≡ last_port_of d.now i }
{
    get(d, LAST, i)
}

// and its allowance.
pub fn left(d: &[usize; 16384], i: usize) -> usize
    ensures { result ≡ left_of d.now i }
{
    get(d, ALLOWANCE, i)
}

// Lets n transactions wait for accelerator a: the tickets after the last one served.
fn queue_up(d: &mut [usize; 16384], a: usize, n: usize) {
    let first = get(d, SERVED, a);
    for k in 0..16usize {
        let ticket = first.wrapping_add(k);
        put(d, QUEUE, place_in_queue(a, ticket), ticket);
    }
    put(d, ADMITTED, a, first.wrapping_add(n));
}

// Sets entry i of a part of the state to n; the channel is one entry.
pub fn alter(d: &mut [usize; 16384], part: Part, i: usize, n: usize) {
    match part {
        Part::Waiting => queue_up(d, i % 32, n),
        Part::Used => put(d, USED, i % 32, n),
        Part::LastPort => put(d, LAST, i % 15, n),
        Part::Allowance => put(d, ALLOWANCE, i % 15, n),
        Part::Channel => set_channel(d, n),
    }
}

// Has accelerator a nothing outstanding, if it has no job on the channel of the state? A wrong rule asks only what returns.
fn rests(d: &[usize; 16384], a: usize, wrong: Wrong) -> bool {
    if !is_idle(d, a, wrong) {
        return true;
    }
    (returning(d, a) == 0) & ((queued(d, a) == 0) | (wrong == Wrong::JoblessKept))
}

// Does accelerator a keep to its limits? One that the tree does not have has nothing.
fn acc_keeps(d: &[usize; 16384], a: usize, wrong: Wrong) -> bool {
    let spent = used(d, a);
    let all = outstanding(d, a, Wrong::Nothing);
    if accs(d) <= a {
        return (all == 0) & (spent == 0);
    }
    let row = acc_row(d, a);
    let within = (all <= cell(d, row, 3)) & (spent <= cell(d, row, 4));
    within & rests(d, a, wrong) & returns_keep(d, a, wrong)
}

// Is the turn of interconnect i one that it can have?
fn turn_keeps(d: &[usize; 16384], i: usize) -> bool {
    let last = last_port(d, i);
    let allowance = left(d, i);
    if ints(d) <= i {
        return (last == 0) & (allowance == 0);
    }
    let most = cell(d, int_row(i), 3).min(waits(d, i, last));
    (last < 8) & (allowance <= most)
}

fn state_keeps(d: &[usize; 16384], wrong: Wrong) -> bool {
    (0..32).all(|a| acc_keeps(d, a, wrong)) && (0..15).all(|i| turn_keeps(d, i))
}

// Is the configuration, or the state, against its rules? A wrong rule keeps a state with a return due now, or one in which transactions of
// an accelerator without a job wait.
pub fn rules_broken(d: &[usize; 16384], wrong: Wrong) -> bool {
    if is_broken(d) {
        return true;
    }
    !state_keeps(d, wrong)
}

// The start on a channel: 0, or 11 and the state of it is all 0.
pub fn start_one(d: &mut [usize; 16384], channel: usize) -> usize {
    if is_broken(d) {
        clear_state(d, channel);
        return 11;
    }
    start(d, channel);
    0
}

// What an offer of an accelerator that has a job answers on a state that keeps its rules. A wrong rule tests 9 before 8.
fn limits_answer(d: &[usize; 16384], a: usize, wrong: Wrong) -> usize {
    let row = acc_row(d, a);
    let full = cell(d, row, 3) <= outstanding(d, a, wrong);
    let spent = cell(d, row, 4) <= get(d, USED, a);
    if spent & ((wrong == Wrong::BudgetFirst) | !full) {
        return 9;
    }
    if full { 8 } else { 0 }
}

// What an offer of a known accelerator answers on such a state. A wrong rule tests 14 after 8.
fn known_answer(d: &[usize; 16384], a: usize, wrong: Wrong) -> usize {
    if !is_idle(d, a, wrong) {
        return limits_answer(d, a, wrong);
    }
    if wrong == Wrong::JobLast { 8 } else { 14 }
}

// What an offer of accelerator a answers: 0 if it is admitted, or a number. A wrong rule tests 7 before 11, or 14 before 7.
pub fn offer_answer(d: &[usize; 16384], a: usize, wrong: Wrong) -> usize {
    let unknown = accs(d) <= a;
    if unknown & (wrong == Wrong::UnknownFirst) {
        return 7;
    }
    if rules_broken(d, wrong) {
        return 11;
    }
    if unknown & (wrong == Wrong::JobFirst) {
        return 14;
    }
    if unknown {
        return 7;
    }
    known_answer(d, a, wrong)
}

// The offer of one transaction.
pub fn offer_one(d: &mut [usize; 16384], a: usize, wrong: Wrong) -> usize {
    let answer = offer_answer(d, a, wrong);
    if answer == 0 {
        push(d, a);
    }
    answer
}

// The refusal of a slot, or 0. A wrong rule tests 10 before 11.
pub fn slot_refusal(d: &[usize; 16384], wrong: Wrong) -> usize {
    let late = get(d, SLOT, 0) == LAST_SLOT;
    if late & (wrong == Wrong::LastFirst) {
        return 10;
    }
    if rules_broken(d, wrong) {
        return 11;
    }
    if late { 10 } else { 0 }
}

// One slot: the accelerator served, or 255; 256 and its number more on a refusal.
pub fn slot_one(d: &mut [usize; 16384], wrong: Wrong) -> usize {
    let refusal = slot_refusal(d, wrong);
    if refusal != 0 {
        return refusal.wrapping_add(256);
    }
    let a = one_slot(d, wrong);
    advance(d, wrong);
    a
}
