// The library's start, offers and slots, one by one, beside those of the second machine, on states that calls lead to, on altered
// ones, and on another configuration, which may break its rules.
//
// Test code: it is proved that each function is safe and ends, and of the comparison which number of the store it compares with
// which entry of the state.
#![tactic(auto)]

pub mod returns;
pub mod states;

ghost use Rattle.std.specs.Prelude.{◌≡◌};
ghost use Rattle.folds.specs.Fold.{all};
ghost use Rattle.callcheck.specs.Same.{same_record, same_turn, same_channel, same_state};

use crate::returns::{altered_bits, give_all, same_returns};
use crate::states::{
    alter_both, at_slot, of_other_channel, some_accelerator, some_jobless, some_way, with_jobless,
    with_returns,
};
use generator::number_below;
use machine::{fresh, offer, slot};
use model::access::{accelerator_at, admitted_of, allowance_of, last_of, returns_of, waiting_of};
use model::{Channel, Refusal, State, Tree, number};
use second::Wrong;
use second::book::{READ, WRITE, other};
use second::calls::{
    PARTS, Part, last_port, left, offer_answer, offer_one, rules_broken, slot_count, slot_one,
    slot_refusal, start_one, used, waiting,
};
use second::queues::channel;
use store::{DIFFERENCES, WRONG, add, note};

// Offers by the number of their answer.
pub const OFFERS: usize = 3200;

// Slots: 0 served, 1 idle, else by the number of their refusal.
pub const SLOTS: usize = 3216;

// Starts, by the number of their answer.
pub const STARTS: usize = 3232;

// Offers refused by 8 of accelerators of which fewer than phi wait.
pub const HELD_BACK: usize = 3344;

// States altered in one of the ways of `returns`, by way: those that break their rules,
pub const BROKEN: usize = 3352;

// and those that keep them.
pub const KEPT: usize = 3360;

// States whose channel is altered: those that break their rules, and those that keep them.
pub const CHANGED: usize = 3424;

// States in which an accelerator without a job on the channel has something, by the ways of `states`: those that break their rules,
pub const JOBLESS_BROKEN: usize = 3428;

// and those that keep them.
pub const JOBLESS_AS_KEPT: usize = 3432;

// Starts on the write channel.
pub const WRITE_STARTS: usize = 3436;

// The slot count at which no slot is left.
const LAST_SLOT: u32 = 4294967295;

fn same_record(s: State, a: u8, delay: u8, d: &[usize; 16384]) -> bool
    ensures { result ≡ same_record s a delay d.now }
{
    let i = a as usize;
    (waiting_of(s, a) as usize == waiting(d, i))
        & (admitted_of(s, a) as usize == used(d, i))
        & same_returns(s, a, delay, d)
}

fn same_turn(s: State, j: u8, d: &[usize; 16384]) -> bool
    ensures { result ≡ same_turn s j d.now }
{
    let i = j as usize;
    (last_of(s, j) as usize == last_port(d, i)) & (allowance_of(s, j) as usize == left(d, i))
}

fn same_records(s: State, delay: u8, d: &[usize; 16384]) -> bool
    ensures { result ≡ all 32 (λ a. same_record s a delay d.now) }
{
    let mut same = true;
    for a in 0..32 {
        same &= same_record(s, a, delay, d);
    }
    same
}

fn same_turns(s: State, d: &[usize; 16384]) -> bool
    ensures { result ≡ all 15 (λ j. same_turn s j d.now) }
{
    let mut same = true;
    for j in 0..15 {
        same &= same_turn(s, j, d);
    }
    same
}

fn same_channel(c: Channel, d: &[usize; 16384]) -> bool
    ensures { result ≡ same_channel c d.now }
{
    match c {
        Channel::Read => channel(d) == READ,
        Channel::Write => channel(d) == WRITE,
    }
}

// Is each entry of the library's state, on a tree with this return delay, what the store has?
pub fn same_state(s: State, delay: u8, d: &[usize; 16384]) -> bool
    ensures { result ≡ same_state s delay d.now }
{
    let c = s.channel;
    (s.slot as usize == slot_count(d))
        & same_records(s, delay, d)
        & same_turns(s, d)
        & same_channel(c, d)
}

// The library's channel of a number.
pub fn channel_of(n: usize) -> Channel {
    if n == READ {
        return Channel::Read;
    }
    Channel::Write
}

fn offer_number(answer: Result<(), Refusal>) -> usize {
    match answer {
        Ok(()) => 0,
        Err(r) => number(r) as usize,
    }
}

// As the second machine says it: the accelerator, 255, or 256 and the number of a refusal more.
fn slot_code(answer: Result<Option<u8>, Refusal>) -> usize {
    match answer {
        Ok(None) => 255,
        Ok(Some(a)) => a as usize,
        Err(r) => 256 + number(r) as usize,
    }
}

// Slots by what they did: 0 served, 1 idle, else the number of a refusal.
fn slot_kind(code: usize) -> usize {
    if code < 255 {
        return 0;
    }
    if code == 255 { 1 } else { code - 256 }
}

// On an offer that answers this, is a wrong rule seen?
fn note_offer(a: usize, answer: usize, wrong: Wrong, d: &mut [usize; 16384]) {
    let wrongly = offer_answer(d, a, wrong);
    note(d, WRONG, wrong as usize, answer == wrongly);
}

// On an offer that answers this, is one of the wrong rules on jobs seen? Each is asked where it could answer something else.
fn note_jobs(a: usize, answer: usize, d: &mut [usize; 16384]) {
    if answer == 7 {
        note_offer(a, answer, Wrong::JobFirst, d);
    }
    if answer == 11 {
        note_offer(a, answer, Wrong::JoblessKept, d);
    }
    if answer == 14 {
        note_offer(a, answer, Wrong::JobLast, d);
        note_offer(a, answer, Wrong::OtherChannel, d);
    }
}

// An offer of accelerator a that is refused by 8: do fewer than phi wait?
fn note_held_back(t: Tree, s: State, a: u8, d: &mut [usize; 16384]) {
    let x = accelerator_at(t, a);
    note(d, HELD_BACK, 0, x.phi <= waiting_of(s, a));
}

fn try_offer(t: Tree, s: State, a: u8, d: &mut [usize; 16384]) -> State {
    let r = offer(t, s, a);
    let said = r.answer;
    let answer = offer_number(said);
    note_offer(a as usize, answer, Wrong::BudgetFirst, d);
    note_offer(a as usize, answer, Wrong::UnknownFirst, d);
    note_offer(a as usize, answer, Wrong::DueNow, d);
    note_jobs(a as usize, answer, d);
    let ours = offer_one(d, a as usize, Wrong::Nothing);
    let next = r.state;
    let same = same_state(next, t.bus.delay, d);
    note(d, DIFFERENCES, 0, (answer == ours) & same);
    add(d, OFFERS, ours, 1);
    if ours == 8 {
        note_held_back(t, s, a, d);
    }
    next
}

// The number of a refused slot, else 0.
fn slot_number(code: usize) -> usize {
    if code < 256 { 0 } else { code - 256 }
}

// On a slot that answers this, is a wrong rule seen?
fn note_slot(code: usize, wrong: Wrong, d: &mut [usize; 16384]) {
    let wrongly = slot_refusal(d, wrong);
    note(d, WRONG, wrong as usize, slot_number(code) == wrongly);
}

fn try_slot(t: Tree, s: State, d: &mut [usize; 16384]) -> State {
    let r = slot(t, s);
    let said = r.answer;
    let code = slot_code(said);
    note_slot(code, Wrong::LastFirst, d);
    note_slot(code, Wrong::DueNow, d);
    if slot_number(code) == 11 {
        note_slot(code, Wrong::JoblessKept, d);
    }
    let ours = slot_one(d, Wrong::Nothing);
    let next = r.state;
    let same = same_state(next, t.bus.delay, d);
    note(d, DIFFERENCES, 0, (code == ours) & same);
    add(d, SLOTS, slot_kind(ours), 1);
    next
}

// n calls, one in four of them a slot; the accelerators offer at random, some past the last one.
fn try_calls(t: Tree, s: State, n: usize, d: &mut [usize; 16384]) -> State {
    let mut state = s;
    for _ in 0..n {
        let a = number_below(d, t.accs as usize + 2);
        if number_below(d, 4) == 0 {
            state = try_slot(t, state, d);
        } else {
            state = try_offer(t, state, (a % 256) as u8, d);
        }
    }
    state
}

// A slot where none is left, then calls at slot 0.
fn try_late_and_early(t: Tree, s: State, n: usize, d: &mut [usize; 16384]) {
    let late = try_slot(t, at_slot(t, s, LAST_SLOT, d), d);
    try_calls(t, at_slot(t, late, 0, d), n, d);
}

// Calls where the state is that of the other channel.
fn try_changed(t: Tree, s: State, d: &mut [usize; 16384]) {
    let next = of_other_channel(s, d);
    let keeps = !rules_broken(d, Wrong::Nothing);
    add(d, CHANGED, keeps as usize, 1);
    try_late_and_early(t, next, 8, d);
}

// Calls where one entry is altered at random.
fn try_altered(t: Tree, s: State, d: &mut [usize; 16384]) {
    let part = PARTS[number_below(d, 5) % 5];
    if part == Part::Channel {
        try_changed(t, s, d);
        return;
    }
    let i = number_below(d, 32);
    let n = (number_below(d, 10) % 256) as u16;
    try_late_and_early(t, alter_both(s, part, i, n, d), 8, d);
}

// Calls where the returns of an accelerator are altered.
fn try_returns(t: Tree, s: State, d: &mut [usize; 16384]) {
    let way = some_way(t, d);
    let a = some_accelerator(t, way, d);
    let x = altered_bits(returns_of(s, a), way, t.bus.delay as usize, d);
    let next = with_returns(t, s, a, x, d);
    if rules_broken(d, Wrong::Nothing) {
        add(d, BROKEN, way, 1);
    } else {
        add(d, KEPT, way, 1);
    }
    try_late_and_early(t, next, 8, d);
}

// Calls where an accelerator without a job on the channel has something, an offer of it first.
fn try_jobless(t: Tree, s: State, d: &mut [usize; 16384]) {
    let a = some_jobless(t, d);
    if a == 32 {
        return;
    }
    let way = number_below(d, 4);
    let next = with_jobless(t, s, a, way, d);
    if rules_broken(d, Wrong::Nothing) {
        add(d, JOBLESS_BROKEN, way, 1);
    } else {
        add(d, JOBLESS_AS_KEPT, way, 1);
    }
    let after = try_offer(t, next, a, d);
    try_late_and_early(t, after, 4, d);
}

// Slots where the slot count is at its end, or one or two before it, and then calls in the last slot: what is due later stays.
fn try_last_slots(t: Tree, s: State, d: &mut [usize; 16384]) -> State {
    let n = 4294967293 + (number_below(d, 3) % 3) as u32;
    let mut next = at_slot(t, s, n, d);
    for _ in 0..3usize {
        next = try_slot(t, next, d);
    }
    try_calls(t, next, 6, d)
}

// The start on a channel, in both, compared.
fn try_start(t: Tree, channel: usize, d: &mut [usize; 16384]) -> State {
    let r = fresh(t, channel_of(channel));
    let answer = offer_number(r.answer);
    let state = r.state;
    let ours = start_one(d, channel);
    let same = same_state(state, t.bus.delay, d);
    note(d, DIFFERENCES, 0, (answer == ours) & same);
    add(d, STARTS, ours, 1);
    if channel == WRITE {
        add(d, WRITE_STARTS, 0, 1);
    }
    state
}

// Each call from the fresh state on: those of one channel, and fewer of the other.
pub fn try_machine(t: Tree, d: &mut [usize; 16384]) {
    let channel = number_below(d, 2);
    let state = try_start(t, channel, d);
    let busy = try_calls(t, state, 60, d);
    let late = try_last_slots(t, busy, d);
    try_altered(t, at_slot(t, late, 0, d), d);
    let start = try_start(t, other(channel), d);
    let again = try_calls(t, start, 16, d);
    try_returns(t, again, d);
    let more = busy_state(t, d);
    try_jobless(t, more, d);
}

// A state of a channel that some calls lead to.
pub fn busy_state(t: Tree, d: &mut [usize; 16384]) -> State {
    let channel = number_below(d, 2);
    let state = try_start(t, channel, d);
    try_calls(t, state, 6, d)
}

// Calls on a configuration, from a state that may belong to another, with another return delay: an offer of an accelerator that no
// tree has among them.
pub fn try_other(t: Tree, s: State, d: &mut [usize; 16384]) {
    give_all(s, t.bus.delay, d);
    let next = try_offer(t, s, 32, d);
    try_late_and_early(t, next, 4, d);
    let channel = number_below(d, 2);
    try_start(t, channel, d);
}
