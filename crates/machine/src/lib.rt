// The machine of document 01 for one channel, reads or writes: the fresh state, the offer of one transaction, and one slot of service.
// Each call takes the configuration and a state by value and returns its answer with the next state, which is of the same channel; a
// refusal returns the state it was handed.
#![tactic(auto)]

ghost use Rattle.std.specs.Prelude.{◌≡◌, true, map, ◌<◌, ◌≤◌};
ghost use Rattle.model.specs.Tree.{delay_of, waiting_of, returns_of, admitted_of};
ghost use Rattle.model.specs.Builders.{zero_state};
ghost use Rattle.rules.specs.Rules.{keeps};
ghost use Rattle.machine.specs.Machine.{admitted, fresh_state, freshened, admit, limits_answer, offered, none_waits, older, tick, take_one, last_slot, slotted_within, slotted};
ghost use Rattle.machine.specs.Answers.{offer_means, fresh_outcome, offer_outcome, slot_outcome};

use model::access::{accelerator_at, admitted_of, job_of, outstanding_of, waiting_of};
use model::{Channel, Port, Refusal, State, Tree};
use rules::{both_keep, tree_keeps};
use turns::choose;

// A call's answer, or why the call is refused, with the next state.
#[derive(Clone, Copy)]
pub struct Reply<A> {
    pub answer: Result<A, Refusal>,
    pub state: State,
}

// The state of a channel with nothing in it.
pub fn zero_state(channel: Channel) -> State
    ensures { result ≡ zero_state channel }
{
    State {
        waiting: [0u8; 32],
        returning: [0u32; 32],
        admitted: [0u16; 32],
        last: [0u8; 15],
        allowance: [0u8; 15],
        slot: 0,
        channel: channel,
    }
}

fn fresh_state(t: Tree, channel: Channel) -> State
    requires { t.ints ≤ 15 }
    ensures { result ≡ fresh_state t channel }
{
    let mut last = [0u8; 15];
    last[..t.ints as usize].fill(7);
    let mut state = zero_state(channel);
    state.last = last;
    state
}

// The starting state of a channel, of a configuration that keeps its rules; else refusal 11, with a state of zeros.
pub fn fresh(t: Tree, channel: Channel) -> Reply<()>
    ensures { fresh_outcome result ≡ freshened t channel }
{
    if !tree_keeps(t) {
        let why = Refusal::Rules;
        return Reply {
            answer: Err(why),
            state: zero_state(channel),
        };
    }
    Reply {
        answer: Ok(()),
        state: fresh_state(t, channel),
    }
}

// One more transaction of accelerator a waits and counts against its budget.
fn admitting(s: State, a: u8) -> State
    requires { (waiting_of s a < 255) × (admitted_of s a < 65535) }
    ensures { result ≡ admit s a }
{
    let i = a as usize;
    let mut next = s;
    if i < 32 {
        next.waiting[i] = s.waiting[i] + 1;
        next.admitted[i] = s.admitted[i] + 1;
    }
    next
}

// What an offer answers by the limits of its accelerator: as many as may be are outstanding, or the budget is used, or neither.
pub fn limits_answer(
    limit: u32,
    outstanding: u32,
    budget: u32,
    admitted: u32,
) -> Result<(), Refusal>
    ensures { offer_means result ≡ limits_answer limit outstanding budget admitted }
{
    if limit <= outstanding {
        return Err(Refusal::Outstanding);
    }
    if budget <= admitted {
        return Err(Refusal::Budget);
    }
    Ok(())
}

// What the offer of one transaction of accelerator a answers: admitted, or why it is refused. Where it is admitted, its counts have
// room for one more.
fn offer_answer(t: Tree, s: State, a: u8) -> Result<(), Refusal>
    ensures answer { offer_means result ≡ (offered t s a).answer }
    ensures room { offer_means result ≡ admitted → (waiting_of s a < 255) × (admitted_of s a < 65535) }
{
    if !both_keep(t, s) {
        return Err(Refusal::Rules);
    }
    if t.accs <= a {
        return Err(Refusal::Unknown);
    }
    let channel = s.channel;
    if job_of(t, channel, a) == 0 {
        return Err(Refusal::NoJob);
    }
    let x = accelerator_at(t, a);
    limits_answer(
        x.phi as u32,
        outstanding_of(s, a),
        x.budget as u32,
        admitted_of(s, a) as u32,
    )
}

// The offer of one transaction of accelerator a.
pub fn offer(t: Tree, s: State, a: u8) -> Reply<()>
    ensures { offer_outcome result ≡ offered t s a }
{
    let answer = offer_answer(t, s, a);
    let state = match answer {
        Ok(()) => admitting(s, a),
        Err(_) => s,
    };
    Reply {
        answer: answer,
        state: state,
    }
}

fn none_waits(s: State) -> bool
    ensures { result ≡ none_waits s }
{
    let mut ok = true;
    for a in 0..32 {
        ok &= waiting_of(s, a) == 0;
    }
    ok
}

// The returns one slot later: what then was served more than `delay` slots ago is home.
fn one_older(delay: u8, returns: u32) -> u32
    requires { delay ≤ 15 }
    ensures { result ≡ older delay returns }
{
    ((returns as u64 * 2) % (2 << delay)) as u32
}

// Those of every accelerator.
fn all_older(delay: u8, returning: [u32; 32]) -> [u32; 32]
    requires { delay ≤ 15 }
    ensures { result ≡ map (older delay) returning }
{
    // A `for` in place of the array's `map`, with which the proof did not close.
    let mut r = returning;
    for x in r.iter_mut() {
        *x = one_older(delay, *x);
    }
    r
}

// The slot count rises by one, those whose delay has passed come home, and where that opens a new window the admitted counts
// return to 0. No window opens where a configuration that breaks its rules has a window of 0.
fn ticked(t: Tree, s: State) -> State
    requires { (s.slot < last_slot) × (delay_of t ≤ 15) }
    ensures { result ≡ tick t s }
{
    let mut next = s;
    let returning = s.returning;
    let older = all_older(t.bus.delay, returning);
    next.returning = older;
    let window = t.bus.window as u32;
    let slot = s.slot;
    next.slot = slot + 1;
    if window == 0 {
        return next;
    }
    if (slot + 1) / window != slot / window {
        next.admitted = [0u16; 32];
    }
    next
}

// One transaction of accelerator a is served: it waits no longer, and returns.
fn take_one(s: State, a: u8) -> State
    requires { returns_of s a < 4294967295 }
    ensures { result ≡ take_one s a }
{
    let i = a as usize;
    let mut next = s;
    if i < 32 {
        next.waiting[i] = s.waiting[i].saturating_sub(1);
        next.returning[i] = s.returning[i] + 1;
    }
    next
}

// One slot, for a caller that has checked configuration and state.
fn slot_within(t: Tree, s: State) -> Reply<Option<u8>>
    requires { keeps t s ≡ true }
    ensures { slot_outcome result ≡ slotted_within t s }
{
    if s.slot == 4294967295 {
        return Reply {
            answer: Err(Refusal::LastSlot),
            state: s,
        };
    }
    if none_waits(s) {
        return Reply {
            answer: Ok(None),
            state: ticked(t, s),
        };
    }
    let c = choose(t, s, 4, Port::Int(0));
    let a = c.served;
    let turned = c.state;
    Reply {
        answer: Ok(Some(a)),
        state: ticked(t, take_one(turned, a)),
    }
}

// One slot: serves the transaction whose turn it is and answers its accelerator, or is idle and answers None if none waits.
pub fn slot(t: Tree, s: State) -> Reply<Option<u8>>
    ensures { slot_outcome result ≡ slotted t s }
{
    if !both_keep(t, s) {
        return Reply {
            answer: Err(Refusal::Rules),
            state: s,
        };
    }
    slot_within(t, s)
}
