// The second machine and runner. Each accelerator has a queue of tickets; what waits under a port is counted by walking
// up from each accelerator that has a ticket in its queue, and the next port is sought one by one.
ghost use Rattle.std.specs.Prelude.{◌≡◌};
ghost use Rattle.second.specs.Machine.{queued_of, channel_of};

use crate::book::{acc_row, carried, cell, int_row, ints, is_broken, is_jobless};
use crate::home::{all_returning, forget_returns, outstanding, send_home, take_home};
use crate::requests::{LINES, LOG, acc_in, count_in, slot_in};
use crate::{Said, Wrong, answer};
use store::{add, clear, get, put};

// For each accelerator how many transactions were requested since the start,
const REQUESTED: usize = 2048;

// admitted,
pub(crate) const ADMITTED: usize = 2080;

// and served,
pub(crate) const SERVED: usize = 2112;

// and how many were admitted in this window.
pub(crate) const USED: usize = 2144;

// For each interconnect its last port,
pub(crate) const LAST: usize = 2176;

// and its allowance.
pub(crate) const ALLOWANCE: usize = 2192;

// The slot,
pub(crate) const SLOT: usize = 2208;

// the next line of the log,
const NEXT: usize = 2209;

// and the channel.
const CHANNEL: usize = 2210;

// The queues, sixteen places to each accelerator: a ring of tickets, each the number of its transaction,
pub(crate) const QUEUE: usize = 2560;

// and beside each ticket the slot of its admission.
const SINCE: usize = 1536;

// How a run ends: the number and line of a refusal, or 0; whether it is done; the slots used.
#[derive(Clone, Copy)]
pub struct Ended {
    pub number: usize,
    pub line: usize,
    pub done: bool,
    pub slots: usize,
}

// The channel that the state is of.
pub fn channel(d: &[usize; 16384]) -> usize
    ensures { result ≡ channel_of d.now }
{
    get(d, CHANNEL, 0)
}

pub fn set_channel(d: &mut [usize; 16384], channel: usize) {
    put(d, CHANNEL, 0, channel);
}

// Has accelerator a no transactions on the channel of the state?
pub(crate) fn is_idle(d: &[usize; 16384], a: usize, wrong: Wrong) -> bool {
    is_jobless(d, a, channel(d), wrong)
}

// How many tickets are in the queue of accelerator a.
pub(crate) fn queued(d: &[usize; 16384], a: usize) -> usize
    ensures { result ≡ queued_of d.now a }
{
    get(d, ADMITTED, a).wrapping_sub(get(d, SERVED, a))
}

fn held(d: &[usize; 16384], a: usize) -> usize {
    get(d, REQUESTED, a).wrapping_sub(get(d, ADMITTED, a))
}

pub(crate) fn place_in_queue(a: usize, ticket: usize) -> usize {
    (a % 32) * 16 + ticket % 16
}

// Puts the next ticket of accelerator a last in its queue.
pub(crate) fn push(d: &mut [usize; 16384], a: usize) {
    let ticket = get(d, ADMITTED, a);
    let now = get(d, SLOT, 0);
    put(d, QUEUE, place_in_queue(a, ticket), ticket);
    put(d, SINCE, place_in_queue(a, ticket), now);
    add(d, ADMITTED, a, 1);
    add(d, USED, a, 1);
}

// Takes the first ticket of the queue, to come home later. Is it the oldest that is not served?
fn pop(d: &mut [usize; 16384], a: usize, wrong: Wrong) -> bool {
    let oldest = get(d, SERVED, a);
    let ticket = get(d, QUEUE, place_in_queue(a, oldest));
    send_home(d, a, oldest, wrong);
    add(d, SERVED, a, 1);
    ticket == oldest
}

// The slot in which the transaction of accelerator a that was served last had been admitted.
pub(crate) fn since(d: &[usize; 16384], a: usize) -> usize {
    let ticket = get(d, SERVED, a).wrapping_sub(1);
    get(d, SINCE, place_in_queue(a, ticket))
}

// Does the way from accelerator a up to the root enter interconnect i by the port p?
pub(crate) fn passes(d: &[usize; 16384], a: usize, i: usize, p: usize) -> bool {
    let mut row = acc_row(d, a);
    for _ in 0..4usize {
        let above = cell(d, row, 1);
        if above == i {
            return cell(d, row, 2) == p;
        }
        if above == 0 {
            return false;
        }
        row = int_row(above);
    }
    false
}

// The sum of what each accelerator has; it goes round.
pub(crate) fn total<F: Fn(usize) -> usize>(of: F) -> usize
    requires { F.IsAlwaysCallable of }
{
    let mut sum = 0usize;
    for a in 0..32 {
        sum = sum.wrapping_add(of(a));
    }
    sum
}

// How many transactions of accelerator a wait under the port p of interconnect i.
fn waiting_under(d: &[usize; 16384], a: usize, i: usize, p: usize) -> usize {
    let n = queued(d, a);
    if (n != 0) && passes(d, a, i, p) { n } else { 0 }
}

// How many transactions wait under the port p of interconnect i.
pub(crate) fn waits(d: &[usize; 16384], i: usize, p: usize) -> usize {
    total(|a| waiting_under(d, a, i, p))
}

// The first port after `last`, going round, under which something waits; `last` itself comes last.
fn seek(d: &[usize; 16384], i: usize, last: usize) -> usize {
    (1..8)
        .map(|k| (last % 8 + k) % 8)
        .find(|p| waits(d, i, *p) != 0)
        .unwrap_or(last % 8)
}

// A new turn at interconnect i, on the port sought. A wrong rule has the circle begin at port 0, or the allowance g.
fn new_turn(d: &mut [usize; 16384], i: usize, wrong: Wrong) {
    let mut last = get(d, LAST, i);
    if wrong == Wrong::FromZero {
        last = 7;
    }
    let p = seek(d, i, last);
    let grain = cell(d, int_row(i), 3);
    let mut allowance = grain.min(waits(d, i, p));
    if wrong == Wrong::Growing {
        allowance = grain;
    }
    put(d, LAST, i, p);
    put(d, ALLOWANCE, i, allowance);
    let below = carried(d, i, p);
    if (wrong == Wrong::LowerReset) & (31 < below) {
        put(d, LAST, below % 16, 7);
        put(d, ALLOWANCE, below % 16, 0);
    }
}

// The port that interconnect i goes on with, one taken off its allowance.
fn turn(d: &mut [usize; 16384], i: usize, wrong: Wrong) -> usize {
    let mut over = get(d, ALLOWANCE, i) == 0;
    if wrong == Wrong::Growing {
        over = over | (waits(d, i, get(d, LAST, i)) == 0);
    }
    if over {
        new_turn(d, i, wrong);
    }
    let left = get(d, ALLOWANCE, i).wrapping_sub(1);
    put(d, ALLOWANCE, i, left);
    get(d, LAST, i)
}

// The accelerator that is served, from the root down.
fn choose(d: &mut [usize; 16384], wrong: Wrong) -> usize {
    let mut i = 0;
    for _ in 0..4usize {
        let p = turn(d, i, wrong);
        let below = carried(d, i, p);
        if below < 32 {
            return below;
        }
        i = below - 32;
    }
    255
}

fn all_queued(d: &[usize; 16384]) -> usize {
    total(|a| queued(d, a))
}

// What accelerator a holds that is left to do. A wrong rule leaves out what those without a job hold.
fn held_to_do(d: &[usize; 16384], a: usize, wrong: Wrong) -> usize {
    if (wrong == Wrong::DoneHolding) && is_idle(d, a, wrong) {
        return 0;
    }
    held(d, a)
}

fn all_held(d: &[usize; 16384], wrong: Wrong) -> usize {
    total(|a| held_to_do(d, a, wrong))
}

// Is a request held of an accelerator without a job on the channel? It stays held.
pub fn is_stuck(d: &[usize; 16384]) -> bool {
    all_held(d, Wrong::Nothing) != all_held(d, Wrong::DoneHolding)
}

// The lines whose slot has come are requested.
fn take_due(d: &mut [usize; 16384], lines: usize) {
    let now = get(d, SLOT, 0);
    for next in get(d, NEXT, 0)..lines {
        let x = get(d, LOG, next % 8192);
        if now < slot_in(x) {
            return;
        }
        add(d, REQUESTED, acc_in(x) % 32, count_in(x));
        put(d, NEXT, 0, next + 1);
    }
}

// Has accelerator a a transaction to offer, and room for it: fewer than phi are outstanding and its budget is not used?
fn may_offer(d: &[usize; 16384], a: usize, wrong: Wrong) -> bool {
    let row = acc_row(d, a);
    let room = (outstanding(d, a, wrong) < cell(d, row, 3)) & (get(d, USED, a) < cell(d, row, 4));
    room & (held(d, a) != 0)
}

// Accelerator a offers until it holds none, phi of it are outstanding or its budget is used; without a job, all stay held. A wrong rule
// does not ask for the job.
fn offer(d: &mut [usize; 16384], a: usize, wrong: Wrong) {
    if is_idle(d, a, wrong) & (wrong != Wrong::JoblessAdmitted) {
        return;
    }
    for _ in 0..16usize {
        if may_offer(d, a, wrong) {
            push(d, a);
        }
    }
}

fn offer_all(d: &mut [usize; 16384], wrong: Wrong) {
    for a in 0..32 {
        if held(d, a) != 0 {
            offer(d, a, wrong);
        }
    }
}

// The budgets begin anew. A wrong rule has every transaction come home.
fn reopen(d: &mut [usize; 16384], wrong: Wrong) {
    for a in 0..32 {
        put(d, USED, a, 0);
        if wrong == Wrong::HomeAtWindow {
            forget_returns(d, a);
        }
    }
}

// The slot count rises; those that are due then are home, and where that opens a window the budgets begin anew. A wrong rule keeps
// the budgets for the whole run.
pub(crate) fn advance(d: &mut [usize; 16384], wrong: Wrong) {
    add(d, SLOT, 0, 1);
    take_home(d);
    let window = cell(d, 0, 0);
    if window != 0 {
        if (get(d, SLOT, 0) % window == 0) & (wrong != Wrong::WholeRun) {
            reopen(d, wrong);
        }
    }
}

// One slot: what it serves, or 255.
pub(crate) fn one_slot(d: &mut [usize; 16384], wrong: Wrong) -> usize {
    if all_queued(d) == 0 {
        return 255;
    }
    let a = choose(d, wrong);
    if pop(d, a, wrong) { a } else { 254 }
}

// One slot of a run over the lines of the log, its offers first.
pub(crate) fn run_slot(d: &mut [usize; 16384], lines: usize, wrong: Wrong) -> usize {
    take_due(d, lines);
    offer_all(d, wrong);
    let a = one_slot(d, wrong);
    advance(d, wrong);
    a
}

// Is the run done? What returns is not asked, except by a wrong rule.
pub(crate) fn nothing_left(d: &[usize; 16384], lines: usize, wrong: Wrong) -> bool {
    if (wrong == Wrong::DoneAtHome) & (all_returning(d) != 0) {
        return false;
    }
    (lines <= get(d, NEXT, 0)) & (all_held(d, wrong) == 0) & (all_queued(d) == 0)
}

// Nothing is requested, admitted or served on this channel, and all else of the state is 0.
pub(crate) fn clear_state(d: &mut [usize; 16384], channel: usize) {
    clear(d, REQUESTED, 1024);
    set_channel(d, channel);
}

// The state of a channel in which the last port of each interconnect is 7, and all else is 0.
pub fn start(d: &mut [usize; 16384], channel: usize) {
    clear_state(d, channel);
    for i in 0..ints(d).min(15) {
        put(d, LAST, i, 7);
    }
}

pub fn run_end(done: bool, slots: usize) -> Ended {
    Ended {
        number: 0,
        line: 0,
        done: done,
        slots: slots,
    }
}

pub fn refused(number: usize, line: usize) -> Ended {
    Ended {
        number: number,
        line: line,
        done: false,
        slots: 0,
    }
}

// Runs the lines of the log on a channel of the tree in the rows, a slot to each place, which is given what `of` says of the accelerator
// served; how many are used.
pub(crate) fn run_over<T: Copy, F: Fn(&[usize; 16384], usize) -> T>(
    d: &mut [usize; 16384],
    channel: usize,
    places: &mut [T],
    wrong: Wrong,
    of: F,
) -> usize
    requires { F.IsAlwaysCallable of }
{
    let lines = get(d, LINES, 0);
    let n = places.len();
    start(d, channel);
    for (used, place) in places.iter_mut().enumerate() {
        if nothing_left(d, lines, wrong) {
            return used;
        }
        let a = run_slot(d, lines, wrong);
        *place = of(d, a);
    }
    n
}

fn run_log(d: &mut [usize; 16384], channel: usize, out: &mut [u8], wrong: Wrong) -> Ended {
    let used = run_over(d, channel, out, wrong, |_, a| (a % 256) as u8);
    run_end(nothing_left(d, get(d, LINES, 0), wrong), used)
}

// The refusal of a run over n bytes: 11, the buffer's size, the trace; or 0. A wrong rule tests the size first, or the trace
// before the size.
pub fn run_refusal(trace: Said, d: &[usize; 16384], n: usize, wrong: Wrong) -> Said {
    let large = 65536 < n;
    if large & (wrong == Wrong::SizeFirst) {
        return answer(2, 0);
    }
    if is_broken(d) {
        return answer(11, 0);
    }
    if large & ((trace.number == 0) | (wrong != Wrong::TraceFirst)) {
        return answer(2, 0);
    }
    trace
}

// Runs the trace that the log has on a channel, unless it is refused.
pub fn run_trace(
    trace: Said,
    d: &mut [usize; 16384],
    channel: usize,
    out: &mut [u8],
    wrong: Wrong,
) -> Ended {
    let r = run_refusal(trace, d, out.len(), wrong);
    if r.number != 0 {
        return refused(r.number, r.line);
    }
    run_log(d, channel, out, wrong)
}
