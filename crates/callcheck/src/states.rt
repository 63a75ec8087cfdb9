// States altered in some part, in both machines alike.
use crate::channel_of;
use crate::returns::{UNUSED, WAYS, give_all};
use generator::number_below;
use model::access::accelerator_at;
use model::{Channel, State, Tree};
use second::Wrong;
use second::book::{is_jobless, other};
use second::calls::{Part, alter, set_slot_count};
use second::queues::channel;

// The ways in which the record of an accelerator without a job is altered: one of its transactions waits,
pub const ONE_WAITS: usize = 0;
// or is returning;
pub const ONE_RETURNS: usize = 1;
// its budget is used,
pub const BUDGET_USED: usize = 2;
// or one more.
pub const BUDGET_PASSED: usize = 3;

// The state as one of this channel.
fn on_channel(s: State, c: Channel) -> State {
    let waiting = s.waiting;
    let returning = s.returning;
    let admitted = s.admitted;
    let last = s.last;
    let allowance = s.allowance;
    State {
        waiting: waiting,
        returning: returning,
        admitted: admitted,
        last: last,
        allowance: allowance,
        slot: s.slot,
        channel: c,
    }
}

// The state as one of the other channel, in both machines.
pub(crate) fn of_other_channel(s: State, d: &mut [usize; 16384]) -> State {
    let to = other(channel(d));
    alter(d, Part::Channel, 0, to);
    on_channel(s, channel_of(to))
}

// The state with n in entry i of a part; the channel stays.
pub fn altered(s: State, part: Part, i: usize, n: u16) -> State {
    let mut next = s;
    let small = (n % 256) as u8;
    match part {
        Part::Waiting => next.waiting[i % 32] = small,
        Part::Used => next.admitted[i % 32] = n,
        Part::LastPort => next.last[i % 15] = small,
        Part::Allowance => next.allowance[i % 15] = small,
        Part::Channel => {}
    }
    next
}

// The state with n in entry i of a part, in both machines.
pub(crate) fn alter_both(s: State, part: Part, i: usize, n: u16, d: &mut [usize; 16384]) -> State {
    alter(d, part, i, n as usize);
    altered(s, part, i, n)
}

// The state at slot n; what returns is due as many slots ahead as before.
pub(crate) fn at_slot(t: Tree, s: State, n: u32, d: &mut [usize; 16384]) -> State {
    set_slot_count(d, n as usize);
    let mut next = s;
    next.slot = n;
    give_all(next, t.bus.delay, d);
    next
}

// An accelerator of the tree, or, in the last of the ways, one that it has not.
pub(crate) fn some_accelerator(t: Tree, way: usize, d: &mut [usize; 16384]) -> u8 {
    let accs = t.accs as usize;
    if way != UNUSED {
        return (number_below(d, accs) % 32) as u8;
    }
    if 32 <= accs {
        return 31;
    }
    ((accs + number_below(d, 32 - accs) % 32) % 32) as u8
}

// The state with x as the returns of accelerator a.
pub(crate) fn with_returns(t: Tree, s: State, a: u8, x: u32, d: &mut [usize; 16384]) -> State {
    let mut next = s;
    next.returning[(a % 32) as usize] = x;
    give_all(next, t.bus.delay, d);
    next
}

// One of the ways; not the last one where the tree has all accelerators.
pub(crate) fn some_way(t: Tree, d: &mut [usize; 16384]) -> usize {
    if 32 <= t.accs {
        return number_below(d, UNUSED);
    }
    number_below(d, WAYS)
}

// An accelerator of the tree without a job on the channel of the state: the first from one at random on, going round; 32 if there is none.
pub(crate) fn some_jobless(t: Tree, d: &mut [usize; 16384]) -> u8 {
    let first = number_below(d, 32) % 32;
    for i in 0..32usize {
        let a = ((first + i) % 32) as u8;
        if (a < t.accs) & is_jobless(d, a as usize, channel(d), Wrong::Nothing) {
            return a;
        }
    }
    32
}

// The state in which such an accelerator a has something.
pub(crate) fn with_jobless(t: Tree, s: State, a: u8, way: usize, d: &mut [usize; 16384]) -> State {
    let i = a as usize;
    if way == ONE_WAITS {
        return alter_both(s, Part::Waiting, i, 1, d);
    }
    if way == ONE_RETURNS {
        return with_returns(t, s, a, 2, d);
    }
    let x = accelerator_at(t, a);
    let mut n = x.budget % 1025;
    if way == BUDGET_PASSED {
        n += 1;
    }
    alter_both(s, Part::Used, i, n, d)
}
