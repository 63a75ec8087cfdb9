// The check of a configuration and of a state: each clause of the rules is a function that answers on any value
// whatever.
#![tactic(auto)]

ghost use Rattle.std.specs.Prelude.{◌≡◌, ◌-◌};
ghost use Rattle.std.specs.List.{list_all, range_with_len};
ghost use Rattle.folds.specs.Fold.{all, within};
ghost use Rattle.model.specs.Tree.{beat_limit, port_of};
ghost use Rattle.rules.specs.Rules.{bus_keeps, is_empty, carries, root_placed, child_placed, is_placed, used_interconnect, unused_interconnect, interconnect_keeps, used_accelerator, unused_accelerator, accelerator_keeps, tree_keeps, on_the_way, record_keeps, turn_keeps, state_keeps, keeps};

use model::access::{
    accelerator_at, admitted_of, allowance_of, beat_limit, interconnect_at, last_of, level_of,
    limit_of, outstanding_of, port_at, returns_of, waiting_of, waits_under,
};
use model::{Bus, Port, State, Tree};

fn in_limits(low: u64, x: u64, high: u64) -> bool
    ensures { result ≡ within low x high }
{
    (low <= x) & (x <= high)
}

// The burst length has as many beats as a burst may have.
fn burst_keeps(b: Bus) -> bool
    ensures { result ≡ within 1 b.burst (beat_limit b) }
{
    let most = beat_limit(b);
    in_limits(1, b.burst as u64, most as u64)
}

fn bus_keeps(b: Bus) -> bool
    ensures { result ≡ bus_keeps b }
{
    in_limits(1, b.window as u64, 65535)
        & in_limits(1, b.ta as u64, 255)
        & in_limits(0, b.da as u64, 255)
        & in_limits(0, b.dd as u64, 255)
        & in_limits(0, b.db as u64, 255)
        & in_limits(0, b.pr as u64, 4095)
        & in_limits(0, b.pw as u64, 4095)
        & in_limits(1, b.td as u64, 255)
        & in_limits(1, b.tb as u64, 255)
        & burst_keeps(b)
        & (b.delay <= 15)
}

fn port_carries(t: Tree, j: u8, p: u8, x: Port) -> bool
    ensures { result ≡ carries t j p x }
{
    match x {
        Port::Empty => true,
        Port::Acc(a) => {
            let y = accelerator_at(t, a);
            (a < t.accs) & (y.interconnect == j) & (y.port == p)
        }
        Port::Int(k) => {
            let y = interconnect_at(t, k);
            (0 < k) & (k < t.ints) & (y.parent == j) & (y.port == p)
        }
    }
}

fn ports_carry(t: Tree, j: u8) -> bool
    ensures { result ≡ list_all (λ p. carries t j p (port_of t j p)) (range_with_len 0 8) }
{
    (0..8).all(|p| port_carries(t, j, p, port_at(t, j, p)))
}

fn ports_empty(t: Tree, j: u8) -> bool
    ensures { result ≡ all 8 (λ p. is_empty (port_of t j p)) }
{
    let mut ok = true;
    for p in 0..8 {
        ok &= port_at(t, j, p) == Port::Empty;
    }
    ok
}

fn root_placed(t: Tree) -> bool
    ensures { result ≡ root_placed t }
{
    let x = interconnect_at(t, 0);
    (x.parent == 0) & (x.port == 0)
}

fn child_placed(t: Tree, j: u8) -> bool
    ensures { result ≡ child_placed t j }
{
    let x = interconnect_at(t, j);
    (x.parent < j) & (x.port <= 7) & (port_at(t, x.parent, x.port) == Port::Int(j))
}

fn placed(t: Tree, j: u8) -> bool
    ensures { result ≡ is_placed t j }
{
    if j == 0 {
        return root_placed(t);
    }
    child_placed(t, j)
}

fn used_interconnect(t: Tree, j: u8) -> bool
    ensures { result ≡ used_interconnect t j }
{
    let x = interconnect_at(t, j);
    in_limits(1, x.granularity as u64, 16)
        & placed(t, j)
        & (level_of(t, j) <= 4)
        & ports_carry(t, j)
}

fn unused_interconnect(t: Tree, j: u8) -> bool
    ensures { result ≡ unused_interconnect t j }
{
    let x = interconnect_at(t, j);
    (x.granularity == 0) & (x.parent == 0) & (x.port == 0) & ports_empty(t, j)
}

fn interconnect_keeps(t: Tree, j: u8) -> bool
    ensures { result ≡ interconnect_keeps t j }
{
    if j < t.ints {
        return used_interconnect(t, j);
    }
    unused_interconnect(t, j)
}

fn interconnects_keep(t: Tree) -> bool
    ensures { result ≡ all 15 (interconnect_keeps t) }
{
    let mut ok = true;
    for j in 0..15 {
        ok &= interconnect_keeps(t, j);
    }
    ok
}

fn used_accelerator(t: Tree, a: u8) -> bool
    ensures { result ≡ used_accelerator t a }
{
    let x = accelerator_at(t, a);
    (x.interconnect < t.ints)
        & (x.port <= 7)
        & (port_at(t, x.interconnect, x.port) == Port::Acc(a))
        & in_limits(1, x.phi as u64, 16)
        & in_limits(1, x.budget as u64, 1024)
        & in_limits(0, x.reads as u64, 65535)
        & in_limits(0, x.writes as u64, 65535)
        & in_limits(0, x.computing as u64, 4294967295)
        & in_limits(1, x.period as u64, 4294967295)
}

fn unused_accelerator(t: Tree, a: u8) -> bool
    ensures { result ≡ unused_accelerator t a }
{
    let x = accelerator_at(t, a);
    (x.interconnect == 0)
        & (x.port == 0)
        & (x.phi == 0)
        & (x.budget == 0)
        & (x.reads == 0)
        & (x.writes == 0)
        & (x.computing == 0)
        & (x.period == 0)
}

fn accelerator_keeps(t: Tree, a: u8) -> bool
    ensures { result ≡ accelerator_keeps t a }
{
    if a < t.accs {
        return used_accelerator(t, a);
    }
    unused_accelerator(t, a)
}

fn accelerators_keep(t: Tree) -> bool
    ensures { result ≡ all 32 (accelerator_keeps t) }
{
    let mut ok = true;
    for a in 0..32 {
        ok &= accelerator_keeps(t, a);
    }
    ok
}

// A configuration keeps its rules.
pub fn tree_keeps(t: Tree) -> bool
    ensures { result ≡ tree_keeps t }
{
    bus_keeps(t.bus)
        & in_limits(1, t.ints as u64, 15)
        & in_limits(1, t.accs as u64, 32)
        & interconnects_keep(t)
        & accelerators_keep(t)
}

// Each return is due 1 to `delay` slots ahead: it was served 1 to `delay` slots ago.
fn on_the_way(delay: u8, returns: u32) -> bool
    ensures { result ≡ on_the_way delay returns }
{
    if 30 < delay {
        return returns % 2 == 0;
    }
    (returns % 2 == 0) & (returns < 2 << delay)
}

fn record_keeps(t: Tree, s: State, a: u8) -> bool
    ensures { result ≡ record_keeps t s a }
{
    let admitted = admitted_of(s, a);
    let returns = returns_of(s, a);
    if a < t.accs {
        let x = accelerator_at(t, a);
        let channel = s.channel;
        return (outstanding_of(s, a) <= limit_of(t, channel, a) as u32)
            & (admitted <= x.budget)
            & on_the_way(t.bus.delay, returns);
    }
    (waiting_of(s, a) == 0) & (admitted == 0) & (returns == 0)
}

fn records_keep(t: Tree, s: State) -> bool
    ensures { result ≡ list_all (record_keeps t s) (range_with_len 0 32) }
{
    (0..32).all(|a| record_keeps(t, s, a))
}

// One less, 0 for 0.
pub fn less_one(n: u32) -> u32
    ensures { result ≡ n - 1 }
{
    n.saturating_sub(1)
}

fn turn_keeps(t: Tree, s: State, j: u8) -> bool
    ensures { result ≡ turn_keeps t s j }
{
    let last = last_of(s, j);
    let allowance = allowance_of(s, j);
    if j < t.ints {
        let x = interconnect_at(t, j);
        let most = u32::from(x.granularity).min(waits_under(t, s, j, last));
        return (last <= 7) & (allowance as u32 <= most);
    }
    (last == 0) & (allowance == 0)
}

fn turns_keep(t: Tree, s: State) -> bool
    ensures { result ≡ list_all (turn_keeps t s) (range_with_len 0 15) }
{
    (0..15).all(|j| turn_keeps(t, s, j))
}

// A state keeps its rules in this configuration.
pub fn state_keeps(t: Tree, s: State) -> bool
    ensures { result ≡ state_keeps t s }
{
    records_keep(t, s) & turns_keep(t, s)
}

// Both keep their rules.
pub fn both_keep(t: Tree, s: State) -> bool
    ensures { result ≡ keeps t s }
{
    tree_keeps(t) & state_keeps(t, s)
}
