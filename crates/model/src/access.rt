// Reading a configuration and a state: total, by value.
ghost use Rattle.std.specs.Prelude.{◌≡◌, ◌≤◌, ◌*◌, ◌^◌, length};
ghost use Rattle.model.specs.Tree.{beat_limit, interconnect_of, accelerator_of, job_of, limit_of, port_of, level_of, above, waiting_of, returns_of, outstanding_of, admitted_of, last_of, allowance_of};
ghost use Rattle.model.specs.Beneath.{weight_in, under, inside, weight_under, waits_under};

use crate::{Accelerator, Bus, Channel, Interconnect, Port, PortCell, State, Tree};

// The most beats of a burst: 16 in AXI3, 256 in AXI4.
pub fn beat_limit(b: Bus) -> u32
    ensures { (result ≡ beat_limit b) × (result ≤ 256) }
{
    if b.axi3 {
        return 16;
    }
    256
}

// An entry that is not used: an interconnect without ports,
const NO_INTERCONNECT: Interconnect = Interconnect {
    parent: 0,
    port: 0,
    granularity: 0,
    ports: [PortCell { port: Port::Empty }; 8],
};

// and an accelerator without a job.
const NO_ACCELERATOR: Accelerator = Accelerator {
    interconnect: 0,
    port: 0,
    phi: 0,
    budget: 0,
    reads: 0,
    writes: 0,
    computing: 0,
    period: 0,
};

pub fn interconnect_at(t: Tree, j: u8) -> Interconnect
    ensures { result ≡ interconnect_of t j }
{
    t.interconnects
        .get(j as usize)
        .copied()
        .unwrap_or(NO_INTERCONNECT)
}

pub fn accelerator_at(t: Tree, a: u8) -> Accelerator
    ensures { result ≡ accelerator_of t a }
{
    t.accelerators
        .get(a as usize)
        .copied()
        .unwrap_or(NO_ACCELERATOR)
}

// The transactions that a job of accelerator a has on a channel.
pub fn job_of(t: Tree, channel: Channel, a: u8) -> u16
    ensures { result ≡ job_of t channel a }
{
    let x = accelerator_at(t, a);
    match channel {
        Channel::Read => x.reads,
        Channel::Write => x.writes,
    }
}

// How many transactions of accelerator a may be outstanding on a channel: none where its job has none there.
pub fn limit_of(t: Tree, channel: Channel, a: u8) -> u8
    ensures { result ≡ limit_of t channel a }
{
    if job_of(t, channel, a) == 0 {
        return 0;
    }
    let x = accelerator_at(t, a);
    x.phi
}

pub fn port_at(t: Tree, j: u8, p: u8) -> Port
    ensures { result ≡ port_of t j p }
{
    let x = interconnect_at(t, j);
    x.ports.get(p as usize).map_or(Port::Empty, |c| c.port)
}

pub fn waiting_of(s: State, a: u8) -> u8
    ensures { result ≡ waiting_of s a }
{
    s.waiting.get(a as usize).copied().unwrap_or(0)
}

// The returning transactions of accelerator a: bit d for one that was served d slots ago.
pub fn returns_of(s: State, a: u8) -> u32
    ensures { result ≡ returns_of s a }
{
    s.returning.get(a as usize).copied().unwrap_or(0)
}

// How many transactions of accelerator a are outstanding: those that wait and those that return.
pub fn outstanding_of(s: State, a: u8) -> u32
    ensures { result ≡ outstanding_of s a }
{
    u32::from(waiting_of(s, a)) + returns_of(s, a).count_ones()
}

pub fn admitted_of(s: State, a: u8) -> u16
    ensures { result ≡ admitted_of s a }
{
    s.admitted.get(a as usize).copied().unwrap_or(0)
}

pub fn last_of(s: State, j: u8) -> u8
    ensures { result ≡ last_of s j }
{
    s.last.get(j as usize).copied().unwrap_or(0)
}

pub fn allowance_of(s: State, j: u8) -> u8
    ensures { result ≡ allowance_of s j }
{
    s.allowance.get(j as usize).copied().unwrap_or(0)
}

// How many interconnects are above interconnect j, counted over at most n parents.
fn parents(t: Tree, n: u8, j: u8) -> u8
    requires { n ≤ 15 }
    ensures { (result ≡ length (above n t j)) × (result ≤ n) }
{
    if n == 0 {
        return 0;
    }
    if j == 0 {
        return 0;
    }
    let x = interconnect_at(t, j);
    parents(t, n - 1, x.parent) + 1
}

// The level of interconnect j, the root's being 1.
pub fn level_of(t: Tree, j: u8) -> u8
    ensures { result ≡ level_of t j }
{
    parents(t, 15, j) + 1
}

// The weight of accelerator a in an array of weights, one for each accelerator.
fn weight_of(weights: [u8; 32], a: u8) -> u8
    ensures { result ≡ weight_in weights a }
{
    weights.get(a as usize).copied().unwrap_or(0)
}

// What is beneath a port that carries `port`, by weight, over `levels` levels of interconnects.
fn weight_beneath(t: Tree, weights: [u8; 32], levels: u8, port: Port) -> u32
    requires { levels ≤ 4 }
    ensures { (result ≡ under (weight_in weights) (inside levels t (weight_in weights)) port) × (result ≤ 255 * 8 ^ levels) }
{
    match port {
        Port::Empty => 0,
        Port::Acc(a) => u32::from(weight_of(weights, a)),
        Port::Int(j) => {
            if levels == 0 {
                return 0;
            }
            // A `for` in place of a chain: a closure that recurses gets no proof.
            let mut sum: u32 = 0;
            for p in 0..8 {
                sum += weight_beneath(t, weights, levels - 1, port_at(t, j, p));
            }
            sum
        }
    }
}

// What is beneath port p of interconnect j, by weight: at most three levels lie below the first.
pub fn weight_under(t: Tree, weights: [u8; 32], j: u8, p: u8) -> u32
    ensures { result ≡ weight_under t (weight_in weights) j p }
{
    weight_beneath(t, weights, 3, port_at(t, j, p))
}

// What waits under port p of interconnect j.
pub fn waits_under(t: Tree, s: State, j: u8, p: u8) -> u32
    ensures { result ≡ waits_under t s j p }
{
    let waiting = s.waiting;
    weight_under(t, waiting, j, p)
}
