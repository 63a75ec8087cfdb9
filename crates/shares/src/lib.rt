// D and share of document 01, for each channel. Each function answers on any configuration whatever: what is walked is bounded by the number
// of levels, and not by the tables. A port's capacity is what is beneath it by the outstanding limits of the channel
// (model::access::weight_under).
#![tactic(auto)]

ghost use Rattle.std.specs.Prelude.{◌≡◌, ◌+◌, ◌*◌, ◌^◌, ◌≤◌};
ghost use Rattle.model.specs.Tree.{limit_of, above};
ghost use Rattle.model.specs.Beneath.{weight_in};
ghost use Rattle.shares.specs.Shares.{counted, others_at, share_along, share_within};

use model::access::{accelerator_at, interconnect_at, limit_of, weight_under};
use model::{Channel, Tree};

// How many transactions of each accelerator may be outstanding on a channel.
fn limits(t: Tree, channel: Channel) -> [u8; 32]
    ensures { weight_in result ≡ limit_of t channel }
{
    // A `for` over the places: with std's `array::from_fn` the proof did not close.
    let mut table = [0u8; 32];
    for i in 0..32usize {
        table[i] = limit_of(t, channel, i as u8);
    }
    table
}

// What port q of interconnect j counts for in D at port p, with these outstanding limits: port p itself counts for nothing.
fn count_port(t: Tree, limits: [u8; 32], j: u8, p: u8, q: u8) -> u32
    ensures { (result ≡ counted t (weight_in limits) j p q) × (result ≤ 255) }
{
    if q == p {
        return 0;
    }
    let x = interconnect_at(t, j);
    u32::from(x.granularity).min(weight_under(t, limits, j, q))
}

// D at interconnect j for its port p.
fn others_at(t: Tree, limits: [u8; 32], j: u8, p: u8) -> u32
    ensures { (result ≡ others_at t (weight_in limits) j p) × (result ≤ 2040) }
{
    let mut sum: u32 = 0;
    for q in 0..8 {
        sum += count_port(t, limits, j, p, q);
    }
    sum
}

// The factor of one crossing in a share: 1 + D.
fn factor_at(t: Tree, limits: [u8; 32], j: u8, p: u8) -> u64
    ensures { (result ≡ 1 + others_at t (weight_in limits) j p) × (result ≤ 2041) }
{
    1 + others_at(t, limits, j, p) as u64
}

// The product of (1 + D) along the crossings above interconnect j, parent by parent, at most n of them.
fn share_above(t: Tree, limits: [u8; 32], n: u8, j: u8) -> u64
    requires { n ≤ 3 }
    ensures { (result ≡ share_along t (weight_in limits) (above n t j)) × (result ≤ 2041 ^ n) }
{
    if n == 0 {
        return 1;
    }
    if j == 0 {
        return 1;
    }
    let x = interconnect_at(t, j);
    factor_at(t, limits, x.parent, x.port) * share_above(t, limits, n - 1, x.parent)
}

// The share of accelerator a on a channel, over its own crossing and at most three above it: no more lie there where the configuration
// keeps its rules.
pub fn share_of(t: Tree, channel: Channel, a: u8) -> u64
    ensures { result ≡ share_within 3 t channel a }
{
    let most = limits(t, channel);
    let x = accelerator_at(t, a);
    factor_at(t, most, x.interconnect, x.port) * share_above(t, most, 3, x.interconnect)
}
