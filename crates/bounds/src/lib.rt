// The bounds of document 01: for an accelerator of a configuration its share on each channel, the interference that its job meets
// there, its response and whether it meets its period. The response counts the wait for a new window (document 02, item 8).
#![tactic(auto)]

mod timing;

ghost use Rattle.std.specs.Prelude.{◌≡◌};
ghost use Rattle.bounds.specs.Bounds.{contention, on_channel_means, analysed, analysis_from, meaning_of, bound_of};
ghost use Rattle.bounds.specs.Limited.{Limited, Share};

use crate::timing::{interference_of, response_of};
use model::access::{accelerator_at, level_of};
use model::{Accelerator, Bus, Channel, Refusal, Tree};
use rules::tree_keeps;
use shares::share_of;

// A count of slots: one for each interfering transaction, P for each window.
#[derive(Clone, Copy)]
pub struct Slots(pub u64);

// A time in clock cycles.
#[derive(Clone, Copy)]
pub struct Cycles(pub u64);

// What the transactions of a job meet on a channel: the share of their accelerator there, and their interference.
#[derive(Clone, Copy)]
pub struct OnChannel {
    pub share: u64,
    pub interference: Slots,
}

// What is known of an accelerator: the level L of its interconnect, what its job's reads and its writes meet, its response and its
// period, and whether it meets the period.
#[derive(Clone, Copy)]
pub struct Figures {
    pub level: u8,
    pub reads: OnChannel,
    pub writes: OnChannel,
    pub response: Cycles,
    pub period: Cycles,
    pub meets: bool,
}

// What n transactions of a channel meet, with this share.
fn on_channel(n: u16, share: u64) -> OnChannel
    requires { Share share }
    ensures { on_channel_means result ≡ contention n share }
{
    OnChannel {
        share: share,
        interference: interference_of(n, share),
    }
}

// The figures of accelerator x, on an interconnect of this level, with these shares of its reads and its writes.
fn figures_from(b: Bus, x: Accelerator, level: u8, reads: u64, writes: u64) -> Figures
    requires { Limited b x level × Share reads × Share writes }
    ensures { meaning_of (Ok result) ≡ analysed (analysis_from b x level reads writes) }
{
    let response = response_of(b, x, level, reads, writes);
    let period = x.period as u64;
    Figures {
        level: level,
        reads: on_channel(x.reads, reads),
        writes: on_channel(x.writes, writes),
        response: response,
        period: Cycles(period),
        meets: response.0 <= period,
    }
}

// The bounds of accelerator a: refused if the configuration breaks its rules, or has no such accelerator.
pub fn bound(t: Tree, a: u8) -> Result<Figures, Refusal>
    ensures { meaning_of result ≡ bound_of t a }
{
    if !tree_keeps(t) {
        return Err(Refusal::Rules);
    }
    if t.accs <= a {
        return Err(Refusal::Unknown);
    }
    let x = accelerator_at(t, a);
    let level = level_of(t, x.interconnect);
    let reads = share_of(t, Channel::Read, a);
    let writes = share_of(t, Channel::Write, a);
    Ok(figures_from(t.bus, x, level, reads, writes))
}
