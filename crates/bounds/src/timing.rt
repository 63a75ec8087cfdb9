// Interference and the wait for a new window in slots, and times in clock cycles. `in_cycles` is the only way from the one to the
// other, so both counts are in slots until a channel has its sum.
ghost use Rattle.std.specs.Prelude.{◌≡◌, ◌*◌, ◌≤◌, max};
ghost use Rattle.bounds.specs.Bounds.{interference, held_slots, alone_read, alone_write, slot_read, slot_write};
ghost use Rattle.bounds.specs.Bounds.{cycles_of, channel_time, read_time, write_time, response_of};
ghost use Rattle.bounds.specs.Limited.{Limited, Share};

use crate::{Cycles, Slots};
use model::{Accelerator, Bus};

// The interference of n transactions.
pub fn interference_of(n: u16, share: u64) -> Slots
    requires { Share share }
    ensures { result.0 ≡ interference n share }
{
    Slots((n as u64) * (share - 1))
}

// The wait of n transactions for a new window: at most this budget of them is admitted in a window, so they take n / budget
// windows, rounded up, each of `window` slots. Without transactions there is no wait.
#[tactic(auto, using(folds::proofs::Ceiling::ceiling_lem))]
fn held_slots(n: u16, budget: u16, window: u16) -> Slots
    requires { 1 ≤ budget }
    ensures { result.0 ≡ held_slots n budget window }
{
    Slots(u64::from(n.div_ceil(budget)) * u64::from(window))
}

fn product(a: u16, b: u16) -> u64
    ensures { (result ≡ a * b) × (result ≤ 4294836225) }
{
    (a as u64) * (b as u64)
}

fn larger(a: u8, b: u8) -> u16
    ensures { result ≡ max a b }
{
    u16::from(a.max(b))
}

// A read alone, at this level.
fn alone_read(b: Bus, level: u8) -> Cycles
    ensures { result.0 ≡ alone_read b level }
{
    let l = level as u16;
    Cycles(
        b.ta as u64
            + product(l, b.da as u16)
            + b.pr as u64
            + product(l, b.dd as u16)
            + product(b.burst, b.td as u16),
    )
}

// A write alone, at this level.
fn alone_write(b: Bus, level: u8) -> Cycles
    ensures { result.0 ≡ alone_write b level }
{
    let l = level as u16;
    Cycles(
        b.ta as u64
            + product(l, larger(b.da, b.dd))
            + product(b.burst, b.td as u16)
            + b.pw as u64
            + b.tb as u64
            + product(l, b.db as u16),
    )
}

// What an interfering read takes: no interconnect's latency, since these overlap.
fn slot_read(b: Bus) -> Cycles
    ensures { result.0 ≡ slot_read b }
{
    Cycles(b.ta as u64 + b.pr as u64 + product(b.burst, b.td as u16))
}

// What an interfering write takes.
fn slot_write(b: Bus) -> Cycles
    ensures { result.0 ≡ slot_write b }
{
    Cycles(b.ta as u64 + product(b.burst, b.td as u16) + b.pw as u64 + b.tb as u64)
}

// A count of slots in cycles, through the slot time.
fn in_cycles(count: Slots, slot: Cycles) -> Cycles
    requires { (count.0 ≤ 10689603573825) × (slot.0 ≤ 69885) }
    ensures { result.0 ≡ cycles_of count.0 slot.0 }
{
    Cycles(count.0 * slot.0)
}

// What n transactions of a channel add to the response: each alone, the interference that they meet, and the slots for which they
// are held until a new window.
fn channel_time(n: u16, alone: Cycles, interference: Slots, held: Slots, slot: Cycles) -> Cycles
    requires { (alone.0 ≤ 71925) × (interference.0 ≤ 10685308737600) × (held.0 ≤ 4294836225) × (slot.0 ≤ 69885) }
    ensures { result.0 ≡ channel_time n alone.0 interference.0 held.0 slot.0 }
{
    let waited = in_cycles(Slots(interference.0 + held.0), slot);
    Cycles((n as u64) * alone.0 + waited.0)
}

// What the reads of a job add to its response.
fn read_time(b: Bus, x: Accelerator, level: u8, share: u64) -> Cycles
    requires { Limited b x level × Share share }
    ensures { result.0 ≡ read_time b x level share }
{
    channel_time(
        x.reads,
        alone_read(b, level),
        interference_of(x.reads, share),
        held_slots(x.reads, x.budget, b.window),
        slot_read(b),
    )
}

// What the writes of a job add to its response.
fn write_time(b: Bus, x: Accelerator, level: u8, share: u64) -> Cycles
    requires { Limited b x level × Share share }
    ensures { result.0 ≡ write_time b x level share }
{
    channel_time(
        x.writes,
        alone_write(b, level),
        interference_of(x.writes, share),
        held_slots(x.writes, x.budget, b.window),
        slot_write(b),
    )
}

// The response of accelerator x, on an interconnect of this level, with these shares of its reads and its writes.
pub fn response_of(b: Bus, x: Accelerator, level: u8, reads: u64, writes: u64) -> Cycles
    requires { Limited b x level × Share reads × Share writes }
    ensures { result.0 ≡ response_of b x level reads writes }
{
    let read = read_time(b, x, level, reads);
    let written = write_time(b, x, level, writes);
    Cycles(x.computing as u64 + read.0 + written.0)
}
