// The turn rule: which port an interconnect serves in a slot, and the choice from the root down to an accelerator.
#![tactic(auto)]

ghost use Rattle.std.specs.Prelude.{◌≡◌, min, ltb};
ghost use Rattle.folds.specs.Fold.{pick};
ghost use Rattle.turns.specs.Turns.{live_set, next_port, turn_port, turn_allowance, reached, who, with_turn, turned, after};

use model::access::{allowance_of, interconnect_at, last_of, port_at, waits_under};
use model::{Port, State, Tree};

// The turn at an interconnect in a slot: its port, and the allowance before this slot takes one off.
#[derive(Clone, Copy)]
pub struct Turn {
    pub port: u8,
    pub allowance: u8,
}

// What the downward choice comes to: the accelerator served (255 for none), and the state with the turns taken. No Option: a slot chooses
// only where something waits, so a None would be a case that its caller has to rule out again.
#[derive(Clone, Copy)]
pub struct Choice {
    pub served: u8,
    pub state: State,
}

// The next port after the last one among the live ports, 7 followed by 0; 8 if none is live. The set stands twice, one after
// the other, and is moved so that bit 0 is the port after the last one: its lowest bit tells how many ports lie before the next.
// No Option: its callers go on with the number as it is, and read an empty port there.
// The 8 stays a number: the clause cites `next_port` of specs/Turns.antt, whose value it is.
pub fn next_port(set: u8, last: u8) -> u8
    ensures { result ≡ next_port set last }
{
    if set == 0 {
        return 8;
    }
    let first = last % 8 + 1;
    let twice = set as u32 * 257;
    let ahead = (twice >> first).trailing_zeros();
    ((ahead + first as u32) % 8) as u8
}

// The live ports of interconnect j, bit p for port p.
pub fn live_set(t: Tree, s: State, j: u8) -> u8
    ensures { result ≡ live_set t s j }
{
    let mut set: u8 = 0;
    for p in 0..8 {
        set |= u8::from(0 < waits_under(t, s, j, p)) << p;
    }
    set
}

// The smaller of the granularity and what waits.
pub fn grant(granularity: u8, waiting: u32) -> u8
    ensures { result ≡ min granularity waiting }
{
    waiting.min(u32::from(granularity)) as u8
}

// The turn of interconnect j: its last port where its allowance is above 0, else the next live port after it.
pub fn turn_at(t: Tree, s: State, j: u8) -> Turn
    ensures { (result.port ≡ turn_port t s j) × (result.allowance ≡ turn_allowance t s j) }
{
    let last = last_of(s, j);
    let allowance = allowance_of(s, j);
    if 0 < allowance {
        return Turn {
            port: last,
            allowance: allowance,
        };
    }
    let port = next_port(live_set(t, s, j), last);
    let x = interconnect_at(t, j);
    Turn {
        port: port,
        allowance: grant(x.granularity, waits_under(t, s, j, port)),
    }
}

fn with_turn(s: State, j: u8, port: u8, allowance: u8) -> State
    ensures { result ≡ with_turn s j port allowance }
{
    let i = j as usize;
    let mut next = s;
    if i < 15 {
        next.last[i] = port;
        next.allowance[i] = allowance;
    }
    next
}

// The choice from a port that carries `port`, over at most `levels` levels of interconnects.
pub fn choose(t: Tree, s: State, levels: u8, port: Port) -> Choice
    ensures { (result.served ≡ reached (who levels t s) port) × (result.state ≡ turned s (after levels t s) port) }
{
    match port {
        Port::Empty => Choice {
            served: 255,
            state: s,
        },
        Port::Acc(a) => Choice {
            served: a,
            state: s,
        },
        Port::Int(j) => {
            if levels == 0 {
                return Choice {
                    served: 255,
                    state: s,
                };
            }
            let turn = turn_at(t, s, j);
            let below = choose(t, s, levels - 1, port_at(t, j, turn.port));
            let down = below.state;
            let next = with_turn(down, j, turn.port, turn.allowance.saturating_sub(1));
            Choice {
                served: below.served,
                state: next,
            }
        }
    }
}
