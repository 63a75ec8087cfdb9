// What a run does in one slot beside the offers: who comes home, the lines due, the service, and the window's end.
ghost use Rattle.std.specs.Prelude.{◌≡◌, ◌&&◌, ℕ, ◌+◌, ◌-◌, ◌^◌, min, eqb, length, get_or, set};
ghost use Rattle.admit.specs.Admitting.{is_in};
ghost use Rattle.runner.specs.Run.{none_held};
ghost use Rattle.runner.specs.Due.{taken, due_on};
ghost use Rattle.runner.specs.Arrays.{arrays_from, slot_on, serve_on, left_on, slot_end_on, after_on, home_in, ready_on, before_on};

use crate::{DueLines, IDLE, NextLine, SlotEnd};
use admit::Arrays;
use counts::{Ports, Table};
use rules::less_one;
use trace::request_at;

// Adds the lines due in this slot to the held counts.
fn take_due(trace: &[u8], slot: u32, line: NextLine, held: &mut [u32; 32]) -> DueLines
    ensures { taken held.new result.accelerators result.next ≡ due_on slot trace.now line held.old }
{
    let mut accelerators: u32 = 0;
    if slot < line.due {
        return DueLines {
            next: line,
            accelerators: accelerators,
        };
    }
    let mut place = line.at;
    while let Some((request, next)) = request_at(trace, place) {
        if slot < request.slot {
            return DueLines {
                next: NextLine {
                    at: place,
                    due: request.slot,
                },
                accelerators: accelerators,
            };
        }
        let a = request.accelerator as usize;
        held[a] = held[a].saturating_add(request.count as u32);
        accelerators = accelerators | (1 << request.accelerator);
        place = next;
    }
    DueLines {
        next: NextLine {
            at: place,
            due: 4294967295,
        },
        accelerators: accelerators,
    }
}

fn none_held(held: &[u32; 32]) -> bool
    ensures { result ≡ none_held held.now }
{
    let mut ok = true;
    for h in held {
        ok &= *h == 0;
    }
    ok
}

// No line left, none held, none waiting: nothing waits exactly if no port of the root is live.
pub fn is_done(trace: &[u8], at: usize, arrays: &Arrays) -> bool
    ensures { result ≡ (eqb at (length trace.now) && none_held arrays.now.held && eqb (get_or arrays.now.ports.live 0 0) 0) }
{
    arrays.ports.live[0] == 0 && at == trace.len() && none_held(&arrays.held)
}

// Serves the transaction whose turn it is, and answers its accelerator, or that the slot is idle. It is outstanding as before.
fn serve(table: &Table, arrays: &mut Arrays) -> u8
    ensures { slot_on result arrays.new ≡ serve_on table.now arrays.old }
{
    if arrays.ports.live[0] == 0 {
        return IDLE;
    }
    arrays.ports.choose(table, 4, 0)
}

// How many slots of the window are left after one of these: a whole window where it was the last.
fn left_after(window: u32, left: u32) -> u32
    ensures { result ≡ left_on window left }
{
    if left == 1 {
        return window;
    }
    less_one(left)
}

// The accelerator whose answer comes home before the slot that follows these bytes, one a slot: the one served `delay` + 1 slots
// before it. IDLE where there is none.
pub fn home_of(bytes: &[u8], delay: u8) -> u8
    ensures { result ≡ home_in delay bytes.now }
{
    let back = delay as usize + 1;
    if bytes.len() < back {
        return IDLE;
    }
    bytes[bytes.len() - back]
}

// One transaction of this accelerator stops being outstanding.
fn come_home(home: u8, outstanding: &mut [u32; 32])
    ensures { outstanding.new ≡ set outstanding.old home (get_or outstanding.old home 0 - 1) }
{
    let i = home as usize;
    if i < 32 {
        outstanding[i] = less_one(outstanding[i]);
    }
}

// The accelerators of a number below n, bit a for accelerator a; at most thirty-two.
pub fn below(n: u8) -> u32
    ensures { result ≡ 2 ^ min 32 n - 1 }
{
    if 31 < n {
        return 4294967295;
    }
    (1 << n) - 1
}

// Who may have a transaction admitted before a slot, beside the one whose answer has come home: where a window opens, any of the
// accelerators, else those whose lines are due.
fn ready(opened: bool, accs: u32, due: u32) -> u32
    ensures { (a : ℕ) → is_in result a ≡ ready_on opened accs due a }
{
    if opened {
        return accs;
    }
    accs & due
}

// What comes before a slot: an answer comes home, the lines due are held, and those offer that may have a transaction admitted.
pub fn before_slot(
    trace: &[u8],
    slot: u32,
    line: NextLine,
    opened: bool,
    accs: u32,
    home: u8,
    table: &Table,
    arrays: &mut Arrays,
) -> NextLine
    ensures arrays { arrays.new ≡ before_on trace.now slot line opened accs home table.now arrays.old }
    ensures line { result ≡ (due_on slot trace.now line arrays.old.held).line }
{
    come_home(home, &mut arrays.outstanding);
    let due = take_due(trace, slot, line, &mut arrays.held);
    arrays.offer_each(home, ready(opened, accs, due.accelerators), table);
    due.next
}

// One slot is run once the offers are made: the service, and the end of a window of which so many slots are left, this one
// counted. Where a window opens the admitted counts return to 0.
pub fn after_slot(table: &Table, window: u32, left: u32, arrays: &mut Arrays) -> SlotEnd
    ensures end { result ≡ slot_end_on table.now window left arrays.old }
    ensures arrays { arrays.new ≡ after_on table.now left arrays.old }
{
    let served = serve(table, arrays);
    let opened = left == 1;
    if opened {
        arrays.admitted = [0; 32];
    }
    SlotEnd {
        served: served,
        opened: opened,
        left: left_after(window, left),
    }
}

// The arrays of a run that begins from these last ports: nothing waits, is admitted or is held.
pub fn arrays_from(last: [u8; 15]) -> Arrays
    ensures { result ≡ arrays_from last }
{
    Arrays {
        outstanding: [0; 32],
        admitted: [0; 32],
        held: [0; 32],
        ports: Ports {
            under: [0; 120],
            live: [0; 15],
            last: last,
            allowance: [0; 15],
        },
    }
}
