// The runner of document 01: a trace is run slot by slot on a configuration, from the fresh state of a channel, and each slot's
// service is written as one byte.
#![tactic(auto)]

mod steps;
mod waiting;

ghost use Rattle.std.specs.Prelude.{◌≡◌, true, ◌≤◌, ◌<◌, length};
ghost use Rattle.rules.specs.Rules.{tree_keeps};
ghost use Rattle.machine.specs.Machine.{fresh_state};
ghost use Rattle.runner.specs.Run.{start, run_for, end_after, end_of, over, ran_of, buffer_after};
ghost use Rattle.runner.specs.Answers.{run_means, wait_of};
ghost use Rattle.runner.specs.Wait.{no_wait, waits_after, used_by, told_of};
ghost use Rattle.runner.specs.Places.{left_at, Accepts};

use counts::tables::table_of;
use lines::FileError;
use machine::fresh;
use model::{Channel, Refusal, State, Tree};
use steps::{after_slot, arrays_from, before_slot, below, home_of, is_done};
use trace::read_requests;
use waiting::{number_asked, tell};

// The byte of an idle slot.
pub const IDLE: u8 = 255;

// How a run ended: done or stopped, with the number of slots used.
#[derive(Clone, Copy, PartialEq, Eq)]
pub enum RunEnd {
    Done(u32),
    Stopped(u32),
}

// The place of the next line, and a slot before which it is not due.
#[derive(Clone, Copy)]
pub struct NextLine {
    pub at: usize,
    pub due: u32,
}

// The lines due in a slot, taken: the next line, and the accelerators that they are of, bit a for accelerator a.
#[derive(Clone, Copy)]
pub struct DueLines {
    pub next: NextLine,
    pub accelerators: u32,
}

// How a slot ends: its byte, whether a window opens then, and how many slots of the window are left from there on.
#[derive(Clone, Copy)]
pub struct SlotEnd {
    pub served: u8,
    pub opened: bool,
    pub left: u32,
}

// What a run tells of one transaction: the slots of its admission and of its service, and how many of its accelerator were served.
#[derive(Clone, Copy)]
pub struct Wait {
    pub admission: u32,
    pub service: u32,
    pub count: u32,
}

// What a run answers, how it ended, or what is refused: a line of the trace, 0 for a size, or the configuration, which breaks its rules;
// and what the run tells of one transaction: no wait on a refusal, as `told_of` of specs/Wait.antt has it, so the wait stands beside the answer.
#[derive(Clone, Copy)]
pub struct RunWait {
    pub answer: Result<RunEnd, FileError>,
    pub wait: Wait,
}

// What is refused, and nothing is told.
fn untold(error: FileError) -> RunWait
    ensures answer { result.answer ≡ Err error }
    ensures wait { wait_of result.wait ≡ no_wait }
{
    RunWait {
        answer: Err(error),
        wait: Wait {
            admission: 0,
            service: 0,
            count: 0,
        },
    }
}

// How a run that used so many slots ended.
fn ended(done: bool, used: u32) -> RunEnd
    ensures { run_means (Ok result) ≡ end_after done used }
{
    if done {
        return RunEnd::Done(used);
    }
    RunEnd::Stopped(used)
}

// The run of an accepted trace on a channel, one byte a slot, until nothing is left or the buffer is full, and what it tells of transaction k of
// accelerator a, of none if k is 0. In place of a state it keeps what is outstanding, admitted and held of each accelerator, what
// is kept of the ports, and the next line's slot. The slot count is the number of bytes used, and these
// bytes say whose answer comes home.
fn run_slots(
    t: Tree,
    channel: Channel,
    fresh: State,
    trace: &[u8],
    a: u8,
    k: u32,
    out: &mut [u8],
) -> RunWait
    requires { (tree_keeps t ≡ true) × (fresh ≡ fresh_state t channel) × (length out.old ≤ 65536) × Accepts trace.now 0 × ((k ≡ 0 → ⊥) → a < t.accs) }
    ensures answer { run_means result.answer ≡ end_of (run_for t channel (left_at trace.now 0) (length out.old)) }
    ensures bytes { out.new ≡ over (run_for t channel (left_at trace.now 0) (length out.old)) out.old }
    ensures wait { wait_of result.wait ≡ waits_after t (start t channel (left_at trace.now 0)) (used_by t channel (left_at trace.now 0) (length out.old)) a k }
{
    let table = table_of(t, channel);
    let mut arrays = arrays_from(fresh.last);
    let mut line = NextLine { at: 0, due: 0 };
    let accs = below(t.accs);
    let window = t.bus.window as u32;
    let mut past = SlotEnd {
        served: IDLE,
        opened: true,
        left: window,
    };
    let mut told = Wait {
        admission: 0,
        service: 0,
        count: 0,
    };
    let mut used: usize = 0;
    // A `while`: the run answers how many slots it used, and a `for` would hold that number beside its index.
    while used < out.len() && !is_done(trace, line.at, &arrays) {
        line = before_slot(
            trace,
            used as u32,
            line,
            past.opened,
            accs,
            home_of(&out[0..used], t.bus.delay),
            &table,
            &mut arrays,
        );
        past = after_slot(&table, window, past.left, &mut arrays);
        out[used] = past.served;
        told = tell(told, k, a, used as u32, &table, &arrays.ports, past.served);
        used += 1;
    }
    RunWait {
        answer: Ok(ended(is_done(trace, line.at, &arrays), used as u32)),
        wait: told,
    }
}

// Runs the trace on a channel of the configuration, writes one byte a slot into `out`, and tells of transaction k of accelerator a, counted from 1
// in the order of service, when it was admitted and served; of none if k is 0 or there is no such accelerator.
pub fn run_wait(t: Tree, channel: Channel, trace: &[u8], a: u8, k: u32, out: &mut [u8]) -> RunWait
    ensures answer { run_means result.answer ≡ ran_of t channel trace.now (length out.old) }
    ensures bytes { out.new ≡ buffer_after t channel trace.now out.old }
    ensures wait { wait_of result.wait ≡ told_of t channel trace.now a k (length out.old) }
{
    let start = fresh(t, channel);
    let Ok(()) = start.answer else {
        return untold(FileError::Broken);
    };
    if 65536 < out.len() {
        return untold(FileError::Refused(Refusal::Limit, 0));
    }
    match read_requests(t.accs, trace) {
        Ok(()) => {
            let number = number_asked(t.accs, a, k);
            run_slots(t, channel, start.state, trace, a, number, out)
        }
        Err(error) => untold(error),
    }
}

// Runs the trace on a channel of the configuration and writes one byte a slot into `out`.
pub fn run(t: Tree, channel: Channel, trace: &[u8], out: &mut [u8]) -> Result<RunEnd, FileError>
    ensures answer { run_means result ≡ ran_of t channel trace.now (length out.old) }
    ensures bytes { out.new ≡ buffer_after t channel trace.now out.old }
{
    let ran = run_wait(t, channel, trace, 0, 0, out);
    ran.answer
}
