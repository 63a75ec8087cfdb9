// What a run tells of one transaction, slot by slot.
ghost use Rattle.std.specs.Prelude.{◌≡◌, ◌≤◌, ◌<◌, ◌+◌, eqb, leb, ltb};
ghost use Rattle.folds.specs.Fold.{pick};
ghost use Rattle.runner.specs.Wait.{least_of, tell_on};
ghost use Rattle.runner.specs.Arrays.{waiting_on};
ghost use Rattle.runner.specs.Answers.{wait_of};

use crate::Wait;
use counts::{Ports, Table};

// The least number below n + 1 of which a test holds, by that below n and the test of n.
fn least(least: u32, n: u32, holds: bool) -> u32
    requires { n < 65536 }
    ensures { result ≡ least_of least n holds }
{
    if least < n {
        return least;
    }
    if holds {
        return n;
    }
    n + 1
}

// Whether as many as k were admitted: so many served, and so many waiting.
fn reached(k: u32, served: u32, waiting: u32) -> bool
    ensures { result ≡ leb k (served + waiting) }
{
    if k <= served {
        return true;
    }
    k - served <= waiting
}

// The count with one more where a is served.
fn counted(count: u32, served: u8, a: u8) -> u32
    requires { count < 65536 }
    ensures { result ≡ pick (eqb a served) 1 0 + count }
{
    if a == served {
        return count + 1;
    }
    count
}

// How many transactions of accelerator a wait: what waits under its own port.
fn waiting_at(table: &Table, ports: &Ports, a: u8) -> u16
    ensures { result ≡ waiting_on table.now ports.now.under a }
{
    let port = table.own_port[(a % 32) as usize];
    ports.under[(port % 120) as usize]
}

// What a run tells of transaction k of accelerator a after one slot more, in which this one was served; `ports` has what waits under
// each port then. Nothing is looked at where no number is asked.
pub fn tell(w: Wait, k: u32, a: u8, slot: u32, table: &Table, ports: &Ports, served: u8) -> Wait
    requires { (slot < 65536) × (w.count ≤ slot) }
    ensures { wait_of result ≡ tell_on (wait_of w) k a slot (waiting_on table.now ports.now.under a) served }
{
    if k == 0 {
        return w;
    }
    let waiting = waiting_at(table, ports, a) as u32;
    let count = counted(w.count, served, a);
    Wait {
        admission: least(w.admission, slot, reached(k, count, waiting)),
        service: least(w.service, slot, k <= count),
        count: count,
    }
}

// The number asked of accelerator a: none, 0, where it is not one of so many.
pub fn number_asked(accs: u8, a: u8, k: u32) -> u32
    ensures { result ≡ pick (ltb a accs) k 0 }
{
    if a < accs {
        return k;
    }
    0
}
