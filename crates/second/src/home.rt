// What returns: the slots in which the transactions of each accelerator come home that are served and not home yet, one after the
// other. A slot is a number of 64 bits, so that one past the last slot there is stays what it is.
ghost use Rattle.std.specs.Prelude.{◌≡◌};
ghost use Rattle.second.specs.Machine.{returning_of, due_of, is_due};

use crate::Wrong;
use crate::book::delay;
use crate::queues::{SERVED, SLOT, queued, total};
use store::{add, get, put};

// For each accelerator how many of those served are home.
const HOME: usize = 2240;

// The slots, thirty-two places to each accelerator: a ring by their tickets.
const DUE: usize = 5120;

// How many transactions of accelerator a are returning: served, and not home.
pub fn returning(d: &[usize; 16384], a: usize) -> usize
    ensures { result ≡ returning_of d.now a }
{
    get(d, SERVED, a).wrapping_sub(get(d, HOME, a))
}

// The slot in which one of them comes home, the one served first at k = 0.
fn due(d: &[usize; 16384], a: usize, k: usize) -> usize
    ensures { result ≡ due_of d.now a k }
{
    let ticket = get(d, HOME, a).wrapping_add(k);
    get(d, DUE, (a % 32) * 32 + ticket % 32)
}

// Does one of them come home in slot n?
pub fn is_due(d: &[usize; 16384], a: usize, n: usize) -> bool
    ensures { result ≡ is_due d.now a n }
{
    let many = returning(d, a).min(32);
    let mut found = false;
    for k in 0..many {
        found = found | (due(d, a, k) == n);
    }
    found
}

// What counts against phi: what waits and what returns. A wrong rule leaves out what returns.
pub(crate) fn outstanding(d: &[usize; 16384], a: usize, wrong: Wrong) -> usize {
    if wrong == Wrong::NotOutstanding {
        return queued(d, a);
    }
    queued(d, a).wrapping_add(returning(d, a))
}

// Where the slot of a ticket stands.
fn place_of(a: usize, ticket: usize) -> usize {
    (a % 32) * 32 + ticket % 32
}

// The slot in which one that is served now comes home. A wrong rule has it come a slot early or late.
fn home_slot(d: &[usize; 16384], wrong: Wrong) -> usize {
    let r = get(d, SLOT, 0).wrapping_add(delay(d));
    if wrong == Wrong::HomeEarly {
        return r;
    }
    if wrong == Wrong::HomeLate {
        return r.wrapping_add(2);
    }
    r.wrapping_add(1)
}

// The transaction of accelerator a that has this ticket is served now.
pub(crate) fn send_home(d: &mut [usize; 16384], a: usize, ticket: usize, wrong: Wrong) {
    let slot = home_slot(d, wrong);
    put(d, DUE, place_of(a, ticket), slot);
}

// None of accelerator a's transactions returns.
pub fn forget_returns(d: &mut [usize; 16384], a: usize) {
    let served = get(d, SERVED, a);
    put(d, HOME, a, served);
}

// Is the first of accelerator a's returning transactions due?
fn comes_home(d: &[usize; 16384], a: usize) -> bool {
    (returning(d, a) != 0) & (due(d, a, 0) <= get(d, SLOT, 0))
}

// Those that are due are home: of each accelerator one at most, since a slot serves one.
pub(crate) fn take_home(d: &mut [usize; 16384]) {
    for a in 0..32 {
        if comes_home(d, a) {
            add(d, HOME, a, 1);
        }
    }
}

// One more transaction of accelerator a returns, before the others: it comes home in slot n.
pub fn put_return(d: &mut [usize; 16384], a: usize, n: usize) {
    let ticket = get(d, HOME, a).wrapping_sub(1);
    put(d, HOME, a, ticket);
    put(d, DUE, place_of(a, ticket), n);
}

// Is slot n one of the r slots after this one? An earlier slot is very far ahead, going round. A wrong rule lets it be this one.
fn is_ahead(d: &[usize; 16384], n: usize, wrong: Wrong) -> bool {
    let ahead = n.wrapping_sub(get(d, SLOT, 0));
    (ahead <= delay(d)) & ((ahead != 0) | (wrong == Wrong::DueNow))
}

// Does each of accelerator a's returning transactions come home in one of the next r slots?
pub(crate) fn returns_keep(d: &[usize; 16384], a: usize, wrong: Wrong) -> bool {
    (0..returning(d, a).min(32)).all(|k| is_ahead(d, due(d, a, k), wrong))
}

// How many return in all.
pub(crate) fn all_returning(d: &[usize; 16384]) -> usize {
    total(|a| returning(d, a))
}
