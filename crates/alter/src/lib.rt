// A tree with an entry changed at random, or with an interconnect put in or moved, or an accelerator moved, so that some break a
// rule; and, in `tangle`, trees that no tree file could have given.
//
// Test code, without contracts: it is proved that each function is safe and ends.
#![tactic(auto)]

pub mod tangle;

use generator::number_below;
use model::access::{accelerator_at, interconnect_at};
use model::{Accelerator, Bus, Interconnect, Port, PortCell, Tree};

// Numbers at the limits of the fields, and about them.
const EDGES: [usize; 24] = [
    0, 1, 2, 3, 4, 5, 6, 7, 8, 14, 15, 16, 17, 31, 32, 255, 256, 257, 1024, 1025, 4095, 4096,
    65535, 9,
];

fn edge(d: &mut [usize; 16384]) -> usize {
    let i = number_below(d, 24) % 24;
    EDGES[i]
}

pub(crate) fn byte(x: usize) -> u8 {
    (x % 256) as u8
}

fn pair(x: usize) -> u16 {
    (x % 65536) as u16
}

// The bus line with another number.
fn with_bus_entry(b: Bus, which: usize, n: usize) -> Bus {
    let mut next = b;
    match which {
        0 => next.ta = byte(n),
        1 => next.da = byte(n),
        2 => next.dd = byte(n),
        3 => next.db = byte(n),
        4 => next.td = byte(n),
        5 => next.tb = byte(n),
        6 => next.window = pair(n),
        7 => next.pr = pair(n),
        8 => next.pw = pair(n),
        9 => next.burst = pair(n),
        _ => next.delay = byte(n),
    }
    next
}

// The bus line under the other record name.
fn with_other_name(b: Bus) -> Bus {
    let mut next = b;
    next.axi3 = !b.axi3;
    next
}

// The tree with another number on its bus line, or, three times in fourteen, with the line under the other record name.
fn with_bus(t: Tree, d: &mut [usize; 16384]) -> Tree {
    let which = number_below(d, 14);
    let x = edge(d);
    let mut next = t;
    if 10 < which {
        next.bus = with_other_name(t.bus);
    } else {
        next.bus = with_bus_entry(t.bus, which, x);
    }
    next
}

pub(crate) fn with_interconnect(t: Tree, j: usize, x: Interconnect) -> Tree {
    let mut next = t;
    next.interconnects[j % 15] = x;
    next
}

pub(crate) fn with_accelerator(t: Tree, a: usize, x: Accelerator) -> Tree {
    let mut next = t;
    next.accelerators[a % 32] = x;
    next
}

// The tree with x on port p of interconnect j.
pub(crate) fn with_port(t: Tree, j: u8, p: u8, x: Port) -> Tree {
    let mut here = interconnect_at(t, j);
    here.ports[(p % 8) as usize] = PortCell { port: x };
    with_interconnect(t, j as usize, here)
}

// An interconnect, mostly one of the tree or the first that is not in it.
fn some_int(t: Tree, d: &mut [usize; 16384]) -> u8 {
    if number_below(d, 8) == 0 {
        return byte(number_below(d, 15));
    }
    byte(number_below(d, t.ints as usize + 1) % 15)
}

fn some_acc(t: Tree, d: &mut [usize; 16384]) -> u8 {
    if number_below(d, 8) == 0 {
        return byte(number_below(d, 32));
    }
    byte(number_below(d, t.accs as usize + 1) % 32)
}

fn some_port(d: &mut [usize; 16384]) -> u8 {
    byte(number_below(d, 8))
}

pub(crate) fn with_int_entry(x: Interconnect, which: usize, n: u8) -> Interconnect {
    let mut next = x;
    match which {
        0 => next.parent = n,
        1 => next.port = n,
        _ => next.granularity = n,
    }
    next
}

// The tree with another number in an interconnect.
fn with_int(t: Tree, d: &mut [usize; 16384]) -> Tree {
    let j = some_int(t, d);
    let which = number_below(d, 3);
    let n = byte(edge(d));
    with_interconnect(
        t,
        j as usize,
        with_int_entry(interconnect_at(t, j), which, n),
    )
}

// The tree with something else on a port.
fn with_cell(t: Tree, d: &mut [usize; 16384]) -> Tree {
    let j = some_int(t, d);
    let p = some_port(d);
    let x = match number_below(d, 3) {
        0 => Port::Empty,
        1 => Port::Acc(some_acc(t, d)),
        _ => Port::Int(some_int(t, d)),
    };
    with_port(t, j, p, x)
}

pub(crate) fn with_acc_entry(x: Accelerator, which: usize, n: usize) -> Accelerator {
    let mut next = x;
    match which {
        0 => next.interconnect = byte(n),
        1 => next.port = byte(n),
        2 => next.phi = byte(n),
        3 => next.budget = pair(n),
        4 => next.reads = pair(n),
        5 => next.writes = pair(n),
        6 => next.computing = pair(n) as u32,
        _ => next.period = pair(n) as u32,
    }
    next
}

// The tree with another number in an accelerator.
fn with_acc(t: Tree, d: &mut [usize; 16384]) -> Tree {
    let a = some_acc(t, d);
    let which = number_below(d, 8);
    let n = edge(d);
    with_accelerator(
        t,
        a as usize,
        with_acc_entry(accelerator_at(t, a), which, n),
    )
}

// The tree with another count of interconnects or accelerators.
fn with_count(t: Tree, d: &mut [usize; 16384]) -> Tree {
    let mut next = t;
    if number_below(d, 2) == 0 {
        next.ints = byte(edge(d));
    } else {
        next.accs = byte(edge(d));
    }
    next
}

// The tree with one interconnect more, on any port of any interconnect.
fn grown(t: Tree, d: &mut [usize; 16384]) -> Tree {
    let j = some_int(t, d);
    let p = some_port(d);
    let child = byte(t.ints as usize % 15);
    let mut x = interconnect_at(t, child);
    x.parent = j;
    x.port = p;
    x.granularity = 1;
    let mut next = with_interconnect(with_port(t, j, p, Port::Int(child)), child as usize, x);
    next.ints = byte(t.ints as usize + 1);
    next
}

// The tree with x taken from port q of interconnect i to port p of interconnect j.
fn with_port_moved(t: Tree, x: Port, i: u8, q: u8, j: u8, p: u8) -> Tree {
    with_port(with_port(t, i, q, Port::Empty), j, p, x)
}

// The tree with an interconnect moved to any port of any interconnect.
fn with_int_moved(t: Tree, d: &mut [usize; 16384]) -> Tree {
    let child = some_int(t, d);
    let j = some_int(t, d);
    let p = some_port(d);
    let old = interconnect_at(t, child);
    let next = with_port_moved(t, Port::Int(child), old.parent, old.port, j, p);
    let mut x = interconnect_at(next, child);
    x.parent = j;
    x.port = p;
    with_interconnect(next, child as usize, x)
}

// The tree with an accelerator moved to any port of any interconnect.
fn with_acc_moved(t: Tree, d: &mut [usize; 16384]) -> Tree {
    let a = some_acc(t, d);
    let j = some_int(t, d);
    let p = some_port(d);
    let mut x = accelerator_at(t, a);
    let next = with_port_moved(t, Port::Acc(a), x.interconnect, x.port, j, p);
    x.interconnect = j;
    x.port = p;
    with_accelerator(next, a as usize, x)
}

// The tree altered in one way.
pub fn altered(t: Tree, d: &mut [usize; 16384]) -> Tree {
    match number_below(d, 8) {
        0 => with_bus(t, d),
        1 => with_int(t, d),
        2 => with_cell(t, d),
        3 => with_acc(t, d),
        4 => with_count(t, d),
        5 => grown(t, d),
        6 => with_int_moved(t, d),
        _ => with_acc_moved(t, d),
    }
}
