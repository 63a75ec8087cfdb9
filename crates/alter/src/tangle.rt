// A tree with its interconnects in a cycle, with a block on two ports, or with an unused entry that is not zero: no tree file could
// have given it.
use crate::{byte, with_acc_entry, with_accelerator, with_int_entry, with_interconnect, with_port};
use generator::number_below;
use model::access::{accelerator_at, interconnect_at, port_at};
use model::{Port, Tree};

// The ways.
#[derive(Clone, Copy, PartialEq, Eq)]
pub enum Way {
    // A port of an interconnect names one above it,
    Cycle,
    // an interconnect and its parent name each other, their records too,
    EachOther,
    // a second port names an accelerator,
    AcceleratorTwice,
    // or an interconnect,
    InterconnectTwice,
    // a number in an unused interconnect,
    UnusedInterconnect,
    // or in an unused accelerator,
    UnusedAccelerator,
    // or a port of an unused interconnect.
    UnusedPort,
}

pub const WAYS: [Way; 7] = [
    Way::Cycle,
    Way::EachOther,
    Way::AcceleratorTwice,
    Way::InterconnectTwice,
    Way::UnusedInterconnect,
    Way::UnusedAccelerator,
    Way::UnusedPort,
];

// A number from 1 to 255.
fn not_zero(d: &mut [usize; 16384]) -> u8 {
    byte(number_below(d, 255) % 255 + 1)
}

// An interconnect of the tree below the root, if there is one.
fn lower(t: Tree, d: &mut [usize; 16384]) -> Option<u8> {
    if t.ints < 2 {
        return None;
    }
    Some(byte(number_below(d, t.ints as usize - 1) % 14 + 1))
}

// The first empty port of interconnect j, from port p on and going round.
fn empty_port(t: Tree, j: u8, p: usize) -> Option<u8> {
    for q in 0..8usize {
        let at = byte((p % 8 + q) % 8);
        if matches!(port_at(t, j, at), Port::Empty) {
            return Some(at);
        }
    }
    None
}

fn with_cycle(t: Tree, d: &mut [usize; 16384]) -> Tree {
    let Some(j) = lower(t, d) else {
        return t;
    };
    let x = interconnect_at(t, j);
    let mut above = x.parent;
    if number_below(d, 2) == 0 {
        above = 0;
    }
    with_port(t, j, byte(number_below(d, 8)), Port::Int(above))
}

// Interconnect j and its parent i name each other by their records and by an empty port p of j; nothing else names i.
fn with_each_other(t: Tree, j: u8, i: u8, p: u8) -> Tree {
    let old = interconnect_at(t, i);
    let mut next = t;
    if i != 0 {
        next = with_port(t, old.parent, old.port, Port::Empty);
    }
    next = with_port(next, j, p, Port::Int(i));
    let mut x = interconnect_at(next, i);
    x.parent = j;
    x.port = p;
    with_interconnect(next, i as usize, x)
}

fn each_other(t: Tree, d: &mut [usize; 16384]) -> Tree {
    let below = lower(t, d);
    let first = number_below(d, 8);
    let Some(j) = below else {
        return t;
    };
    let Some(p) = empty_port(t, j, first) else {
        return t;
    };
    let x = interconnect_at(t, j);
    with_each_other(t, j, x.parent, p)
}

// The block on an empty port of some interconnect too, if that has one.
fn with_second_port(t: Tree, x: Port, d: &mut [usize; 16384]) -> Tree {
    let j = byte(number_below(d, t.ints as usize) % 15);
    let Some(p) = empty_port(t, j, number_below(d, 8)) else {
        return t;
    };
    with_port(t, j, p, x)
}

fn interconnect_twice(t: Tree, d: &mut [usize; 16384]) -> Tree {
    let Some(j) = lower(t, d) else {
        return t;
    };
    with_second_port(t, Port::Int(j), d)
}

// An interconnect past the last one of the tree, if there is one.
fn unused(t: Tree, d: &mut [usize; 16384]) -> Option<u8> {
    let ints = t.ints as usize;
    if 15 <= ints {
        return None;
    }
    Some(byte(ints + number_below(d, 15 - ints) % 15))
}

fn with_unused_interconnect(t: Tree, d: &mut [usize; 16384]) -> Tree {
    let Some(i) = unused(t, d) else {
        return t;
    };
    let x = with_int_entry(interconnect_at(t, i), number_below(d, 3), not_zero(d));
    with_interconnect(t, i as usize, x)
}

fn with_unused_port(t: Tree, d: &mut [usize; 16384]) -> Tree {
    let Some(i) = unused(t, d) else {
        return t;
    };
    let p = byte(number_below(d, 8));
    if number_below(d, 2) == 0 {
        return with_port(t, i, p, Port::Acc(byte(number_below(d, 32))));
    }
    with_port(t, i, p, Port::Int(byte(number_below(d, 15))))
}

fn with_unused_accelerator(t: Tree, d: &mut [usize; 16384]) -> Tree {
    let accs = t.accs as usize;
    if 32 <= accs {
        return t;
    }
    let a = accs + number_below(d, 32 - accs) % 32;
    let which = number_below(d, 8);
    let n = not_zero(d);
    let x = with_acc_entry(accelerator_at(t, byte(a)), which, n as usize);
    with_accelerator(t, a, x)
}

fn accelerator_twice(t: Tree, d: &mut [usize; 16384]) -> Tree {
    let a = byte(number_below(d, t.accs as usize));
    with_second_port(t, Port::Acc(a), d)
}

// The tree altered in one of the ways; the tree itself where it has no room for that.
pub fn tangled(t: Tree, way: Way, d: &mut [usize; 16384]) -> Tree {
    match way {
        Way::Cycle => with_cycle(t, d),
        Way::EachOther => each_other(t, d),
        Way::AcceleratorTwice => accelerator_twice(t, d),
        Way::InterconnectTwice => interconnect_twice(t, d),
        Way::UnusedInterconnect => with_unused_interconnect(t, d),
        Way::UnusedAccelerator => with_unused_accelerator(t, d),
        Way::UnusedPort => with_unused_port(t, d),
    }
}
