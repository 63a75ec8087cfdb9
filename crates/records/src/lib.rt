// What the fields of a record make of the tree read so far; whether its line may stand in the file is for `placing` to say.
//
// Each public function answers on any values: a record that cannot be held leaves the tree as it is.
#![tactic(auto)]

ghost use Rattle.std.specs.Prelude.{◌≡◌, true, ◌<◌};
ghost use Rattle.lines.specs.Lines.{bus_kind, limits_kept};
ghost use Rattle.records.specs.Records.{empty_tree, bus_of, with_port, with_interconnect, acc_of, bus_stored, has_room, root_stored, child_stored, acc_stored};

use lines::{Kind, limits_kept};
use model::{Accelerator, Bus, Interconnect, Port, PortCell, Tree};

// The tree before the first line.
pub fn empty_tree() -> Tree
    ensures { result ≡ empty_tree }
{
    let bus = Bus {
        window: 0,
        ta: 0,
        da: 0,
        dd: 0,
        db: 0,
        pr: 0,
        pw: 0,
        td: 0,
        tb: 0,
        burst: 0,
        delay: 0,
        axi3: false,
    };
    let ports = [PortCell { port: Port::Empty }; 8];
    let interconnect = Interconnect {
        parent: 0,
        port: 0,
        granularity: 0,
        ports: ports,
    };
    let accelerator = Accelerator {
        interconnect: 0,
        port: 0,
        phi: 0,
        budget: 0,
        reads: 0,
        writes: 0,
        computing: 0,
        period: 0,
    };
    Tree {
        bus: bus,
        interconnects: [interconnect; 15],
        accelerators: [accelerator; 32],
        ints: 0,
        accs: 0,
    }
}

// The record of a bus: bus3 where it speaks AXI3.
fn bus_kind(axi3: bool) -> Kind
    ensures { result ≡ bus_kind axi3 }
{
    if axi3 {
        return Kind::Bus3Line;
    }
    Kind::BusLine
}

fn bus_of(axi3: bool, v: [u64; 11]) -> Bus
    requires { limits_kept (bus_kind axi3) v ≡ true }
    ensures { result ≡ bus_of axi3 v }
{
    Bus {
        window: v[0] as u16,
        ta: v[1] as u8,
        da: v[2] as u8,
        dd: v[3] as u8,
        db: v[4] as u8,
        pr: v[5] as u16,
        pw: v[6] as u16,
        td: v[7] as u8,
        tb: v[8] as u8,
        burst: v[9] as u16,
        delay: v[10] as u8,
        axi3: axi3,
    }
}

// The fields v of a bus line stored, or of a bus3 line, where the bus speaks AXI3.
pub fn store_bus(t: Tree, axi3: bool, v: [u64; 11]) -> Tree
    ensures { result ≡ bus_stored t axi3 v }
{
    if !limits_kept(bus_kind(axi3), v) {
        return t;
    }
    let b = bus_of(axi3, v);
    let mut r = t;
    r.bus = b;
    r
}

fn with_port(t: Tree, j: u8, p: u8, x: Port) -> Tree
    requires { (j < 15) × (p < 8) }
    ensures { result ≡ with_port t j p x }
{
    let i = j as usize;
    let q = p as usize;
    let mut r = t;
    let mut c = t.interconnects[i];
    c.ports[q] = PortCell { port: x };
    r.interconnects[i] = c;
    r
}

fn with_interconnect(t: Tree, j: u8, parent: u8, port: u8, g: u8) -> Tree
    requires { (j < 15) × (t.ints < 255) }
    ensures { result ≡ with_interconnect t j parent port g }
{
    let i = j as usize;
    let ports = [PortCell { port: Port::Empty }; 8];
    let mut r = t;
    r.interconnects[i] = Interconnect {
        parent: parent,
        port: port,
        granularity: g,
        ports: ports,
    };
    r.ints = t.ints + 1;
    r
}

fn has_room(t: Tree, v: [u64; 11]) -> bool
    ensures { result ≡ has_room t v }
{
    limits_kept(Kind::IntLine, v) & (t.ints < 15)
}

// The fields v of the root's int line stored: number, "-", "-", g.
pub fn store_root(t: Tree, v: [u64; 11]) -> Tree
    ensures { result ≡ root_stored t v }
{
    if !has_room(t, v) {
        return t;
    }
    with_interconnect(t, 0, 0, 0, v[3] as u8)
}

// The fields v of another int line stored: number, parent, port, g.
pub fn store_child(t: Tree, v: [u64; 11]) -> Tree
    ensures { result ≡ child_stored t v }
{
    if !has_room(t, v) {
        return t;
    }
    let j = v[0] as u8;
    let parent = v[1] as u8;
    let port = v[2] as u8;
    let above = with_port(t, parent, port, Port::Int(j));
    with_interconnect(above, j, parent, port, v[3] as u8)
}

fn acc_of(v: [u64; 11]) -> Accelerator
    requires { limits_kept Kind.AccLine v ≡ true }
    ensures { result ≡ acc_of v }
{
    Accelerator {
        interconnect: v[1] as u8,
        port: v[2] as u8,
        phi: v[3] as u8,
        budget: v[4] as u16,
        reads: v[5] as u16,
        writes: v[6] as u16,
        computing: v[7] as u32,
        period: v[8] as u32,
    }
}

// The fields v of an acc line stored.
pub fn store_acc(t: Tree, v: [u64; 11]) -> Tree
    ensures { result ≡ acc_stored t v }
{
    if !limits_kept(Kind::AccLine, v) {
        return t;
    }
    let a = v[0] as u8;
    let i = a as usize;
    let x = acc_of(v);
    let mut r = with_port(t, v[1] as u8, v[2] as u8, Port::Acc(a));
    r.accelerators[i] = x;
    r.accs = t.accs.max(a + 1);
    r
}
