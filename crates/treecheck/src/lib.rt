// The library's tree, entry by entry, beside the rows of `second`: whether it is the tree that the rows say, and whether a
// tree file could have given it.
//
// Test code: it is proved that each function is safe and ends, and of the comparison which number of the store it compares with
// which entry of the tree.
#![tactic(auto)]

ghost use Rattle.std.specs.Prelude.{◌≡◌, ◌&&◌};
ghost use Rattle.folds.specs.Fold.{all};
ghost use Rattle.model.specs.Tree.{interconnect_of, accelerator_of};
ghost use Rattle.treecheck.specs.Same.{same_numbers, same_name, same_bus, code_of, place_said, grain_said, same_int, same_ports, same_ints, entry_said, same_acc, same_accs, same_tree};

use model::access::{accelerator_at, interconnect_at, port_at};
use model::{Accelerator, Bus, Interconnect, Port, Tree};
use second::book::{NOTHING, acc_row, accs, carried, cell, int_row, ints, is_older};
use second::entries::{
    acc_fits, begin, break_rules, bus_fits, bus3_fits, int_fits, put_dash, put_entry,
};

fn same_numbers(b: Bus, d: &[usize; 16384]) -> bool
    ensures { result ≡ same_numbers b d.now }
{
    (b.window as usize == cell(d, 0, 0))
        & (b.ta as usize == cell(d, 0, 1))
        & (b.da as usize == cell(d, 0, 2))
        & (b.dd as usize == cell(d, 0, 3))
        & (b.db as usize == cell(d, 0, 4))
        & (b.pr as usize == cell(d, 0, 5))
        & (b.pw as usize == cell(d, 0, 6))
        & (b.td as usize == cell(d, 0, 7))
        & (b.tb as usize == cell(d, 0, 8))
        & (b.burst as usize == cell(d, 0, 9))
}

// Is the bus line named bus3 in the rows exactly if the tree is one of AXI3?
fn same_name(axi3: bool, d: &[usize; 16384]) -> bool
    ensures { result ≡ same_name axi3 d.now }
{
    axi3 == is_older(d)
}

// The ten numbers that each bus line has, the return delay, and the record name.
fn same_bus(b: Bus, d: &[usize; 16384]) -> bool
    ensures { result ≡ same_bus b d.now }
{
    same_numbers(b, d) & (b.delay as usize == cell(d, 0, 10)) & same_name(b.axi3, d)
}

// What a port of the library's tree carries, as the rows say it.
fn code(x: Port) -> usize
    ensures { result ≡ code_of x }
{
    match x {
        Port::Empty => NOTHING,
        Port::Acc(a) => a as usize,
        Port::Int(i) => i as usize + 32,
    }
}

fn same_ports(t: Tree, i: u8, d: &[usize; 16384]) -> bool
    ensures { result ≡ same_ports t i d.now }
{
    let mut same = true;
    for p in 0..8u8 {
        same = same & (code(port_at(t, i, p)) == carried(d, i as usize, p as usize));
    }
    same
}

// A column of interconnect i that says where it is. The root has 0 there, and so has one that is not in the tree.
fn place_said(d: &[usize; 16384], i: usize, column: usize) -> usize
    ensures { result ≡ place_said d.now i column }
{
    if i == 0 {
        return 0;
    }
    if i < ints(d) {
        return cell(d, int_row(i), column);
    }
    0
}

// The granularity of interconnect i, or 0 where it is not in the tree.
fn grain_said(d: &[usize; 16384], i: usize) -> usize
    ensures { result ≡ grain_said d.now i }
{
    if i < ints(d) {
        return cell(d, int_row(i), 3);
    }
    0
}

fn same_int(x: Interconnect, i: usize, d: &[usize; 16384]) -> bool
    ensures { result ≡ same_int x i d.now }
{
    (x.parent as usize == place_said(d, i, 1))
        & (x.port as usize == place_said(d, i, 2))
        & (x.granularity as usize == grain_said(d, i))
}

// The number in a column of accelerator a, or 0 where there is no such accelerator.
fn entry(d: &[usize; 16384], a: usize, column: usize) -> usize
    ensures { result ≡ entry_said d.now a column }
{
    if a < accs(d) {
        return cell(d, acc_row(d, a), column);
    }
    0
}

fn same_acc(x: Accelerator, a: usize, d: &[usize; 16384]) -> bool
    ensures { result ≡ same_acc x a d.now }
{
    (x.interconnect as usize == entry(d, a, 1))
        & (x.port as usize == entry(d, a, 2))
        & (x.phi as usize == entry(d, a, 3))
        & (x.budget as usize == entry(d, a, 4))
        & (x.reads as usize == entry(d, a, 5))
        & (x.writes as usize == entry(d, a, 6))
        & (x.computing as usize == entry(d, a, 7))
        & (x.period as usize == entry(d, a, 8))
}

fn same_interconnect(t: Tree, i: u8, d: &[usize; 16384]) -> bool
    ensures { result ≡ (same_int (interconnect_of t i) i d.now && same_ports t i d.now) }
{
    same_int(interconnect_at(t, i), i as usize, d) & same_ports(t, i, d)
}

fn same_interconnects(t: Tree, d: &[usize; 16384]) -> bool
    ensures { result ≡ all 15 (λ i. same_int (interconnect_of t i) i d.now && same_ports t i d.now) }
{
    let mut same = true;
    for i in 0..15u8 {
        same = same & same_interconnect(t, i, d);
    }
    same
}

fn same_accelerators(t: Tree, d: &[usize; 16384]) -> bool
    ensures { result ≡ all 32 (λ a. same_acc (accelerator_of t a) a d.now) }
{
    let mut same = true;
    for a in 0..32u8 {
        same = same & same_acc(accelerator_at(t, a), a as usize, d);
    }
    same
}

fn same_ints(t: Tree, d: &[usize; 16384]) -> bool
    ensures { result ≡ same_ints t d.now }
{
    (t.ints as usize == ints(d)) & same_interconnects(t, d)
}

fn same_accs(t: Tree, d: &[usize; 16384]) -> bool
    ensures { result ≡ same_accs t d.now }
{
    (t.accs as usize == accs(d)) & same_accelerators(t, d)
}

// Is each entry of the library's tree what the rows say?
pub fn same_tree(t: Tree, d: &[usize; 16384]) -> bool
    ensures { result ≡ same_tree t d.now }
{
    same_bus(t.bus, d) & same_ints(t, d) & same_accs(t, d)
}

// The numbers of a line, from field 1 on.
fn put_numbers<const N: usize>(numbers: [usize; N], d: &mut [usize; 16384]) {
    for (i, x) in numbers.iter().enumerate() {
        put_entry(d, i.wrapping_add(1), *x);
    }
}

// The bus line, named bus3 if the tree is one of AXI3.
fn put_bus(b: Bus, d: &mut [usize; 16384]) -> bool {
    let numbers = [
        b.window as usize,
        b.ta as usize,
        b.da as usize,
        b.dd as usize,
        b.db as usize,
        b.pr as usize,
        b.pw as usize,
        b.td as usize,
        b.tb as usize,
        b.burst as usize,
        b.delay as usize,
    ];
    put_numbers(numbers, d);
    if b.axi3 {
        return bus3_fits(d);
    }
    bus_fits(d)
}

// The line of interconnect i; that of the root has "-" for parent and port.
fn put_int(x: Interconnect, i: usize, d: &mut [usize; 16384]) -> bool {
    let numbers = [
        i,
        x.parent as usize,
        x.port as usize,
        x.granularity as usize,
    ];
    put_numbers(numbers, d);
    if i == 0 {
        put_dash(d, 2);
        put_dash(d, 3);
    }
    int_fits(d)
}

fn put_acc(x: Accelerator, a: usize, d: &mut [usize; 16384]) -> bool {
    let numbers = [
        a,
        x.interconnect as usize,
        x.port as usize,
        x.phi as usize,
        x.budget as usize,
        x.reads as usize,
        x.writes as usize,
        x.computing as usize,
        x.period as usize,
    ];
    put_numbers(numbers, d);
    acc_fits(d)
}

// The int lines: the sixteenth, if there is one, does not fit.
fn put_ints(t: Tree, d: &mut [usize; 16384]) -> bool {
    let mut fit = true;
    for i in 0..t.ints.min(16) {
        fit = put_int(interconnect_at(t, i), i as usize, d) & fit;
    }
    fit
}

fn put_accs(t: Tree, d: &mut [usize; 16384]) -> bool {
    let mut fit = true;
    for a in 0..t.accs.min(33) {
        fit = put_acc(accelerator_at(t, a), a as usize, d) & fit;
    }
    fit
}

// Is the tree the empty one, as beside a refusal? The rows are left empty.
pub fn is_empty(t: Tree, d: &mut [usize; 16384]) -> bool {
    begin(d);
    same_tree(t, d)
}

// Could a tree file have given the tree: do its lines fit, is there an accelerator, and is each of its entries what they say? The
// rows are left with them.
pub fn judge(t: Tree, d: &mut [usize; 16384]) -> bool {
    begin(d);
    let bus = put_bus(t.bus, d);
    let ints = put_ints(t, d);
    let accs = put_accs(t, d);
    let keeps = bus & ints & accs & (0 < t.accs) & same_tree(t, d);
    if !keeps {
        break_rules(d);
    }
    keeps
}
