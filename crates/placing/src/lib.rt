// A line of a tree file placed in what is read so far, which is held as a tree: before the bus line its window is 0, and an
// accelerator whose line is not read yet has phi 0. What the line's fields make of the tree is in `records`.
#![tactic(auto)]

ghost use Rattle.std.specs.Prelude.{◌≡◌, true, ltb};
ghost use Rattle.folds.specs.Fold.{all};
ghost use Rattle.rules.specs.Rules.{is_empty};
ghost use Rattle.model.specs.Tree.{port_of, phi_of};
ghost use Rattle.lines.specs.Lines.{bus_kind, limits_kept, in_tree};
ghost use Rattle.records.specs.Records.{has_room};
ghost use Rattle.placing.specs.Placing.{tree_read, refused_at, given, bus_line, int_in_order, root_rule, child_line, int_line, acc_line, finish, tree_line};

use lines::{FileError, Kind, Line, limits_kept, shape_kept};
use model::access::{accelerator_at, level_of, port_at};
use model::{Port, Refusal, Tree};
use records::{empty_tree, store_acc, store_bus, store_child, store_root};

// A tree file's answer, with the tree that it gives. On a refusal the tree is empty.
#[derive(Clone, Copy)]
pub struct TreeReply {
    pub answer: Result<(), FileError>,
    pub tree: Tree,
}

// Refused at line n, with the empty tree.
pub fn refused(r: Refusal, n: u32) -> TreeReply
    ensures { tree_read result ≡ refused_at r n }
{
    TreeReply {
        answer: Err(FileError::Refused(r, n)),
        tree: empty_tree(),
    }
}

fn accepted(t: Tree) -> TreeReply
    ensures { tree_read result ≡ given t }
{
    TreeReply {
        answer: Ok(()),
        tree: t,
    }
}

fn bus_line(n: u32, t: Tree, axi3: bool, v: [u64; 11]) -> TreeReply
    requires { limits_kept (bus_kind axi3) v ≡ true }
    ensures { tree_read result ≡ bus_line n t axi3 v }
{
    if 0 < t.bus.window {
        return refused(Refusal::Order, n);
    }
    accepted(store_bus(t, axi3, v))
}

// Parent and port of the root are "-", those of any other interconnect numbers, the parent the smaller one.
fn root_rule(l: Line) -> bool
    ensures { result ≡ root_rule l }
{
    if l.values[0] == 0 {
        return l.dashes[1] & l.dashes[2];
    }
    !l.dashes[1] & !l.dashes[2] & (l.values[1] < l.values[0])
}

fn int_in_order(t: Tree, l: Line) -> bool
    ensures { result ≡ int_in_order t l }
{
    (0 < t.bus.window) & (t.accs == 0) & (l.values[0] == t.ints as u64) & root_rule(l)
}

fn is_free(t: Tree, j: u8, p: u8) -> bool
    ensures { result ≡ is_empty (port_of t j p) }
{
    let x = port_at(t, j, p);
    match x {
        Port::Empty => true,
        Port::Acc(_) => false,
        Port::Int(_) => false,
    }
}

fn child_line(n: u32, t: Tree, v: [u64; 11]) -> TreeReply
    requires { has_room t v ≡ true }
    ensures { tree_read result ≡ child_line n t v }
{
    let parent = v[1] as u8;
    let port = v[2] as u8;
    if !is_free(t, parent, port) {
        return refused(Refusal::Taken, n);
    }
    if 4 <= level_of(t, parent) {
        return refused(Refusal::Level, n);
    }
    accepted(store_child(t, v))
}

fn int_line(n: u32, t: Tree, l: Line) -> TreeReply
    requires { limits_kept Kind.IntLine l.values ≡ true }
    ensures { tree_read result ≡ int_line n t l }
{
    let v = l.values;
    if !int_in_order(t, l) {
        return refused(Refusal::Order, n);
    }
    if v[0] == 0 {
        return accepted(store_root(t, v));
    }
    child_line(n, t, v)
}

fn acc_line(n: u32, t: Tree, v: [u64; 11]) -> TreeReply
    requires { limits_kept Kind.AccLine v ≡ true }
    ensures { tree_read result ≡ acc_line n t v }
{
    let a = v[0] as u8;
    let j = v[1] as u8;
    let p = v[2] as u8;
    if t.ints <= j {
        return refused(Refusal::Order, n);
    }
    let x = accelerator_at(t, a);
    if 0 < x.phi {
        return refused(Refusal::Order, n);
    }
    if !is_free(t, j, p) {
        return refused(Refusal::Taken, n);
    }
    accepted(store_acc(t, v))
}

// Each accelerator number below the highest was read.
fn no_gap(t: Tree) -> bool
    ensures { result ≡ all t.accs (λ a. ltb 0 (phi_of t a)) }
{
    let mut ok = true;
    for a in 0..t.accs {
        ok &= 0 < accelerator_at(t, a).phi;
    }
    ok
}

// The end of the file: nothing may be missing. n is the line after the last.
pub fn finished(n: u32, t: Tree) -> TreeReply
    ensures { tree_read result ≡ finish n t }
{
    if (0 < t.bus.window) & (0 < t.ints) & (0 < t.accs) & no_gap(t) {
        return accepted(t);
    }
    refused(Refusal::Order, n)
}

fn in_tree(kind: Kind) -> bool
    ensures { result ≡ in_tree kind }
{
    !matches!(kind, Kind::NoRecord | Kind::OfferLine)
}

// One line of a tree file, line n, on the tree read so far.
pub fn tree_line(n: u32, t: Tree, l: Line) -> TreeReply
    ensures { tree_read result ≡ tree_line n t l }
{
    let kind = l.kind;
    let v = l.values;
    if !(in_tree(kind) & shape_kept(l)) {
        return refused(Refusal::Shape, n);
    }
    if !limits_kept(kind, v) {
        return refused(Refusal::Limit, n);
    }
    match kind {
        Kind::BusLine => bus_line(n, t, false, v),
        Kind::IntLine => int_line(n, t, l),
        Kind::AccLine => acc_line(n, t, v),
        Kind::Bus3Line => bus_line(n, t, true, v),
        Kind::NoRecord | Kind::OfferLine => refused(Refusal::Shape, n),
    }
}
