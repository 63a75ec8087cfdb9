// The text of a configuration, written into a lent buffer: the bus line, the int lines by number, and the acc lines by interconnect and
// then by port. That is the order of the ports in the tree, so nothing is sorted.
#![tactic(auto)]

ghost use Rattle.std.specs.Prelude.{◌≡◌, map, length};
ghost use Rattle.text.specs.Write.{fields_text, numbers, line_text, rows, file_text};
ghost use Rattle.put.specs.Page.{ended};
ghost use Rattle.writer.specs.Lines.{bus_as, bus_written, int_text, acc_written, acc_text};
ghost use Rattle.writer.specs.Writer.{carried_by, carried_in, port_order, written_text, write_of, write_buffer, Stored};
ghost use Rattle.writer.specs.Adds.{Adds};
ghost use Rattle.writer.specs.Answers.{write_means};

use model::access::{accelerator_at, interconnect_at, port_at};
use model::{Accelerator, Bus, Port, Tree};
use put::Text;
use rules::tree_keeps;

// Why no text is written: the configuration breaks its rules, the buffer is over 65,536 bytes, or it is shorter than the text.
#[derive(Clone, Copy, PartialEq, Eq)]
pub enum WriteError {
    Broken,
    TooLong,
    TooShort,
}

// The numbers, each after a tab.
fn put_fields(text: &mut Text, values: &[u64])
    ensures { Adds text.old (fields_text (numbers values.now)) text.new }
{
    for x in values {
        text.byte(b'\t');
        text.number(*x);
    }
}

// A line: its record name, the numbers, and LF.
fn put_line(text: &mut Text, name: &[u8], values: &[u64])
    ensures { Adds text.old (ended (line_text name.now (numbers values.now))) text.new }
{
    text.bytes(name);
    put_fields(text, values);
    text.byte(b'\n');
}

// The bus line, under this record name; a return delay of 0 is left out.
fn put_bus_as(text: &mut Text, name: &[u8], b: Bus)
    ensures { Adds text.old (ended (bus_as name.now b)) text.new }
{
    let delay = b.delay as u64;
    let burst = b.burst as u64;
    let values = [
        b.window as u64,
        b.ta as u64,
        b.da as u64,
        b.dd as u64,
        b.db as u64,
        b.pr as u64,
        b.pw as u64,
        b.td as u64,
        b.tb as u64,
        burst,
        delay,
    ];
    if delay == 0 {
        put_line(text, name, &values[..10]);
    } else {
        put_line(text, name, &values);
    }
}

// The bus line, under its own record name.
fn put_bus(text: &mut Text, b: Bus)
    ensures { Adds text.old (ended (bus_written b)) text.new }
{
    if b.axi3 {
        put_bus_as(text, b"bus3", b);
    } else {
        put_bus_as(text, b"bus", b);
    }
}

// The int line of interconnect j.
fn put_int(text: &mut Text, t: Tree, j: u8)
    ensures { Adds text.old (ended (int_text t j)) text.new }
{
    let x = interconnect_at(t, j);
    let g = x.granularity as u64;
    if j == 0 {
        put_line(text, b"int\t0\t-\t-", &[g]);
    } else {
        put_line(text, b"int", &[j as u64, x.parent as u64, x.port as u64, g]);
    }
}

fn put_ints(text: &mut Text, t: Tree)
    ensures { Adds text.old (file_text (rows t.ints 0 (int_text t))) text.new }
{
    for j in 0..t.ints {
        put_int(text, t, j);
    }
}

// The acc line of accelerator x, whose number is a.
fn put_acc(text: &mut Text, a: u8, x: Accelerator)
    ensures { Adds text.old (ended (acc_written a x)) text.new }
{
    let values = [
        a as u64,
        x.interconnect as u64,
        x.port as u64,
        x.phi as u64,
        x.budget as u64,
        x.reads as u64,
        x.writes as u64,
        x.computing as u64,
        x.period as u64,
    ];
    put_line(text, b"acc", &values);
}

// The acc line of the accelerator that the port carries, if it carries one.
fn put_carried(text: &mut Text, t: Tree, port: Port)
    ensures { Adds text.old (file_text (map (acc_text t) (carried_by port))) text.new }
{
    match port {
        Port::Acc(a) => put_acc(text, a, accelerator_at(t, a)),
        Port::Empty | Port::Int(_) => {}
    }
}

// The acc lines of interconnect j, by port.
fn put_ports(text: &mut Text, t: Tree, j: u8)
    ensures { Adds text.old (file_text (map (acc_text t) (carried_in t j))) text.new }
{
    for p in 0..8 {
        put_carried(text, t, port_at(t, j, p));
    }
}

// The acc lines, by interconnect.
fn put_accs(text: &mut Text, t: Tree)
    ensures { Adds text.old (file_text (map (acc_text t) (port_order t))) text.new }
{
    for j in 0..t.ints {
        put_ports(text, t, j);
    }
}

fn put_tree(text: &mut Text, t: Tree)
    ensures { Adds text.old (written_text t) text.new }
{
    put_bus(text, t.bus);
    put_ints(text, t);
    put_accs(text, t);
}

// The text of the configuration, at the start of a buffer that has room for every text: the longest has 1,973 bytes.
fn tree_text(t: Tree, out: &mut [u8; 2048]) -> usize
    ensures { Stored (written_text t) out.old 0 out.new result }
{
    let mut text = Text::new(out);
    put_tree(&mut text, t);
    text.len()
}

// Writes the text of the configuration at the start of `out`, and answers how many bytes it has. It is put together in a buffer of its
// own, so that nothing is written before its length is known.
pub fn write_tree(t: Tree, out: &mut [u8]) -> Result<usize, WriteError>
    ensures answer { write_means result ≡ write_of t (length out.old) }
    ensures bytes { out.new ≡ write_buffer t out.old }
{
    if !tree_keeps(t) {
        return Err(WriteError::Broken);
    }
    if 65536 < out.len() {
        return Err(WriteError::TooLong);
    }
    let mut page = [0u8; 2048];
    let n = tree_text(t, &mut page);
    if out.len() < n {
        return Err(WriteError::TooShort);
    }
    out[..n].copy_from_slice(&page[..n]);
    Ok(n)
}
