// A line of wrong shape: what is most likely wrong, and what was found.
ghost use Rattle.std.specs.Prelude.{◌++◌, ◌≡◌, get_or};
ghost use Rattle.put.specs.Texts.{Puts};
ghost use Rattle.lines.specs.LineText.{may_stand};
ghost use Rattle.reasons.specs.Words.{quoted, sentence};
ghost use Rattle.reasons.specs.Faults.{fault_row};
ghost use Rattle.reasons.specs.Reasons.{has as hasByte, fits as fitsFile, record_fault, shape_row, unread, not_number, unread_text, malformed_text, count_text, fault_text};

use crate::parts::part;
use crate::words::{put_field_name, put_of_record, put_quoted, put_sentence};
use lines::{Kind, Line, form_of, is_record, read_line};
use put::Text;
use text::{Field, part_end, read_field};

// What is wrong with the shape of a line: a mark or a byte that stands in no line, no LF, no byte, no record, a record of the other
// file, a wrong count of fields, or a field that is malformed.
#[derive(Clone, Copy, PartialEq, Eq)]
pub enum Fault {
    ByteOrderMark,
    CarriageReturn,
    Space,
    Unended,
    Empty,
    NoRecord,
    OfTrace,
    OfTree,
    FieldCount,
    Malformed,
}

// Whether the byte stands in the line.
fn has(b: u8, l: &[u8]) -> bool
    ensures { result ≡ hasByte b l.now }
{
    part_end(l, 0, b) < l.len()
}

fn first_byte(l: &[u8]) -> u8
    ensures { result ≡ get_or l.now 0 0 }
{
    l.first().copied().unwrap_or(0)
}

// Whether a line of this record may stand in a tree or, if `trace`, in a trace.
pub fn fits(trace: bool, kind: Kind) -> bool
    ensures { result ≡ fitsFile trace kind }
{
    match kind {
        Kind::NoRecord => false,
        Kind::OfferLine => trace,
        Kind::BusLine | Kind::IntLine | Kind::AccLine | Kind::Bus3Line => !trace,
    }
}

// What is wrong with the shape of a line, by its record and its fields.
fn record_fault(trace: bool, r: Line) -> Fault
    ensures { fault_row result ≡ record_fault trace r }
{
    let kind = r.kind;
    let f = form_of(kind);
    if !is_record(kind) {
        return Fault::NoRecord;
    }
    if !fits(trace, kind) {
        return if trace { Fault::OfTree } else { Fault::OfTrace };
    }
    if (f.least <= r.count) & (r.count <= f.count) {
        return Fault::Malformed;
    }
    Fault::FieldCount
}

// What is wrong with the shape of a line of the bytes l; `ended` says that LF ends it.
pub fn shape_fault(trace: bool, line: u32, ended: bool, l: &[u8]) -> Fault
    ensures { fault_row result ≡ shape_row trace line ended l.now }
{
    if (line == 1) & (first_byte(l) == 239) {
        return Fault::ByteOrderMark;
    }
    if has(13, l) {
        return Fault::CarriageReturn;
    }
    if has(32, l) {
        return Fault::Space;
    }
    if !ended {
        return Fault::Unended;
    }
    if l.len() == 0 {
        return Fault::Empty;
    }
    record_fault(trace, read_line(l))
}

// Whether a field may stand; `dash` says that "-" may.
fn may_stand(dash: bool, f: Field) -> bool
    ensures { result ≡ may_stand dash f }
{
    match f {
        Field::Malformed => false,
        Field::Dash => dash,
        Field::Number(x) => x < 10000000000,
    }
}

// The first field that may not stand, or the count of the fields.
fn first_unread(kind: Kind, l: &[u8]) -> usize
    ensures { result ≡ unread kind l.now }
{
    let f = form_of(kind);
    for i in 0..f.count {
        if !may_stand(f.dashes[i], read_field(part(l, 9, i + 1))) {
            return i;
        }
    }
    f.count
}

// Which sentence tells that a field may not stand.
fn not_number(f: Field) -> usize
    ensures { result ≡ not_number f }
{
    if matches!(f, Field::Dash) { 23 } else { 22 }
}

// Field i, whose bytes are x, may not stand.
fn put_unread(text: &mut Text, kind: Kind, i: usize, x: &[u8])
    ensures { Puts 48322 text.old (unread_text kind i x.now) text.new }
{
    put_field_name(text, kind, i);
    put_quoted(text, x);
    put_sentence(text, not_number(read_field(x)), 0, 0);
}

// A line of a record with a field that may not stand.
fn put_malformed(text: &mut Text, kind: Kind, l: &[u8])
    ensures { Puts 48322 text.old (malformed_text kind l.now) text.new }
{
    let i = first_unread(kind, l);
    let f = form_of(kind);
    if i < f.count {
        put_unread(text, kind, i, part(l, 9, i + 1));
    } else {
        put_sentence(text, 1, 0, 0);
    }
}

// The name that no record has.
fn put_no_record(text: &mut Text, name: &[u8])
    ensures { Puts 48022 text.old (quoted name.now ++ sentence 18 0 0) text.new }
{
    put_quoted(text, name);
    put_sentence(text, 18, 0, 0);
}

// A line of a record has this count of fields, which is not the count that it may have.
fn put_count(text: &mut Text, kind: Kind, count: usize)
    ensures { Puts 48139 text.old (count_text kind count) text.new }
{
    let f = form_of(kind);
    if f.least == f.count {
        put_of_record(text, kind, 21, f.count as u64, count as u64);
    } else {
        put_of_record(text, kind, 34, f.least as u64, count as u64);
    }
}

// What is wrong with the shape of the bytes l, which have this record and this count of fields.
pub fn put_fault(text: &mut Text, fault: Fault, kind: Kind, count: usize, l: &[u8])
    ensures { Puts 48322 text.old (fault_text (fault_row fault) kind count l.now) text.new }
{
    match fault {
        Fault::NoRecord => put_no_record(text, part(l, 9, 0)),
        Fault::FieldCount => put_count(text, kind, count),
        Fault::Malformed => put_malformed(text, kind, l),
        Fault::ByteOrderMark => put_sentence(text, 13, 0, 0),
        Fault::CarriageReturn => put_sentence(text, 14, 0, 0),
        Fault::Space => put_sentence(text, 15, 0, 0),
        Fault::Unended => put_sentence(text, 16, 0, 0),
        Fault::Empty => put_sentence(text, 17, 0, 0),
        Fault::OfTrace => put_sentence(text, 19, 0, 0),
        Fault::OfTree => put_sentence(text, 20, 0, 0),
    }
}
