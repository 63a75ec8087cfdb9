// A line of a file read into a struct, and tested against the form of its record; what a reader of files answers.
//
// Shape and limits of all records stand in one table. A line is placed only after both are tested.
#![tactic(auto)]

ghost use Rattle.std.specs.Prelude.{◌≡◌, ◌<◌};
ghost use Rattle.lines.specs.Answer.{file_answer, answer_number, answer_line};
ghost use Rattle.lines.specs.Lines.{kind_of, named, push, line_of, plain_form, bus_form, form_of, dashes_kept, limits_kept, is_record, shaped};

use model::{Refusal, number};
use text::{Field, part_end, read_field, same_bytes};

// What a line's record name says.
#[derive(Clone, Copy)]
pub enum Kind {
    NoRecord,
    BusLine,
    IntLine,
    AccLine,
    OfferLine,
    Bus3Line,
}

// A line: its record name, how many fields follow it, whether one of them is malformed, and of the first eleven which are
// "-" and the numbers of the others. A field that is no number, or is absent, is held as 0.
#[derive(Clone, Copy)]
pub struct Line {
    pub kind: Kind,
    pub count: usize,
    pub malformed: bool,
    pub dashes: [bool; 11],
    pub values: [u64; 11],
}

// The fields of a record: how many at least and at most, which may be "-", and the limits of each.
#[derive(Clone, Copy)]
pub struct Form {
    pub least: usize,
    pub count: usize,
    pub dashes: [bool; 11],
    pub lows: [u64; 11],
    pub highs: [u64; 11],
}

fn kind_of(name: &[u8]) -> Kind
    ensures { result ≡ kind_of name.now }
{
    if same_bytes(name, b"bus") {
        return Kind::BusLine;
    }
    if same_bytes(name, b"int") {
        return Kind::IntLine;
    }
    if same_bytes(name, b"acc") {
        return Kind::AccLine;
    }
    if same_bytes(name, b"o") {
        return Kind::OfferLine;
    }
    if same_bytes(name, b"bus3") {
        return Kind::Bus3Line;
    }
    Kind::NoRecord
}

// A line of which only the record name is read.
fn begun(kind: Kind) -> Line
    ensures { result ≡ named kind }
{
    Line {
        kind: kind,
        count: 0,
        malformed: false,
        dashes: [false; 11],
        values: [0; 11],
    }
}

// The line with one field more. Past the eleventh, fields are only counted.
fn with_field(l: Line, f: Field) -> Line
    requires { l.count < 9223372036854775808 }
    ensures { result ≡ push l f }
{
    let mut r = l;
    let i = l.count;
    r.count = i + 1;
    match f {
        Field::Malformed => {
            r.malformed = true;
            r
        }
        Field::Dash => {
            if i < 11 {
                r.dashes[i] = true;
            }
            r
        }
        Field::Number(x) => {
            if i < 11 {
                r.values[i] = x;
            }
            r
        }
    }
}

// A line of a file: a part of it, without the LF. Each field is a part of the line.
pub fn read_line(s: &[u8]) -> Line
    ensures { result ≡ line_of s.now }
{
    let mut end = part_end(s, 0, 9);
    let mut r = begun(kind_of(&s[0..end]));
    // A `while`: a field begins where the one before it ends, so no index is counted.
    while end < s.len() {
        let at = end + 1;
        end = part_end(s, at, 9);
        r = with_field(r, read_field(&s[at..end]));
    }
    r
}

// Parent and port of an int line may be "-".
const ROOT_DASHES: [bool; 11] = [
    false, true, true, false, false, false, false, false, false, false, false,
];

const ACC_HIGHS: [u64; 11] = [
    31, 14, 7, 16, 1024, 65535, 65535, 4294967295, 4294967295, 0, 0,
];

// The form of a record that has no "-".
fn plain_form(least: usize, count: usize, lows: [u64; 11], highs: [u64; 11]) -> Form
    ensures { result ≡ plain_form least count lows highs }
{
    Form {
        least: least,
        count: count,
        dashes: [false; 11],
        lows: lows,
        highs: highs,
    }
}

// The form of a bus line and of a bus3 line, where a burst has at most so many beats.
fn bus_form(beats: u64) -> Form
    ensures { result ≡ bus_form beats }
{
    plain_form(
        10,
        11,
        [1, 1, 0, 0, 0, 0, 0, 1, 1, 1, 0],
        [65535, 255, 255, 255, 255, 4095, 4095, 255, 255, beats, 15],
    )
}

// The form of each kind of line.
pub fn form_of(kind: Kind) -> Form
    ensures { result ≡ form_of kind }
{
    match kind {
        Kind::NoRecord => plain_form(0, 0, [0; 11], [0; 11]),
        Kind::BusLine => bus_form(256),
        Kind::IntLine => Form {
            least: 4,
            count: 4,
            dashes: ROOT_DASHES,
            lows: [0, 0, 0, 1, 0, 0, 0, 0, 0, 0, 0],
            highs: [14, 14, 7, 16, 0, 0, 0, 0, 0, 0, 0],
        },
        Kind::AccLine => plain_form(9, 9, [0, 0, 0, 1, 1, 0, 0, 0, 1, 0, 0], ACC_HIGHS),
        Kind::OfferLine => plain_form(
            3,
            3,
            [0, 0, 1, 0, 0, 0, 0, 0, 0, 0, 0],
            [4294967294, 9999999999, 16, 0, 0, 0, 0, 0, 0, 0, 0],
        ),
        Kind::Bus3Line => bus_form(16),
    }
}

// Each field that is "-" may be "-".
fn dashes_kept(kind: Kind, dashes: [bool; 11]) -> bool
    ensures { result ≡ dashes_kept kind dashes }
{
    let f = form_of(kind);
    let mut ok = true;
    for i in 0..f.count {
        ok &= f.dashes[i] | !dashes[i];
    }
    ok
}

pub fn is_record(kind: Kind) -> bool
    ensures { result ≡ is_record kind }
{
    !matches!(kind, Kind::NoRecord)
}

// Test 1 of a line.
pub fn shape_kept(l: Line) -> bool
    ensures { result ≡ shaped l }
{
    let kind = l.kind;
    let dashes = l.dashes;
    let f = form_of(kind);
    let counted = (f.least <= l.count) & (l.count <= f.count);
    is_record(kind) & counted & !l.malformed & dashes_kept(kind, dashes)
}

// Test 2 of a line, field by field.
pub fn limits_kept(kind: Kind, values: [u64; 11]) -> bool
    ensures { result ≡ limits_kept kind values }
{
    let f = form_of(kind);
    let mut ok = true;
    for i in 0..f.count {
        ok &= (f.lows[i] <= values[i]) & (values[i] <= f.highs[i]);
    }
    ok
}

// Why a file is not accepted: refused, with the line; or refused because the configuration breaks its rules, which has no line.
#[derive(Clone, Copy, PartialEq, Eq)]
pub enum FileError {
    Refused(Refusal, u32),
    Broken,
}

// The number of a refusal in document 01's table; 0 where the file is accepted.
pub fn answer_number(a: Result<(), FileError>) -> u8
    ensures { result ≡ answer_number (file_answer a) }
{
    match a {
        Ok(()) => 0,
        Err(FileError::Refused(r, _)) => number(r),
        Err(FileError::Broken) => 11,
    }
}

// The line of a refusal; 0 where it has none.
pub fn answer_line(a: Result<(), FileError>) -> u32
    ensures { result ≡ answer_line (file_answer a) }
{
    match a {
        Err(FileError::Refused(_, n)) => n,
        _ => 0,
    }
}
