// The words that a refusal is told in: rows of two tables, numbers in a sentence, and bytes in quotes.
ghost use Rattle.std.specs.Prelude.{◌≡◌, map, ◌*◌, eqb, length};
ghost use Rattle.folds.specs.Fold.{pick};
ghost use Rattle.put.specs.Texts.{Puts};
ghost use Rattle.reasons.specs.Words.{part_at, marked, filled, sentence, names, record_row, first_field, field_row, record_name, field_name, printable as shownByte, quoted, record_says, field_says};

use crate::parts::part;
use lines::Kind;
use put::Text;

// A byte of a sentence, or the number where the byte is #.
fn put_marked(text: &mut Text, b: u8, x: u64)
    ensures { Puts 20 text.old (marked b x) text.new }
{
    if b == b'#' {
        text.number(x);
    } else {
        text.byte(b);
    }
}

// The number for the next #, after the byte b.
fn next_number(b: u8, x: u64, y: u64) -> u64
    ensures { result ≡ pick (eqb b 35) y x }
{
    if b == b'#' { y } else { x }
}

// A sentence with x in place of its first # and y in place of each later one.
fn put_filled(text: &mut Text, s: &[u8], x: u64, y: u64)
    ensures { Puts (20 * length s.now) text.old (filled s.now x y) text.new }
{
    let mut z = x;
    for b in s {
        put_marked(text, *b, z);
        z = next_number(*b, z, y);
    }
}

// Row j of the sentences, with x and y in it.
// A table by row and no enum: rows 1 to 12 are the refusals of these numbers, which come as numbers, and the definitions count the rows.
pub fn put_sentence(text: &mut Text, j: usize, x: u64, y: u64)
    ensures { Puts 48000 text.old (sentence j x y) text.new }
{
    let sentences = b"no refusal has this number\n\
        wrong shape: record name, field count, malformed number or missing last LF\n\
        a value is outside its limits, or a total is over its limit\n\
        wrong order or numbering, an interconnect that no line before names, \"-\" against the root rule, or a missing record\n\
        the port is already taken by a line before\n\
        the level would be 5, and 4 is the highest\n\
        the slot is smaller than in the line before\n\
        the tree has no such accelerator\n\
        phi transactions already outstanding\n\
        budget of this window used\n\
        slot count is 4294967295\n\
        configuration or state breaks its rules\n\
        0, or above what this run, of at most 65536 slots, serves of the accelerator\n\
        a byte order mark stands before the record name\n\
        a CR stands in the line, which ends in LF alone\n\
        a space stands in the line, whose fields are parted by one tab\n\
        the last line does not end in LF\n\
        the line is empty\n\
        \x20is no record: a tree has bus or bus3, int and acc, a trace has o\n\
        this is a line of a trace, in place of a tree\n\
        this is a line of a tree, in place of a trace\n\
        \x20has # fields, and # were found\n\
        \x20is no number: decimal, 1 to 10 digits, no sign, no leading zero\n\
        \x20stands only for parent and port of int 0\n\
        the counts of accelerator # total more than 65535\n\
        # of interconnect # is already taken by a line before\n\
        below interconnect # the level would be 5, and 4 is the highest\n\
        # is smaller than # in the line before\n\
        the tree has no accelerator #\n\
        : wrong order: one bus or bus3 line comes first, and no other\n\
        \x20#: wrong order: int lines are 0, 1, 2 and on without a gap, after the bus or bus3 line and before the acc lines; \
        parent and port are \"-\" on int 0 alone, and a parent is smaller than its child\n\
        \x20#: wrong order: acc lines come after the int lines, each number once, on an interconnect that an int line names\n\
        the file ends too early: the bus or bus3 line, int 0, an acc line, or an acc number below the highest is missing\n\
        above 65536, the limit of a file's bytes and of SLOTS\n\
        \x20has # fields, or one more for the return delay, and # were found\n\
        the lent buffer is shorter than the text of the tree\n\
        the accelerator has no transactions on this channel\n\
        a burst has 1 to 256 beats, 1 to 16 where the tree begins with bus3, and a beat has 1, 2, 4, 8, 16, 32, 64 or 128 bytes\n\
        the burst crosses a multiple of 4096\n";
    put_filled(text, part(sentences, 10, j), x, y);
}

// Row k of the names.
// A table by row and no match on record and field, which would have an arm for each of the 32 rows.
fn put_name(text: &mut Text, k: usize)
    ensures { Puts 139 text.old (part_at 10 k names) text.new }
{
    let names = b"P\ntA\ndA\ndD\ndB\npR\npW\ntD\ntB\nB\nr\n\
        number\nparent\nport\ng\n\
        number\ninterconnect\nport\nphi\nbudget\nNr\nNw\nC\nT\n\
        slot\naccelerator\ncount\n\
        bus\nint\nacc\no\nbus3\n";
    text.bytes(part(names, 10, k));
}

fn record_row(kind: Kind) -> usize
    ensures { result ≡ record_row kind }
{
    match kind {
        Kind::NoRecord => 32,
        Kind::BusLine => 27,
        Kind::IntLine => 28,
        Kind::AccLine => 29,
        Kind::OfferLine => 30,
        Kind::Bus3Line => 31,
    }
}

fn first_field(kind: Kind) -> usize
    ensures { result ≡ first_field kind }
{
    match kind {
        Kind::NoRecord => 32,
        Kind::BusLine | Kind::Bus3Line => 0,
        Kind::IntLine => 11,
        Kind::AccLine => 15,
        Kind::OfferLine => 24,
    }
}

fn field_row(kind: Kind, i: usize) -> usize
    ensures { result ≡ field_row kind i }
{
    if i < 11 {
        return first_field(kind) + i;
    }
    32
}

fn put_record(text: &mut Text, kind: Kind)
    ensures { Puts 139 text.old (record_name kind) text.new }
{
    put_name(text, record_row(kind));
}

// The names of a record and of its field i.
pub fn put_field_name(text: &mut Text, kind: Kind, i: usize)
    ensures { Puts 300 text.old (field_name kind i) text.new }
{
    put_record(text, kind);
    text.bytes(b", field ");
    put_name(text, field_row(kind, i));
    text.bytes(b": ");
}

fn printable(b: u8) -> u8
    ensures { result ≡ shownByte b }
{
    if (32 <= b) & (b <= 126) { b } else { b'?' }
}

fn put_printable(text: &mut Text, s: &[u8])
    ensures { Puts (length s.now) text.old (map shownByte s.now) text.new }
{
    for b in s {
        text.byte(printable(*b));
    }
}

// The first 20 bytes in quotes.
pub fn put_quoted(text: &mut Text, s: &[u8])
    ensures { Puts 22 text.old (quoted s.now) text.new }
{
    text.byte(b'"');
    put_printable(text, &s[..s.len().min(20)]);
    text.byte(b'"');
}

// Sentence j, said of a record.
pub fn put_of_record(text: &mut Text, kind: Kind, j: usize, x: u64, y: u64)
    ensures { Puts 48139 text.old (record_says kind j x y) text.new }
{
    put_record(text, kind);
    put_sentence(text, j, x, y);
}

// Sentence j, said of field i of a record.
pub fn put_of_field(text: &mut Text, kind: Kind, i: usize, j: usize, x: u64, y: u64)
    ensures { Puts 48300 text.old (field_says kind i j x y) text.new }
{
    put_field_name(text, kind, i);
    put_sentence(text, j, x, y);
}
