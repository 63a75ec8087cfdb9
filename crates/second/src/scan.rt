// The second reader's first half: a file is taken byte by byte. What has been seen of the current line is a Scan, and the
// fields that are closed stand in the store, as numbers.
use crate::{Said, answer};
use store::{get, put};

// A record name is held as one number, and no enum, since this reader takes a line byte by byte: a 1 and then its bytes, in base 256.
pub const BUS: usize = 23229811;

pub const BUS3: usize = 5946831667;

pub const INT: usize = 23686772;

pub const ACC: usize = 23159651;

pub const OFFER: usize = 367;

// Where the fields of the current line stand, the first after the record name at 1; and what stands for "-".
const FIELDS: usize = 544;

pub const DASH: usize = 1099511627776;

// What has been seen of a line: its number, how many fields are closed, the record name; and of the open field how many
// bytes it has, its number, and whether it is "-". `bad` once the shape is wrong.
#[derive(Clone, Copy)]
pub struct Scan {
    pub line: usize,
    pub fields: usize,
    pub name: usize,
    pub bytes: usize,
    pub number: usize,
    pub dash: bool,
    pub bad: bool,
}

pub fn line_start(line: usize) -> Scan {
    Scan {
        line: line,
        fields: 0,
        name: 1,
        bytes: 0,
        number: 0,
        dash: false,
        bad: false,
    }
}

// Has the line a byte?
pub fn begun(s: Scan) -> bool {
    (s.fields != 0) | (s.bytes != 0)
}

fn spoilt(mut s: Scan) -> Scan {
    s.bad = true;
    s
}

// A byte of the record name, which has at most four.
fn name_byte(mut s: Scan, b: u8) -> Scan {
    if 3 < s.bytes {
        return spoilt(s);
    }
    let longer = (s.name % 4294967296) * 256 + (b as usize);
    s.name = longer;
    s.bytes = s.bytes.wrapping_add(1);
    s
}

fn dash_byte(mut s: Scan) -> Scan {
    if s.bytes != 0 {
        return spoilt(s);
    }
    s.dash = true;
    s.bytes = 1;
    s
}

// A digit: not the eleventh, not after "-", not after a first 0.
fn digit_byte(mut s: Scan, b: u8) -> Scan {
    if b < 48 {
        return spoilt(s);
    }
    if 57 < b {
        return spoilt(s);
    }
    if s.dash | (9 < s.bytes) | ((s.bytes == 1) & (s.number == 0)) {
        return spoilt(s);
    }
    let digit = (b - 48) as usize;
    s.number = (s.number % 10000000000) * 10 + digit;
    s.bytes = s.bytes.wrapping_add(1);
    s
}

// A byte within a field.
pub fn field_byte(s: Scan, b: u8) -> Scan {
    if s.fields == 0 {
        return name_byte(s, b);
    }
    if b == 45 {
        return dash_byte(s);
    }
    digit_byte(s, b)
}

// The open field ends. An empty one is wrong.
pub fn close_field(mut s: Scan, d: &mut [usize; 16384]) -> Scan {
    if s.bytes == 0 {
        s.bad = true;
    }
    let mut x = s.number;
    if s.dash {
        x = DASH;
    }
    set_field(d, s.fields, x);
    s.fields = s.fields.wrapping_add(1);
    s.bytes = 0;
    s.number = 0;
    s.dash = false;
    s
}

pub fn field(d: &[usize; 16384], i: usize) -> usize {
    get(d, FIELDS, i)
}

pub fn set_field(d: &mut [usize; 16384], i: usize, x: usize) {
    put(d, FIELDS, i % 16, x);
}

pub fn set_dash(d: &mut [usize; 16384], i: usize) {
    set_field(d, i, DASH);
}

pub fn is_dash(d: &[usize; 16384], i: usize) -> bool {
    field(d, i) == DASH
}

// Is one of the fields 1 to n "-"?
pub fn any_dash(d: &[usize; 16384], n: usize) -> bool {
    (1..=n).any(|i| is_dash(d, i))
}

pub fn within(d: &[usize; 16384], i: usize, low: usize, high: usize) -> bool {
    let x = field(d, i);
    (low <= x) & (x <= high)
}

// Takes the lines of a file, of each of which `judge` gives the number of its refusal, or 0: what there is after the last line, or the
// answer on the first that is refused.
pub fn read_lines<F: Fn(Scan, &mut [usize; 16384]) -> usize>(
    s: &[u8],
    d: &mut [usize; 16384],
    judge: F,
) -> Result<Scan, Said>
    requires { F.IsAlwaysCallable judge }
{
    let mut scan = line_start(1);
    for b in s {
        if *b == b'\n' {
            let number = judge(close_field(scan, d), d);
            if number != 0 {
                return Err(answer(number, scan.line));
            }
            scan = line_start(scan.line.wrapping_add(1));
        } else if *b == b'\t' {
            scan = close_field(scan, d);
        } else {
            scan = field_byte(scan, *b);
        }
    }
    Ok(scan)
}
