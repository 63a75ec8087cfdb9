// A line whose values are refused: a field outside its limits, a total, a wrong order, a taken port, a level, a slot, an accelerator.
ghost use Rattle.std.specs.Prelude.{◌≡◌};
ghost use Rattle.put.specs.Texts.{Puts};
ghost use Rattle.reasons.specs.Reasons.{outside, range_text, limit_text, total_text, value_text, on_port, is_int, order_row, number_row, line_says};

use crate::shapes::fits;
use crate::words::{put_field_name, put_of_field, put_of_record, put_sentence};
use lines::{Kind, form_of};
use put::Text;

// The first field that is outside its limits, or the count of the fields.
fn first_outside(kind: Kind, values: [u64; 11]) -> usize
    ensures { result ≡ outside kind values }
{
    let f = form_of(kind);
    for i in 0..f.count {
        if !((f.lows[i] <= values[i]) & (values[i] <= f.highs[i])) {
            return i;
        }
    }
    f.count
}

// What was found, and the limits.
fn put_range(text: &mut Text, value: u64, low: u64, high: u64)
    ensures { Puts 79 text.old (range_text value low high) text.new }
{
    text.number(value);
    text.bytes(b" is not within ");
    text.number(low);
    text.bytes(b" to ");
    text.number(high);
}

// A field that is outside its limits: which one, what was found, and the limits.
fn put_limit(text: &mut Text, kind: Kind, i: usize, value: u64, low: u64, high: u64)
    ensures { Puts 500 text.old (limit_text kind i value low high) text.new }
{
    put_field_name(text, kind, i);
    put_range(text, value, low, high);
}

// A total over its limit.
fn put_total(text: &mut Text, kind: Kind, values: [u64; 11])
    ensures { Puts 48300 text.old (total_text kind values) text.new }
{
    if fits(true, kind) {
        put_of_field(text, kind, 2, 24, values[1], 0);
    } else {
        put_sentence(text, 2, 0, 0);
    }
}

// A refusal by 2: the field that is outside its limits, or a total.
fn put_value(text: &mut Text, kind: Kind, values: [u64; 11])
    ensures { Puts 48300 text.old (value_text kind values) text.new }
{
    let i = first_outside(kind, values);
    let f = form_of(kind);
    if i < f.count {
        put_limit(text, kind, i, values[i], f.lows[i], f.highs[i]);
    } else {
        put_total(text, kind, values);
    }
}

// Whether the record takes a port.
fn on_port(kind: Kind) -> bool
    ensures { result ≡ on_port kind }
{
    matches!(kind, Kind::IntLine | Kind::AccLine)
}

fn is_int(kind: Kind) -> bool
    ensures { result ≡ is_int kind }
{
    matches!(kind, Kind::IntLine)
}

// Which sentence tells what is wanted of the order of a record.
fn order_row(kind: Kind) -> usize
    ensures { result ≡ order_row kind }
{
    match kind {
        Kind::NoRecord | Kind::OfferLine => 3,
        Kind::BusLine | Kind::Bus3Line => 29,
        Kind::IntLine => 30,
        Kind::AccLine => 31,
    }
}

// Which sentence tells a refusal by this number in general.
pub fn number_row(number: u8) -> usize
    ensures { result ≡ number_row number }
{
    if 16 < number {
        return 0;
    }
    if 12 < number {
        return 22 + number as usize;
    }
    number as usize
}

// A refusal by a number from 2 on of a line with these fields; `before` is the slot of the line before.
pub fn put_line(text: &mut Text, number: u8, before: u64, kind: Kind, values: [u64; 11])
    ensures { Puts 48300 text.old (line_says number before kind values) text.new }
{
    let trace = fits(true, kind);
    let [x, y, z, ..] = values;
    if number == 2 {
        put_value(text, kind, values);
    } else if (number == 3) & fits(false, kind) {
        put_of_record(text, kind, order_row(kind), x, 0);
    } else if (number == 4) & on_port(kind) {
        put_of_field(text, kind, 2, 25, z, y);
    } else if (number == 5) & is_int(kind) {
        put_of_field(text, kind, 1, 26, y, 0);
    } else if (number == 6) & trace {
        put_of_field(text, kind, 0, 27, x, before);
    } else if (number == 7) & trace {
        put_of_field(text, kind, 1, 28, y, 0);
    } else {
        put_sentence(text, number_row(number), 0, 0);
    }
}
