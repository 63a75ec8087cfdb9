// A refusal in words for a person, from the bytes of the file that is refused, put into a page that the caller lends; and said.
#![tactic(auto)]

mod parts;
mod shapes;
mod values;
mod words;

ghost use Rattle.std.specs.Prelude.{◌≡◌, eqb};
ghost use Rattle.folds.specs.Fold.{pick};
ghost use Rattle.put.specs.Page.{Written};
ghost use Rattle.put.specs.Texts.{Puts};
ghost use Rattle.reasons.specs.Reasons.{number_row, found_text, slot_before, cause_text, place_text, reason_text};

use crate::parts::{part, part_start};
use crate::shapes::{put_fault, shape_fault};
use crate::values::{number_row, put_line};
use crate::words::put_sentence;
use lines::read_line;
use put::Text;
use text::part_end;

// Which sentence tells a refusal that has no line.
fn no_line_row(number: u8) -> usize
    ensures { result ≡ pick (eqb number 2) 33 (number_row number) }
{
    if number == 2 {
        return 33;
    }
    number_row(number)
}

// A refusal of the line whose bytes are l; `ended` says that LF ends it, and `before` is the slot of the line before.
fn put_found(
    text: &mut Text,
    trace: bool,
    number: u8,
    line: u32,
    before: u64,
    ended: bool,
    l: &[u8],
)
    ensures { Puts 48322 text.old (found_text trace number line before ended l.now) text.new }
{
    let r = read_line(l);
    let kind = r.kind;
    let count = r.count;
    let values = r.values;
    if line == 0 {
        put_sentence(text, no_line_row(number), 0, 0);
    } else if number == 1 {
        put_fault(text, shape_fault(trace, line, ended, l), kind, count, l);
    } else if (number == 3) & !ended & (l.len() == 0) {
        put_sentence(text, 32, 0, 0);
    } else {
        put_line(text, number, before, kind, values);
    }
}

// The slot of the line before.
fn slot_before(s: &[u8], line: u32) -> u64
    ensures { result ≡ slot_before s.now line }
{
    let r = read_line(part(s, 10, line.saturating_sub(2) as usize));
    r.values[0]
}

fn put_cause(text: &mut Text, trace: bool, s: &[u8], number: u8, line: u32)
    ensures { Puts 48322 text.old (cause_text trace s.now number line) text.new }
{
    let before = slot_before(s, line);
    let from = part_start(s, 10, line.saturating_sub(1) as usize);
    let rest = &s[from..];
    let n = part_end(rest, 0, 10);
    let ended = n < rest.len();
    put_found(text, trace, number, line, before, ended, &rest[..n]);
}

fn put_place(text: &mut Text, line: u32)
    ensures { Puts 27 text.old (place_text line) text.new }
{
    if line != 0 {
        text.bytes(b"line ");
        text.number(line as u64);
        text.bytes(b": ");
    }
}

fn put_reason(text: &mut Text, trace: bool, s: &[u8], number: u8, line: u32)
    ensures { Puts 48350 text.old (reason_text trace s.now number line) text.new }
{
    put_place(text, line);
    put_cause(text, trace, s, number, line);
    text.byte(b'\n');
}

// The refusal of the file s, a tree or, if `trace`, a trace, by this number at this line, in words for a person.
// Number and line are those of the programs' answers, and `trace` is of the bytes: a struct of them would be made for this call alone.
pub fn reason_text(trace: bool, s: &[u8], number: u8, line: u32, out: &mut [u8; 65536]) -> usize
    ensures { Written (reason_text trace s.now number line) out.old out.new result }
{
    let mut text = Text::new(out);
    put_reason(&mut text, trace, s, number, line);
    text.len()
}

// Says on standard error, for every program, why the file of that name, a tree or, if `trace`, a trace, is refused. Not inlined: a program
// needs the page on its stack for a refusal alone.
#[inline(never)]
pub fn explain(errors: &impl Print, name: &[u8], trace: bool, s: &[u8], number: u8, line: u32) {
    let mut page = [0u8; 65536];
    let n = reason_text(trace, s, number, line, &mut page);
    input::say_of(errors, name, input::filled(&page, n));
}
