// The reader of a trace file. The requests stay in the file's bytes: a trace is read once as a whole, to accept or refuse
// it, and then walked line by line from the bytes.
#![tactic(auto)]

ghost use Rattle.std.specs.Prelude.{◌≡◌, true, ◌+◌, ◌<◌, ◌≤◌, ltb, get_or};
ghost use Rattle.lines.specs.Answer.{file_answer};
ghost use Rattle.lines.specs.Lines.{limits_kept};
ghost use Rattle.trace.specs.OfferText.{number_at, offer_text, offer_of};
ghost use Rattle.trace.specs.TraceFile.{request_of, offer_line, read_trace, read_requests, request_at};

use lines::{FileError, Kind, limits_kept};
use model::{Refusal, Tree};
use rules::tree_keeps;
use text::{Field, field_end, read_field, same_bytes};

// An o line of a trace: so many transactions of an accelerator are requested at a slot.
#[derive(Clone, Copy)]
pub struct Request {
    pub slot: u32,
    pub accelerator: u8,
    pub count: u8,
}

// What a line of a trace says that passes test 1 of a line: slot, accelerator and count, and the place after its LF.
#[derive(Clone, Copy)]
pub struct OfferText {
    pub slot: u64,
    pub accelerator: u64,
    pub count: u64,
    pub next: usize,
}

// The number in the field that begins at a place of the file and that the byte `sep` ends, and the place after that byte. The field
// is a part of the file.
fn number_at(s: &[u8], at: usize, sep: u8) -> Option<(u64, usize)>
    ensures { result ≡ number_at s.now at sep }
{
    let end = field_end(s, at);
    if s.len() <= end {
        return None;
    }
    if s[end] != sep {
        return None;
    }
    match read_field(&s[at..end]) {
        Field::Number(x) => Some((x, end + 1)),
        Field::Malformed | Field::Dash => None,
    }
}

// The line that begins at a place of the file, where it passes test 1 of a line. It is read in one pass, with no search for its LF
// before.
fn offer_at(s: &[u8], at: usize) -> Option<OfferText>
    ensures { result ≡ offer_text s.now at }
{
    let end = field_end(s, at);
    if s.len() <= end {
        return None;
    }
    if s[end] != 9 {
        return None;
    }
    if !same_bytes(&s[at..end], b"o") {
        return None;
    }
    let (slot, second) = number_at(s, end + 1, 9)?;
    let (accelerator, third) = number_at(s, second, 9)?;
    let (count, next) = number_at(s, third, 10)?;
    Some(OfferText {
        slot: slot,
        accelerator: accelerator,
        count: count,
        next: next,
    })
}

// Test 2 of an o line, field by field.
fn in_limits(l: OfferText) -> bool
    ensures { result ≡ limits_kept Kind.OfferLine (offer_of l.slot l.accelerator l.count).values }
{
    limits_kept(
        Kind::OfferLine,
        [l.slot, l.accelerator, l.count, 0, 0, 0, 0, 0, 0, 0, 0],
    )
}

fn request_of(l: OfferText) -> Request
    requires { (limits_kept Kind.OfferLine (offer_of l.slot l.accelerator l.count).values ≡ true) × (l.accelerator < 256) }
    ensures { result ≡ request_of (offer_of l.slot l.accelerator l.count).values }
{
    Request {
        slot: l.slot as u32,
        accelerator: l.accelerator as u8,
        count: l.count as u8,
    }
}

fn over_total(total: u32, count: u8) -> bool
    ensures { result ≡ ltb 65535 (total + count) }
{
    65535 < total as u64 + count as u64
}

// The tests after test 1 of one line of a trace, after lines that end with slot `last` and add up to `totals`.
fn offer_line(accs: u8, last: u32, totals: &[u32; 32], l: OfferText) -> Result<Request, Refusal>
    requires { accs ≤ 32 }
    ensures { result ≡ offer_line accs last totals.now (offer_of l.slot l.accelerator l.count) }
{
    if !in_limits(l) {
        return Err(Refusal::Limit);
    }
    if accs as u64 <= l.accelerator {
        return Err(Refusal::Unknown);
    }
    let r = request_of(l);
    if r.slot < last {
        return Err(Refusal::Falling);
    }
    let a = r.accelerator as usize;
    if over_total(totals[a], r.count) {
        return Err(Refusal::Limit);
    }
    Ok(r)
}

// Whether the trace is accepted on a configuration of so many accelerators, whose rules were checked before, or why and at which
// line it is refused. Of none and of more than 32 there is no such configuration, and the answer is `Broken`.
pub fn read_requests(accs: u8, s: &[u8]) -> Result<(), FileError>
    ensures { file_answer result ≡ read_requests accs s.now }
{
    if !((1 <= accs) & (accs <= 32)) {
        return Err(FileError::Broken);
    }
    if 65536 < s.len() {
        return Err(FileError::Refused(Refusal::Limit, 0));
    }
    let mut totals = [0u32; 32];
    let mut last: u32 = 0;
    let mut at = 0;
    let mut n: u32 = 1;
    // A `while`: a line begins where the one before it ends, so no index is counted.
    while at < s.len() {
        let Some(l) = offer_at(s, at) else {
            return Err(FileError::Refused(Refusal::Shape, n));
        };
        // The line is put beside the refusal here: with `map_err` over a closure the proof did not close.
        let r = match offer_line(accs, last, &totals, l) {
            Ok(r) => r,
            Err(why) => return Err(FileError::Refused(why, n)),
        };
        let a = r.accelerator as usize;
        totals[a] = totals[a] + r.count as u32;
        last = r.slot;
        at = l.next;
        n += 1;
    }
    Ok(())
}

// Whether the trace is accepted on this configuration, or why and at which line it is refused.
pub fn read_trace(t: Tree, s: &[u8]) -> Result<(), FileError>
    ensures { file_answer result ≡ read_trace t s.now }
{
    if tree_keeps(t) {
        return read_requests(t.accs, s);
    }
    Err(FileError::Broken)
}

// The request on the line that begins at `at`, and the place after the line; none where no such line is there.
pub fn request_at(s: &[u8], at: usize) -> Option<(Request, usize)>
    ensures { result ≡ request_at s.now at }
{
    let l = offer_at(s, at)?;
    if !(in_limits(l) & (l.accelerator < 32)) {
        return None;
    }
    Some((request_of(l), l.next))
}
