// What the library answers, field by field, beside what `second` says, and two buffers, byte by byte.
//
// Test code. Each function has its equation: a comparison that says "same" too often hides differences.
#![tactic(auto)]

pub mod exported;

ghost use Rattle.std.specs.Prelude.{◌≡◌};
ghost use Rattle.lines.specs.Answer.{file_answer};
ghost use Rattle.answercheck.specs.Same.{same_flag, same_said, same_request, same_end, same_figures, told_by, told_of, same_told, written_by, written_of, same_written, same_slices, same_bytes};

use bounds::Figures;
use lines::{FileError, answer_line, answer_number};
use model::number;
use second::Said;
use second::past::Told;
use second::queues::Ended;
use second::response::Row;
use second::written::Written;
use trace::Request;
use waits::{Waited, WhyError};
use writer::WriteError;

// Two buffers stand in one array: the library's at its start, and ours from here on.
pub const OURS: usize = 65537;

// Are both true, or both false?
pub fn same_flag(x: bool, y: bool) -> bool
    ensures { result ≡ same_flag x y }
{
    if x {
        return y;
    }
    !y
}

pub fn same_said(answer: Result<(), FileError>, s: Said) -> bool
    ensures { result ≡ same_said (file_answer answer) s }
{
    (answer_number(answer) as usize == s.number) & (answer_line(answer) as usize == s.line)
}

pub fn same_request(r: Request, slot: usize, a: usize, count: usize) -> bool
    ensures { result ≡ same_request r slot a count }
{
    (r.slot as usize == slot) & (r.accelerator as usize == a) & (r.count as usize == count)
}

pub fn same_end(x: Ended, y: Ended) -> bool
    ensures { result ≡ same_end x y }
{
    (x.number == y.number) & (x.line == y.line) & (x.slots == y.slots) & same_flag(x.done, y.done)
}

pub fn same_figures(f: Figures, r: Row) -> bool
    ensures { result ≡ same_figures f r }
{
    let reads = f.reads;
    let writes = f.writes;
    let yr = reads.interference;
    let yw = writes.interference;
    let response = f.response;
    let period = f.period;
    (f.level as usize == r.level)
        & (reads.share as usize == r.sr)
        & (writes.share as usize == r.sw)
        & (yr.0 as usize == r.reads)
        & (yw.0 as usize == r.writes)
        & (response.0 as usize == r.response)
        & (period.0 as usize == r.period)
        & same_flag(f.meets, r.meets)
}

pub fn told_by(number: usize, line: usize, count: usize, slot: usize) -> Told
    ensures { result ≡ told_by number line count slot }
{
    Told {
        number: number,
        line: line,
        count: count,
        slot: slot,
    }
}

// The library's answer in the second implementation's terms.
pub fn told_of(x: Result<Waited, WhyError>) -> Told
    ensures { result ≡ told_of x }
{
    match x {
        Err(WhyError::Run(FileError::Refused(r, line))) => {
            told_by(number(r) as usize, line as usize, 0, 0)
        }
        Err(WhyError::Run(FileError::Broken)) => told_by(11, 0, 0, 0),
        Err(WhyError::Unknown) => told_by(7, 0, 0, 0),
        Err(WhyError::NotServed) => told_by(12, 0, 0, 0),
        Ok(w) => told_by(0, 0, w.count as usize, w.admission as usize),
    }
}

pub fn same_told(x: Told, y: Told) -> bool
    ensures { result ≡ same_told x y }
{
    (x.number == y.number) & (x.line == y.line) & (x.count == y.count) & (x.slot == y.slot)
}

pub fn written_by(number: usize, line: usize, bytes: usize) -> Written
    ensures { result ≡ written_by number line bytes }
{
    Written {
        number: number,
        line: line,
        bytes: bytes,
    }
}

// The library's answer in the second implementation's terms.
pub fn written_of(x: Result<usize, WriteError>) -> Written
    ensures { result ≡ written_of x }
{
    match x {
        Err(WriteError::Broken) => written_by(11, 0, 0),
        Err(WriteError::TooLong) => written_by(2, 0, 0),
        Err(WriteError::TooShort) => written_by(13, 0, 0),
        Ok(bytes) => written_by(0, 0, bytes),
    }
}

pub fn same_written(x: Written, y: Written) -> bool
    ensures { result ≡ same_written x y }
{
    (x.number == y.number) & (x.line == y.line) & (x.bytes == y.bytes)
}

// Have both the same length and the same bytes?
pub fn same_slices(a: &[u8], b: &[u8]) -> bool
    ensures { result ≡ same_slices a.now b.now }
{
    if a.len() != b.len() {
        return false;
    }
    let mut same = true;
    for i in 0..a.len() {
        same &= a[i] == b[i];
    }
    same
}

// Have two pages the same bytes?
pub fn same_pages(a: &[u8; 65536], b: &[u8; 65536]) -> bool
    ensures { result ≡ same_slices a.now b.now }
{
    same_slices(a, b)
}

// Are the first n bytes of the library's half of the array the same as those of ours?
pub fn same_bytes(out: &[u8; 131074], n: usize) -> bool
    ensures { result ≡ same_bytes out.now n }
{
    if OURS < n {
        return false;
    }
    let all = &out[..];
    let to = OURS + n;
    same_slices(&all[0..n], &all[OURS..to])
}
