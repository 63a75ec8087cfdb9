// What the static library exports, each field of each answer beside what `second` says.
ghost use Rattle.std.specs.Prelude.{◌≡◌, eqb};
ghost use Rattle.folds.specs.Fold.{pick};
ghost use Rattle.answercheck.specs.Same.{same_reading, kind_of, same_outcome, kind_told, same_wait, same_row, same_page, same_count, same_cut, join_number, same_joined};

use crate::same_flag;
use answers::{Count, Cut, Joined as JoinReply, Outcome, Reading, Row, Wait};
use razhikum::Page;
use second::Said;
use second::bursts::{DONE, Joined};
use second::past::Told;
use second::queues::Ended;
use second::response::Row as Expected;

// The file that a reading names: this one if it is refused.
fn named(file: usize, number: usize) -> usize
    ensures { result ≡ pick (eqb number 0) 0 file }
{
    if number == 0 {
        return 0;
    }
    file
}

pub fn same_reading(r: Reading, file: usize, s: Said) -> bool
    ensures { result ≡ same_reading r file s }
{
    (r.number as usize == s.number)
        & (r.line as usize == s.line)
        & (r.file as usize == named(file, s.number))
}

// A run that ended so on an accepted tree: 0 done, 1 stopped, 3 refused.
pub fn kind_of(e: Ended) -> usize
    ensures { result ≡ kind_of e }
{
    if e.number == 0 {
        if e.done {
            return 0;
        }
        return 1;
    }
    3
}

pub fn same_outcome(x: Outcome, kind: usize, e: Ended) -> bool
    ensures { result ≡ same_outcome x kind e }
{
    (x.kind as usize == kind)
        & (x.number as usize == e.number)
        & (x.line as usize == e.line)
        & (x.slots as usize == e.slots)
}

// A wait that is answered so on an accepted tree: 0 told, 4 refused by the accelerator or the number, which have no line, and 3 by
// the trace or the size of the buffer.
pub fn kind_told(w: Told) -> usize
    ensures { result ≡ kind_told w }
{
    if w.number == 0 {
        return 0;
    }
    if (w.line == 0) & (w.number != 2) {
        return 4;
    }
    3
}

pub fn same_wait(x: Wait, kind: usize, w: Told) -> bool
    ensures { result ≡ same_wait x kind w }
{
    (x.kind as usize == kind)
        & (x.number as usize == w.number)
        & (x.line as usize == w.line)
        & (x.count as usize == w.count)
        & (x.slot as usize == w.slot)
}

pub fn same_row(x: Row, s: Said, r: Expected) -> bool
    ensures { result ≡ same_row x s r }
{
    (x.number as usize == s.number)
        & (x.line as usize == s.line)
        & (x.level as usize == r.level)
        & (x.sr as usize == r.sr)
        & (x.sw as usize == r.sw)
        & (x.yr as usize == r.reads)
        & (x.yw as usize == r.writes)
        & (x.response as usize == r.response)
        & (x.period as usize == r.period)
        & same_flag(x.meets, r.meets)
}

pub fn same_page(x: Page, n: usize, s: Said) -> bool
    ensures { result ≡ same_page x n s }
{
    (x.bytes == n) & (x.number as usize == s.number) & (x.line as usize == s.line)
}

pub fn same_count(x: Count, n: usize, s: Said) -> bool
    ensures { result ≡ same_count x n s }
{
    (x.accelerators as usize == n) & (x.number as usize == s.number) & (x.line as usize == s.line)
}

// A split, refused so or into n pieces.
pub fn same_cut(x: Cut, n: usize, s: Said) -> bool
    ensures { result ≡ same_cut x n s }
{
    (x.pieces as usize == n) & (x.number as usize == s.number) & (x.line as usize == s.line)
}

// The number of what the joiner says: 0 for taken and for done.
fn join_number(code: usize) -> usize
    ensures { result ≡ join_number code }
{
    if code == DONE {
        return 0;
    }
    code
}

pub fn same_joined(x: JoinReply, y: Joined) -> bool
    ensures { result ≡ same_joined x y }
{
    (x.number as usize == join_number(y.code))
        & same_flag(x.done, y.code == DONE)
        & (x.pieces as usize == y.pieces)
        & (x.answered as usize == y.answered)
}
