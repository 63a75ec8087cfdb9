// What a reader, a run, a wait, a bound, the splitter and the joiner answer, as numbers: an enum cannot cross to C, so each exported
// function of `razhikum` answers a struct of these.
//
// Every answer carries document 01's number of a refusal, 0 where nothing is refused, and the refusal's line, 0 where it
// has none.
#![tactic(auto)]

ghost use Rattle.std.specs.Prelude.{◌≡◌};
ghost use Rattle.runner.specs.Answers.{run_means};
ghost use Rattle.waits.specs.Answers.{why_means};
ghost use Rattle.bounds.specs.Bounds.{meaning_of};
ghost use Rattle.burst.specs.Answers.{join_outcome};
ghost use Rattle.lines.specs.Answer.{file_answer};
ghost use Rattle.answers.specs.Numbers.{channel_number, channel_of, file_refused, reading_of, accepted_count, count_of, outcome_of, refused_by};
ghost use Rattle.answers.specs.Numbers.{tree_refused, no_wait, wait_of, row_of, unbounded, cut_of, joined_of};

use bounds::Figures;
use burst::joiner::{JoinReply, Progress};
use lines::{FileError, answer_line, answer_number};
use model::{Channel, Refusal, number};
use runner::RunEnd;
use splitting::Part;
use usage::Denied;
use waits::{Waited, WhyError};

// Numbers for kinds and refusals, in this struct and those below: the C interface.
// What a reader answers. `file` says which file is refused: 0 neither, 1 the tree, 2 the trace.
#[repr(C)]
#[derive(Clone, Copy)]
pub struct Reading {
    pub file: u8,
    pub number: u8,
    pub line: u32,
}

// How a run ended. `kind` is 0 for done, 1 for stopped, 2 where the tree is refused, 3 where the trace or the size of the
// buffer is, 4 where the number of the channel is. `slots` is the number of slots used, 0 on a refusal.
#[repr(C)]
#[derive(Clone, Copy)]
pub struct Outcome {
    pub kind: u8,
    pub number: u8,
    pub line: u32,
    pub slots: u32,
}

// How a transaction waited. `kind` is 0 where it is told, 2 where the tree is refused, 3 where the trace or the size of the buffer
// is, 4 where the channel, the accelerator or the number is, without a line. `count` is the number of slots that it waited, `slot` that of its
// admission: both 0 on a refusal.
#[repr(C)]
#[derive(Clone, Copy)]
pub struct Wait {
    pub kind: u8,
    pub number: u8,
    pub line: u32,
    pub count: u32,
    pub slot: u32,
}

// The bounds of an accelerator, by the names of the report's columns: all 0 and not met on a refusal.
#[repr(C)]
#[derive(Clone, Copy)]
pub struct Row {
    pub number: u8,
    pub line: u32,
    pub level: u8,
    pub meets: bool,
    pub sr: u64,
    pub sw: u64,
    pub yr: u64,
    pub yw: u64,
    pub response: u64,
    pub period: u64,
}

// How a burst is cut: the count of its pieces, 0 on a refusal.
#[repr(C)]
#[derive(Clone, Copy)]
pub struct Cut {
    pub number: u8,
    pub line: u32,
    pub pieces: u32,
}

// What the joiner answers to the answer of a piece: `number` is 11 where it is refused, and `done` says that it was the last. The other
// two are the joiner that comes back.
#[repr(C)]
#[derive(Clone, Copy)]
pub struct Joined {
    pub number: u8,
    pub done: bool,
    pub pieces: u32,
    pub answered: u32,
}

// How many accelerators a tree has: 0 on a refusal.
#[repr(C)]
#[derive(Clone, Copy)]
pub struct Count {
    pub number: u8,
    pub line: u32,
    pub accelerators: u8,
}

// The number of a channel.
pub fn channel_number(channel: Channel) -> u8
    ensures { result ≡ channel_number channel }
{
    match channel {
        Channel::Read => 0,
        Channel::Write => 1,
    }
}

// The channel of a number, for a caller that has checked that it is one: any but 0 gives the write channel.
// No TryFrom: it answers every number, which its clause promises, and the exports refuse the others before.
pub fn channel_of(number: u8) -> Channel
    ensures { result ≡ channel_of number }
{
    if number == 0 {
        return Channel::Read;
    }
    Channel::Write
}

// Which file is refused: `file`, or 0 where it is accepted.
fn file_refused(file: u8, answer: Result<(), FileError>) -> u8
    ensures { result ≡ file_refused file (file_answer answer) }
{
    if answer.is_ok() {
        return 0;
    }
    file
}

// What a reader answers of that file.
pub fn reading_of(file: u8, answer: Result<(), FileError>) -> Reading
    ensures { result ≡ reading_of file (file_answer answer) }
{
    Reading {
        file: file_refused(file, answer),
        number: answer_number(answer),
        line: answer_line(answer),
    }
}

// How many accelerators an accepted tree has.
fn accepted_count(answer: Result<(), FileError>, accelerators: u8) -> u8
    ensures { result ≡ accepted_count (file_answer answer) accelerators }
{
    if answer.is_ok() {
        return accelerators;
    }
    0
}

// How many accelerators the tree of that answer has.
pub fn count_of(answer: Result<(), FileError>, accelerators: u8) -> Count
    ensures { result ≡ count_of (file_answer answer) accelerators }
{
    Count {
        number: answer_number(answer),
        line: answer_line(answer),
        accelerators: accepted_count(answer, accelerators),
    }
}

// How a run ended.
pub fn outcome_of(answer: Result<RunEnd, FileError>) -> Outcome
    ensures { result ≡ outcome_of (run_means answer) }
{
    match answer {
        Err(FileError::Refused(r, n)) => refused_by(3, number(r), n),
        Err(FileError::Broken) => refused_by(3, 11, 0),
        Ok(RunEnd::Done(n)) => Outcome {
            kind: 0,
            number: 0,
            line: 0,
            slots: n,
        },
        Ok(RunEnd::Stopped(n)) => Outcome {
            kind: 1,
            number: 0,
            line: 0,
            slots: n,
        },
    }
}

// A run that does not begin: refused in that kind, by that number, at that line.
pub fn refused_by(kind: u8, number: u8, at: u32) -> Outcome
    ensures { result ≡ refused_by kind number at }
{
    Outcome {
        kind: kind,
        number: number,
        line: at,
        slots: 0,
    }
}

// A run that does not begin, because the tree is refused.
pub fn tree_refused(answer: Result<(), FileError>) -> Outcome
    ensures { result ≡ tree_refused (file_answer answer) }
{
    refused_by(2, answer_number(answer), answer_line(answer))
}

// No wait is told: refused in that kind, by that number, at that line.
pub fn no_wait(kind: u8, number: u8, at: u32) -> Wait
    ensures { result ≡ no_wait kind number at }
{
    Wait {
        kind: kind,
        number: number,
        line: at,
        count: 0,
        slot: 0,
    }
}

// How a transaction waited.
pub fn wait_of(answer: Result<Waited, WhyError>) -> Wait
    ensures { result ≡ wait_of (why_means answer) }
{
    match answer {
        Err(WhyError::Run(FileError::Refused(r, n))) => no_wait(3, number(r), n),
        Err(WhyError::Run(FileError::Broken)) => no_wait(4, 11, 0),
        Err(WhyError::Unknown) => no_wait(4, 7, 0),
        Err(WhyError::NotServed) => no_wait(4, 12, 0),
        Ok(w) => Wait {
            kind: 0,
            number: 0,
            line: 0,
            count: w.count,
            slot: w.admission,
        },
    }
}

// No bounds: refused by that number, at that line.
pub fn unbounded(number: u8, line: u32) -> Row
    ensures { result ≡ unbounded number line }
{
    Row {
        number: number,
        line: line,
        level: 0,
        meets: false,
        sr: 0,
        sw: 0,
        yr: 0,
        yw: 0,
        response: 0,
        period: 0,
    }
}

// The bounds of an accelerator.
pub fn row_of(answer: Result<Figures, Refusal>) -> Row
    ensures { result ≡ row_of (meaning_of answer) }
{
    match answer {
        Err(r) => unbounded(number(r), 0),
        Ok(f) => Row {
            number: 0,
            line: 0,
            level: f.level,
            meets: f.meets,
            sr: f.reads.share,
            sw: f.writes.share,
            yr: f.reads.interference.0,
            yw: f.writes.interference.0,
            response: f.response.0,
            period: f.period.0,
        },
    }
}

// How a burst is cut.
pub fn cut_of(reply: Result<u32, Denied<Part>>) -> Cut
    ensures { result ≡ cut_of reply }
{
    match reply {
        Err(e) => Cut {
            number: e.number,
            line: e.line,
            pieces: 0,
        },
        Ok(k) => Cut {
            number: 0,
            line: 0,
            pieces: k,
        },
    }
}

// What the joiner answers, with the joiner that comes back.
pub fn joined_of(reply: JoinReply) -> Joined
    ensures { result ≡ joined_of (join_outcome reply) }
{
    let answer = reply.answer;
    let mut joined = Joined {
        number: 0,
        done: false,
        pieces: reply.joiner.pieces,
        answered: reply.joiner.answered,
    };
    match answer {
        Ok(Progress::Taken) => joined,
        Ok(Progress::Done) => {
            joined.done = true;
            joined
        }
        Err(r) => {
            joined.number = number(r);
            joined
        }
    }
}
