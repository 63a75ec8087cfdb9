// The planner for programs in C and Rust: what the static library `razhikum_c` exports, by the same names and clauses, on numbers and
// byte slices. No function has a `requires`: each answers every input, by a struct of numbers (`answers`). The header include/razhikum.h
// says the same to a C compiler, and the package in rust/ to Rust.
#![tactic(auto)]

ghost use Rattle.std.specs.Prelude.{◌≡◌, length};
ghost use Rattle.reader.specs.TreeFile.{read_tree};
ghost use Rattle.plan.specs.Plan.{Printing};
ghost use Rattle.plan.specs.Rewrite.{prints, rewrite_of, rewrite_buffer};
ghost use Rattle.razhikum.specs.Exports.{version, page_of, tree_reading, trace_reading, count_from, outcome_from, buffer_from, outcome_on};
ghost use Rattle.razhikum.specs.Exports.{buffer_on, wait_from, list_from, wait_on, list_on, row_from, burst_of};
ghost use Rattle.splitting.specs.Splitting.{reply_from, starts_from, beats_from};
ghost use Rattle.answers.specs.Numbers.{cut_of, joined_of};
ghost use Rattle.burst.specs.Joiner.{join_of};

use answers::{
    Count, Cut, Joined, Outcome, Reading, Row, Wait, channel_of, count_of, cut_of, joined_of,
    no_wait, outcome_of, reading_of, refused_by, row_of, tree_refused, unbounded, wait_of,
};
use bounds::bound;
use burst::Burst;
use burst::joiner::{Joiner, join};
use lines::{answer_line, answer_number};
use model::Channel;
use plan::{PlanError, refused_line, refused_number};
use reader::read_tree;
use runner::run;
use splitting::split_file;
use trace::read_trace;
use waits::why;

// A report or a tree as text: how many bytes of the buffer it has; or the refusal, which puts none.
#[repr(C)]
#[derive(Clone, Copy)]
pub struct Page {
    pub bytes: usize,
    pub number: u8,
    pub line: u32,
}

fn page_of(x: Result<usize, PlanError>) -> Page
    ensures { result ≡ page_of (prints x) }
{
    match x {
        Ok(n) => Page {
            bytes: n,
            number: 0,
            line: 0,
        },
        Err(e) => Page {
            bytes: 0,
            number: refused_number(e),
            line: refused_line(e),
        },
    }
}

// The version of these functions and structs, as the header's RAZHIKUM_VERSION says it.
pub fn razhikum_version() -> u32
    ensures { result ≡ version }
{
    30000
}

// Whether the tree file is accepted, or why and at which line it is refused.
pub fn razhikum_read_tree(tree: &[u8]) -> Reading
    ensures { result ≡ tree_reading (read_tree tree.now) }
{
    let read = read_tree(tree);
    reading_of(1, read.answer)
}

// Whether the tree file and, on its tree, the trace file are accepted, or which of them is refused, why and where.
pub fn razhikum_read_trace(tree: &[u8], trace: &[u8]) -> Reading
    ensures { result ≡ trace_reading (read_tree tree.now) trace.now }
{
    let read = read_tree(tree);
    match read.answer {
        Ok(()) => reading_of(2, read_trace(read.tree, trace)),
        Err(error) => reading_of(1, Err(error)),
    }
}

// How many accelerators the tree file has: they are numbered from 0 on.
pub fn razhikum_count(tree: &[u8]) -> Count
    ensures { result ≡ count_from (read_tree tree.now) }
{
    let read = read_tree(tree);
    count_of(read.answer, read.tree.accs)
}

// The report of a tree file, put at the beginning of `out`; a refusal is answered by number and line, and leaves `out` as it was.
pub fn razhikum_report(tree: &[u8], out: &mut [u8; 65536]) -> Page
    ensures { Printing (read_tree tree.now) out.old out.new result.bytes result.number result.line }
{
    page_of(plan::report(tree, out))
}

// The tree file written back: the text of its tree, put at the beginning of `out`; a refusal is answered by number and line, and leaves
// `out` as it was.
pub fn razhikum_rewrite(tree: &[u8], out: &mut [u8]) -> Page
    ensures answer { result ≡ page_of (rewrite_of (read_tree tree.now) (length out.old)) }
    ensures bytes { out.new ≡ rewrite_buffer (read_tree tree.now) out.old }
{
    page_of(plan::rewrite(tree, out))
}

// The run of a trace on a channel of the tree.
fn run_on(tree: &[u8], channel: Channel, trace: &[u8], out: &mut [u8]) -> Outcome
    ensures answer { result ≡ outcome_from (read_tree tree.now) channel trace.now out.old }
    ensures bytes { out.new ≡ buffer_from (read_tree tree.now) channel trace.now out.old }
{
    let read = read_tree(tree);
    match read.answer {
        Ok(()) => outcome_of(run(read.tree, channel, trace, out)),
        Err(error) => tree_refused(Err(error)),
    }
}

// Runs the trace on a channel of the tree, 0 for reads and 1 for writes, and writes one byte a slot into `out`: the accelerator's
// number, or 255 for idle. Any other number of a channel is refused by 2, before the files are read.
pub fn razhikum_run(tree: &[u8], channel: u8, trace: &[u8], out: &mut [u8]) -> Outcome
    ensures answer { result ≡ outcome_on channel (read_tree tree.now) trace.now out.old }
    ensures bytes { out.new ≡ buffer_on channel (read_tree tree.now) trace.now out.old }
{
    if 1 < channel {
        return refused_by(4, 2, 0);
    }
    run_on(tree, channel_of(channel), trace, out)
}

// Why transaction `number` of the accelerator waited on a channel of the tree.
fn why_on(
    tree: &[u8],
    channel: Channel,
    trace: &[u8],
    accelerator: u8,
    number: u32,
    out: &mut [u8],
) -> Wait
    ensures answer { result ≡ wait_from (read_tree tree.now) channel trace.now accelerator number out.old }
    ensures bytes { out.new ≡ list_from (read_tree tree.now) channel trace.now accelerator number out.old }
{
    let read = read_tree(tree);
    match read.answer {
        Ok(()) => wait_of(why(read.tree, channel, trace, accelerator, number, out)),
        Err(error) => no_wait(2, answer_number(Err(error)), answer_line(Err(error))),
    }
}

// Lists the slots in which a transaction of the accelerator waited on a channel, oldest first, two bytes a slot into `out`: the
// accelerator that was served, then the deepest interconnect that both paths cross, or 255 where it is the same accelerator. Its served
// transactions are numbered from 1. The channel is a number, as for a run.
pub fn razhikum_why(
    tree: &[u8],
    channel: u8,
    trace: &[u8],
    accelerator: u8,
    number: u32,
    out: &mut [u8],
) -> Wait
    ensures answer { result ≡ wait_on channel (read_tree tree.now) trace.now accelerator number out.old }
    ensures bytes { out.new ≡ list_on channel (read_tree tree.now) trace.now accelerator number out.old }
{
    if 1 < channel {
        return no_wait(4, 2, 0);
    }
    why_on(tree, channel_of(channel), trace, accelerator, number, out)
}

// The bounds of an accelerator of the tree file.
pub fn razhikum_bound(tree: &[u8], accelerator: u8) -> Row
    ensures { result ≡ row_from (read_tree tree.now) accelerator }
{
    let read = read_tree(tree);
    match read.answer {
        Ok(()) => row_of(bound(read.tree, accelerator)),
        Err(error) => unbounded(answer_number(Err(error)), answer_line(Err(error))),
    }
}

// Cuts a burst into pieces of the tree's burst length: of each piece the start address and the beats, and 0 in the entries after them. A
// refusal leaves both arrays as they were.
pub fn razhikum_split(
    tree: &[u8],
    start: u32,
    beats: u32,
    size: u32,
    starts: &mut [u32; 256],
    lengths: &mut [u32; 256],
) -> Cut
    ensures answer { result ≡ cut_of (reply_from (read_tree tree.now) (burst_of start beats size)) }
    ensures starts { starts.new ≡ starts_from (read_tree tree.now) (burst_of start beats size) starts.old }
    ensures lengths { lengths.new ≡ beats_from (read_tree tree.now) (burst_of start beats size) lengths.old }
{
    let b = Burst {
        start: start,
        beats: beats,
        size: size,
    };
    cut_of(split_file(tree, b, starts, lengths))
}

// Hands the answer of the piece of this number, from 1 on, to the joiner of a burst of so many pieces, of which so many are answered.
pub fn razhikum_join(pieces: u32, answered: u32, number: u32) -> Joined
    ensures { result ≡ joined_of (join_of (record { pieces = pieces; answered = answered }) number) }
{
    let joiner = Joiner {
        pieces: pieces,
        answered: answered,
    };
    joined_of(join(joiner, number))
}
