// The static library for programs in C and Rust, `librazhikum.a`: each function of `razhikum` under its name, by the same clauses. A crate
// is a library or a static library and not both, so this one has nothing of its own. The header include/razhikum.h says the same to a C
// compiler, and the package in rust/ to Rust. A slice is passed as a pointer and a length, an array as a pointer.
#![tactic(auto)]

ghost use Rattle.std.specs.Prelude.{◌≡◌, length};
ghost use Rattle.reader.specs.TreeFile.{read_tree};
ghost use Rattle.plan.specs.Plan.{Printing};
ghost use Rattle.plan.specs.Rewrite.{rewrite_of, rewrite_buffer};
ghost use Rattle.razhikum.specs.Exports.{version, page_of, tree_reading, trace_reading, count_from, outcome_on, buffer_on, wait_on, list_on, row_from, burst_of};
ghost use Rattle.splitting.specs.Splitting.{reply_from, starts_from, beats_from};
ghost use Rattle.answers.specs.Numbers.{cut_of, joined_of};
ghost use Rattle.burst.specs.Joiner.{join_of};

use answers::{Count, Cut, Joined, Outcome, Reading, Row, Wait};
use razhikum::Page;

// The version of these functions and structs, as the header's RAZHIKUM_VERSION says it.
#[unsafe(no_mangle)]
pub extern "C" fn razhikum_version() -> u32
    ensures { result ≡ version }
{
    razhikum::razhikum_version()
}

// Whether the tree file is accepted, or why and at which line it is refused.
#[unsafe(no_mangle)]
pub extern "C" fn razhikum_read_tree(tree: &[u8]) -> Reading
    ensures { result ≡ tree_reading (read_tree tree.now) }
{
    razhikum::razhikum_read_tree(tree)
}

// Whether the tree file and, on its tree, the trace file are accepted, or which of them is refused, why and where.
#[unsafe(no_mangle)]
pub extern "C" fn razhikum_read_trace(tree: &[u8], trace: &[u8]) -> Reading
    ensures { result ≡ trace_reading (read_tree tree.now) trace.now }
{
    razhikum::razhikum_read_trace(tree, trace)
}

// How many accelerators the tree file has: they are numbered from 0 on.
#[unsafe(no_mangle)]
pub extern "C" fn razhikum_count(tree: &[u8]) -> Count
    ensures { result ≡ count_from (read_tree tree.now) }
{
    razhikum::razhikum_count(tree)
}

// The report of a tree file, put at the beginning of `out`; a refusal is answered by number and line, and leaves `out` as it was.
#[unsafe(no_mangle)]
pub extern "C" fn razhikum_report(tree: &[u8], out: &mut [u8; 65536]) -> Page
    ensures { Printing (read_tree tree.now) out.old out.new result.bytes result.number result.line }
{
    razhikum::razhikum_report(tree, out)
}

// The tree file written back: the text of its tree, put at the beginning of `out`; a refusal is answered by number and line, and leaves
// `out` as it was.
#[unsafe(no_mangle)]
pub extern "C" fn razhikum_rewrite(tree: &[u8], out: &mut [u8]) -> Page
    ensures answer { result ≡ page_of (rewrite_of (read_tree tree.now) (length out.old)) }
    ensures bytes { out.new ≡ rewrite_buffer (read_tree tree.now) out.old }
{
    razhikum::razhikum_rewrite(tree, out)
}

// Runs the trace on a channel of the tree, 0 for reads and 1 for writes, and writes one byte a slot into `out`: the accelerator's
// number, or 255 for idle. Any other number of a channel is refused by 2, before the files are read.
#[unsafe(no_mangle)]
pub extern "C" fn razhikum_run(tree: &[u8], channel: u8, trace: &[u8], out: &mut [u8]) -> Outcome
    ensures answer { result ≡ outcome_on channel (read_tree tree.now) trace.now out.old }
    ensures bytes { out.new ≡ buffer_on channel (read_tree tree.now) trace.now out.old }
{
    razhikum::razhikum_run(tree, channel, trace, out)
}

// Lists the slots in which a transaction of the accelerator waited on a channel, oldest first, two bytes a slot into `out`: the
// accelerator that was served, then the deepest interconnect that both paths cross, or 255 where it is the same accelerator. Its served
// transactions are numbered from 1. The channel is a number, as for a run.
#[unsafe(no_mangle)]
pub extern "C" fn razhikum_why(
    tree: &[u8],
    channel: u8,
    trace: &[u8],
    accelerator: u8,
    number: u32,
    out: &mut [u8],
) -> Wait
    ensures answer { result ≡ wait_on channel (read_tree tree.now) trace.now accelerator number out.old }
    ensures bytes { out.new ≡ list_on channel (read_tree tree.now) trace.now accelerator number out.old }
{
    razhikum::razhikum_why(tree, channel, trace, accelerator, number, out)
}

// The bounds of an accelerator of the tree file.
#[unsafe(no_mangle)]
pub extern "C" fn razhikum_bound(tree: &[u8], accelerator: u8) -> Row
    ensures { result ≡ row_from (read_tree tree.now) accelerator }
{
    razhikum::razhikum_bound(tree, accelerator)
}

// Cuts a burst into pieces of the tree's burst length: of each piece the start address and the beats, and 0 in the entries after them. A
// refusal leaves both arrays as they were.
#[unsafe(no_mangle)]
pub extern "C" fn razhikum_split(
    tree: &[u8],
    start: u32,
    beats: u32,
    size: u32,
    starts: &mut [u32; 256],
    lengths: &mut [u32; 256],
) -> Cut
    ensures answer { result ≡ cut_of (reply_from (read_tree tree.now) (burst_of start beats size)) }
    ensures starts { starts.new ≡ starts_from (read_tree tree.now) (burst_of start beats size) starts.old }
    ensures lengths { lengths.new ≡ beats_from (read_tree tree.now) (burst_of start beats size) lengths.old }
{
    razhikum::razhikum_split(tree, start, beats, size, starts, lengths)
}

// Hands the answer of the piece of this number, from 1 on, to the joiner of a burst of so many pieces, of which so many are answered.
#[unsafe(no_mangle)]
pub extern "C" fn razhikum_join(pieces: u32, answered: u32, number: u32) -> Joined
    ensures { result ≡ joined_of (join_of (record { pieces = pieces; answered = answered }) number) }
{
    razhikum::razhikum_join(pieces, answered, number)
}
