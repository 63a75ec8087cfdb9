// What the program `why` does by its words, asks of the two files and prints: the words read, the answer with what a refusal is of,
// and its text page by page.
#![tactic(auto)]

ghost use Rattle.std.specs.Prelude.{◌≡◌, ◌≤◌, ◌*◌, length, take};
ghost use Rattle.put.specs.Page.{Written};
ghost use Rattle.put.specs.Texts.{Puts};
ghost use Rattle.reader.specs.TreeFile.{read_tree};
ghost use Rattle.usage.specs.Usage.{channel_asked};
ghost use Rattle.waits.specs.Answers.{why_means};
ghost use Rattle.razhikum.specs.Exports.{list_from};
ghost use Rattle.inquiry.specs.Inquiry.{wait_asked, why_asked, refused, reply_of, reply_from};
ghost use Rattle.inquiry.specs.Lines.{line_text, lines_text, count_text, wait_page, pages_of, reply_page};

use lines::{FileError, answer_line, answer_number};
use listing::refusal_text;
use model::{Channel, number};
use put::Text;
use reader::read_tree;
use usage::{Asked, Denied, asks_help, channel_asked, help_asked, number_asked, two_files};
use waits::{Waited, WhyError, why};

// The transaction of an accelerator, on a channel, whose wait `why` tells where its words ask for one. 255 stands for every
// accelerator above 255, and 4,294,967,295 for every number above it: neither is in any run.
#[derive(Clone, Copy)]
pub struct Transaction {
    pub channel: Channel,
    pub accelerator: u8,
    pub number: u32,
}

// What a refusal is of: a file, or one of the words ACC and NUMBER.
#[derive(Clone, Copy)]
pub enum Part {
    Tree,
    Trace,
    Accelerator,
    Number,
}

// The transaction that the words CHANNEL, ACC and NUMBER name; usage where the first is no channel or another no number.
fn wait_asked(channel: &[u8], acc: &[u8], number: &[u8]) -> Asked<Transaction>
    ensures { result ≡ wait_asked (channel_asked channel.now) acc.now number.now }
{
    let Some(c) = channel_asked(channel) else {
        return Asked::Usage;
    };
    let Some(a) = number_asked(acc, 255) else {
        return Asked::Usage;
    };
    let Some(k) = number_asked(number, 4294967295) else {
        return Asked::Usage;
    };
    Asked::Run(Transaction {
        channel: c,
        accelerator: a as u8,
        number: k,
    })
}

// What `why` does, started with `count` words, of which these are the first five.
pub fn why_asked(
    count: usize,
    channel: &[u8],
    tree: &[u8],
    trace: &[u8],
    acc: &[u8],
    number: &[u8],
) -> Asked<Transaction>
    ensures { result ≡ why_asked count channel.now tree.now trace.now acc.now number.now }
{
    if help_asked(channel, tree, trace) | asks_help(acc) | asks_help(number) {
        return Asked::Help;
    }
    if (count == 5) & two_files(tree, trace) {
        return wait_asked(channel, acc, number);
    }
    Asked::Usage
}

// A refusal, of what, by this number and at this line.
fn refused(part: Part, number: u8, line: u32) -> Result<Waited, Denied<Part>>
    ensures { result ≡ refused part number line }
{
    Err(Denied {
        part: part,
        number: number,
        line: line,
    })
}

// The answer for two files of which the tree is accepted.
fn reply_of(answer: Result<Waited, WhyError>) -> Result<Waited, Denied<Part>>
    ensures { result ≡ reply_of (why_means answer) }
{
    match answer {
        Err(WhyError::Run(FileError::Refused(r, line))) => refused(Part::Trace, number(r), line),
        Err(WhyError::Run(FileError::Broken)) => refused(Part::Tree, 11, 0),
        Err(WhyError::Unknown) => refused(Part::Accelerator, 7, 0),
        Err(WhyError::NotServed) => refused(Part::Number, 12, 0),
        Ok(w) => Ok(w),
    }
}

// Why transaction k of accelerator a waited on a channel: the tree and the trace are read, and the list of its slots is put into `out`,
// as far as it has room; a refusal leaves `out` as it was.
#[tactic(auto, unfolding(crate::specs::Inquiry::reply_from))]
pub fn inquire(
    tree: &[u8],
    channel: Channel,
    trace: &[u8],
    a: u8,
    k: u32,
    out: &mut [u8; 65536],
) -> Result<Waited, Denied<Part>>
    ensures answer { result ≡ reply_from (read_tree tree.now) channel trace.now a k }
    ensures list { out.new ≡ list_from (read_tree tree.now) channel trace.now a k out.old }
{
    let read = read_tree(tree);
    match read.answer {
        Ok(()) => reply_of(why(read.tree, channel, trace, a, k, out)),
        Err(e) => refused(Part::Tree, answer_number(Err(e)), answer_line(Err(e))),
    }
}

// The line of a slot: its number, and both bytes of the C interface: the accelerator served, and where the paths meet, 255 for own.
fn put_line(text: &mut Text, slot: u64, served: u8, met: u8)
    ensures { Puts 63 text.old (line_text slot served met) text.new }
{
    text.field(slot, b'\t');
    text.field(served as u64, b'\t');
    if met == 255 {
        text.bytes(b"own\n");
    } else {
        text.field(met as u64, b'\n');
    }
}

// The lines of a page: `pairs` has two bytes for each slot listed, and `from` is the first one.
fn put_lines(text: &mut Text, from: u32, pairs: &[u8], page: u32)
    ensures { Puts 64512 text.old (lines_text from pairs.now page) text.new }
{
    let first = 1024 * (page as usize);
    let left = (pairs.len() / 2).saturating_sub(first);
    for i in 0..left.min(1024) {
        let j = first + i;
        let slot = from as u64 + j as u64;
        put_line(text, slot, pairs[2 * j], pairs[2 * j + 1]);
    }
}

// The last line: the count of all slots waited.
fn put_count(text: &mut Text, count: u64)
    ensures { Puts 28 text.old (count_text count) text.new }
{
    text.bytes(b"waited\t");
    text.field(count, b'\n');
}

fn put_page(text: &mut Text, from: u32, count: u32, pairs: &[u8], page: u32)
    ensures { Puts 64540 text.old (wait_page from count pairs.now page) text.new }
{
    put_lines(text, from, pairs, page);
    if page as usize == pairs.len() / 2 / 1024 {
        put_count(text, count as u64);
    }
}

// A page of the wait.
fn wait_page(from: u32, count: u32, pairs: &[u8], page: u32, out: &mut [u8; 65536]) -> usize
    ensures { Written (wait_page from count pairs.now page) out.old out.new result }
{
    let mut text = Text::new(out);
    put_page(&mut text, from, count, pairs, page);
    text.len()
}

// How many bytes of the list are pairs of slots: two for each, and at most all.
fn listed_length(count: u32, list: &[u8]) -> usize
    ensures { (result ≤ length list.now) × (take result list.now ≡ take (2 * count) list.now) }
{
    let n = 2 * (count as usize);
    n.min(list.len())
}

// How many pages the text of a reply has; `list` is the buffer with the list.
pub fn page_count(reply: Result<Waited, Denied<Part>>, list: &[u8]) -> usize
    ensures { result ≡ pages_of reply list.now }
{
    match reply {
        Err(_) => 1,
        Ok(w) => listed_length(w.count, list) / 2 / 1024 + 1,
    }
}

// Page `page` of the text of a reply, from 0.
pub fn page_text(
    reply: Result<Waited, Denied<Part>>,
    list: &[u8],
    page: u32,
    out: &mut [u8; 65536],
) -> usize
    ensures { Written (reply_page reply list.now page) out.old out.new result }
{
    match reply {
        Err(e) => refusal_text(e.number, e.line, out),
        Ok(w) => {
            let k = listed_length(w.count, list);
            wait_page(w.admission, w.count, &list[..k], page, out)
        }
    }
}
