// What the program `simulate` does by its words and prints: the words read, the text of a run's outcome page by page, and what a
// refusal is of.
#![tactic(auto)]

ghost use Rattle.std.specs.Prelude.{◌≡◌, ◌≤◌, length, take};
ghost use Rattle.put.specs.Page.{Written};
ghost use Rattle.usage.specs.Usage.{channel_asked};
ghost use Rattle.simulation.specs.Simulation.{slots_asked, run_asked, simulate_asked, refused_part, page_count, simulation_page};

use answers::Outcome;
use journal::pages;
use listing::refusal_text;
use model::Channel;
use usage::{Asked, asks_help, channel_asked, help_asked, number_asked, two_files};

// What `simulate` runs where its words ask for a run: so many slots of a channel, 65,537 for every number above 65,536.
#[derive(Clone, Copy)]
pub struct Simulation {
    pub channel: Channel,
    pub slots: usize,
}

// What a refusal is of: the tree, the word SLOTS or the trace.
#[derive(Clone, Copy)]
pub enum Part {
    Tree,
    Word,
    Trace,
}

// The run of a channel over as many slots as the word SLOTS asks for; usage where it is no number.
pub fn slots_asked(channel: Channel, word: &[u8]) -> Asked<Simulation>
    ensures { result ≡ slots_asked channel word.now }
{
    let Some(n) = number_asked(word, 65537) else {
        return Asked::Usage;
    };
    Asked::Run(Simulation {
        channel: channel,
        slots: n as usize,
    })
}

// The run that the words CHANNEL and SLOTS ask for, of `count` words; usage where the one is no channel, the other no number.
fn run_asked(count: usize, channel: &[u8], slots: &[u8]) -> Asked<Simulation>
    ensures { result ≡ run_asked count (channel_asked channel.now) slots.now }
{
    let Some(c) = channel_asked(channel) else {
        return Asked::Usage;
    };
    if count == 3 {
        return Asked::Run(Simulation {
            channel: c,
            slots: 65536,
        });
    }
    slots_asked(c, slots)
}

// What `simulate` does, started with `count` words, of which these are the first four.
pub fn simulate_asked(
    count: usize,
    channel: &[u8],
    tree: &[u8],
    trace: &[u8],
    slots: &[u8],
) -> Asked<Simulation>
    ensures { result ≡ simulate_asked count channel.now tree.now trace.now slots.now }
{
    if help_asked(channel, tree, trace) | asks_help(slots) {
        return Asked::Help;
    }
    if (3 <= count) & (count <= 4) & two_files(tree, trace) {
        return run_asked(count, channel, slots);
    }
    Asked::Usage
}

// What the outcome of a run over so many slots refuses, if anything: first the tree is read, then SLOTS, then the trace.
pub fn refused_part(o: Outcome, slots: usize) -> Option<Part>
    ensures { result ≡ refused_part o slots }
{
    if o.kind < 2 {
        return None;
    }
    if o.kind == 2 {
        return Some(Part::Tree);
    }
    if 65536 < slots {
        return Some(Part::Word);
    }
    Some(Part::Trace)
}

// How many bytes of the buffer tell slots: at most all.
fn used_length(slots: u32, served: &[u8]) -> usize
    ensures { (result ≤ length served.now) × (take result served.now ≡ take slots served.now) }
{
    let n = slots as usize;
    if n <= served.len() {
        return n;
    }
    served.len()
}

// How many pages the text of an outcome has; `served` is the buffer that the run wrote.
pub fn page_count(o: Outcome, served: &[u8]) -> usize
    ensures { result ≡ page_count o served.now }
{
    if o.kind < 2 {
        return pages(used_length(o.slots, served));
    }
    1
}

// Page `page` of the text of an outcome, from 0.
pub fn page_text(o: Outcome, served: &[u8], page: u32, out: &mut [u8; 65536]) -> usize
    ensures { Written (simulation_page o served.now page) out.old out.new result }
{
    if o.kind < 2 {
        let n = used_length(o.slots, served);
        return journal::page_text(&served[..n], page, o.kind == 0, out);
    }
    refusal_text(o.number, o.line, out)
}
