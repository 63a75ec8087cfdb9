// The text of a run, built in pages that the caller lends.
#![tactic(auto)]

ghost use Rattle.std.specs.Prelude.{◌≡◌, length};
ghost use Rattle.folds.specs.Fold.{pick};
ghost use Rattle.put.specs.Page.{bytes as bytes_of, field, Written};
ghost use Rattle.put.specs.Texts.{Puts};
ghost use Rattle.journal.specs.Journal.{slot_text, slots_due, slots_text, end_text, pages as pages_of, page_text};

use put::Text;

// The line of a slot. Its byte, 255 for idle, is that of the C interface.
fn put_slot(text: &mut Text, slot: u64, byte: u8)
    ensures { Puts 42 text.old (slot_text slot byte) text.new }
{
    text.field(slot, b'\t');
    if byte == 255 {
        text.bytes(b"idle\n");
    } else {
        text.field(byte as u64, b'\n');
    }
}

// How many of n slots a page holds from slot `first` on.
fn slots_due(n: usize, first: usize) -> usize
    ensures { result ≡ slots_due n first }
{
    n.saturating_sub(first).min(1024)
}

// The lines of the slots that a page holds from slot `first` on.
fn put_slots(text: &mut Text, served: &[u8], first: usize)
    ensures { Puts 43008 text.old (slots_text served.now first) text.new }
{
    for i in 0..slots_due(served.len(), first) {
        let slot = first + i;
        put_slot(text, slot as u64, served[slot]);
    }
}

fn put_outcome(text: &mut Text, done: bool)
    ensures { Puts 8 text.old (field (pick done (bytes_of "done") (bytes_of "stopped"))) text.new }
{
    text.bytes(if done { b"done\t" } else { b"stopped\t" });
}

// The last line of a simulation.
fn put_end(text: &mut Text, done: bool, slots: u64)
    ensures { Puts 29 text.old (end_text done slots) text.new }
{
    put_outcome(text, done);
    text.field(slots, b'\n');
}

// How many pages a run of so many slots has.
pub fn pages(slots: usize) -> usize
    ensures { result ≡ pages_of slots }
{
    slots / 1024 + 1
}

fn put_page(text: &mut Text, served: &[u8], page: u32, done: bool)
    ensures { Puts 43037 text.old (page_text served.now page done) text.new }
{
    put_slots(text, served, 1024 * (page as usize));
    if page as usize == served.len() / 1024 {
        put_end(text, done, served.len() as u64);
    }
}

// A page of a run: `served` has the byte of each slot used.
pub fn page_text(served: &[u8], page: u32, done: bool, out: &mut [u8; 65536]) -> usize
    ensures { Written (page_text served.now page done) out.old out.new result }
{
    let mut text = Text::new(out);
    put_page(&mut text, served, page, done);
    text.len()
}
