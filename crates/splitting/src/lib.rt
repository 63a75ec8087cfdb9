// What the program `split` does by its words, answers for a tree file and a burst, and prints: the words read, the answer with what
// a refusal is of, and its text.
#![tactic(auto)]

ghost use Rattle.std.specs.Prelude.{◌≡◌};
ghost use Rattle.put.specs.Page.{Written};
ghost use Rattle.put.specs.Texts.{Puts};
ghost use Rattle.lines.specs.Answer.{file_error};
ghost use Rattle.reader.specs.TreeFile.{read_tree};
ghost use Rattle.usage.specs.Usage.{address_asked};
ghost use Rattle.burst.specs.Burst.{split_by, starts_after, beats_after};
ghost use Rattle.burst.specs.Answers.{split_means};
ghost use Rattle.splitting.specs.Splitting.{burst_asked, split_asked, burst_part, denied_part, refused, reply_of, reply_in, tree_denied, reply_from, starts_from, beats_from};
ghost use Rattle.splitting.specs.Lines.{piece_text, count_text, pieces_text, list_text, reply_text};

use burst::Burst;
use lines::{FileError, answer_line, answer_number};
use listing::refusal_text;
use model::access::beat_limit;
use model::{Refusal, Tree, number};
use put::Text;
use reader::read_tree;
use usage::{Asked, Denied, address_asked, asks_help, help_asked, is_option, number_asked};

// What a refusal is of: the tree file, or one of the words ADDRESS, BEATS and SIZE.
#[derive(Clone, Copy)]
pub enum Part {
    Tree,
    Address,
    Beats,
    Size,
}

// The burst that the words ADDRESS, BEATS and SIZE name; usage where the first is no address or another no number. 4,294,967,295 stands
// for every count of beats and every size above it: no burst has either.
fn burst_asked(address: &[u8], beats: &[u8], size: &[u8]) -> Asked<Burst>
    ensures { result ≡ burst_asked (address_asked address.now) beats.now size.now }
{
    let Some(x) = address_asked(address) else {
        return Asked::Usage;
    };
    let Some(y) = number_asked(beats, 4294967295) else {
        return Asked::Usage;
    };
    let Some(z) = number_asked(size, 4294967295) else {
        return Asked::Usage;
    };
    Asked::Run(Burst {
        start: x,
        beats: y,
        size: z,
    })
}

// What `split` does, started with `count` words, of which these are the first four.
pub fn split_asked(
    count: usize,
    tree: &[u8],
    address: &[u8],
    beats: &[u8],
    size: &[u8],
) -> Asked<Burst>
    ensures { result ≡ split_asked count tree.now address.now beats.now size.now }
{
    if help_asked(tree, address, beats) | asks_help(size) {
        return Asked::Help;
    }
    if (count == 4) & !is_option(tree) {
        return burst_asked(address, beats, size);
    }
    Asked::Usage
}

// Which word makes a burst be none: BEATS where they are not 1 to `limit`, else SIZE.
fn burst_part(limit: u32, b: Burst) -> Part
    ensures { result ≡ burst_part limit b }
{
    if (1 <= b.beats) & (b.beats <= limit) {
        return Part::Size;
    }
    Part::Beats
}

// What a refusal of the burst by this number is of, where a burst has at most `limit` beats.
fn denied_part(limit: u32, b: Burst, number: u8) -> Part
    ensures { result ≡ denied_part limit b number }
{
    if number == 15 {
        return burst_part(limit, b);
    }
    if number == 16 {
        return Part::Address;
    }
    Part::Tree
}

// A refusal, of what, by this number and at this line.
fn refused(part: Part, number: u8, line: u32) -> Denied<Part>
    ensures { result ≡ refused part number line }
{
    Denied {
        part: part,
        number: number,
        line: line,
    }
}

// The answer for a tree that was read, where a burst has at most `limit` beats.
fn reply_of(limit: u32, b: Burst, answer: Result<u32, Refusal>) -> Result<u32, Denied<Part>>
    ensures { result ≡ reply_of limit b (split_means answer) }
{
    match answer {
        Ok(k) => Ok(k),
        Err(r) => {
            let n = number(r);
            Err(refused(denied_part(limit, b, n), n, 0))
        }
    }
}

// Cuts a burst into pieces of the burst length of the tree.
fn reply_in(
    t: Tree,
    b: Burst,
    starts: &mut [u32; 256],
    beats: &mut [u32; 256],
) -> Result<u32, Denied<Part>>
    ensures answer { result ≡ reply_in t b }
    ensures starts { starts.new ≡ starts_after (split_by t b) t.bus.burst b starts.old }
    ensures beats { beats.new ≡ beats_after (split_by t b) t.bus.burst b beats.old }
{
    let limit = beat_limit(t.bus);
    reply_of(limit, b, burst::split(t, b, starts, beats))
}

// The answer for a tree file that is refused.
fn tree_denied(error: FileError) -> Result<u32, Denied<Part>>
    ensures { result ≡ tree_denied (file_error error) }
{
    Err(refused(
        Part::Tree,
        answer_number(Err(error)),
        answer_line(Err(error)),
    ))
}

// Cuts a burst into pieces of the burst length of the tree that is read from `tree`: how many, and of each the start address and the
// beats; the entries after them are 0. A refusal leaves both arrays as they were. Two arrays side by side: the C interface lends them.
#[tactic(auto, unfolding(crate::specs::Splitting::reply_from, crate::specs::Splitting::starts_from, crate::specs::Splitting::beats_from))]
pub fn split_file(
    tree: &[u8],
    b: Burst,
    starts: &mut [u32; 256],
    beats: &mut [u32; 256],
) -> Result<u32, Denied<Part>>
    ensures answer { result ≡ reply_from (read_tree tree.now) b }
    ensures starts { starts.new ≡ starts_from (read_tree tree.now) b starts.old }
    ensures beats { beats.new ≡ beats_from (read_tree tree.now) b beats.old }
{
    let read = read_tree(tree);
    match read.answer {
        Ok(()) => reply_in(read.tree, b, starts, beats),
        Err(error) => tree_denied(error),
    }
}

// The line of a piece: its start address and its beats.
fn put_piece(text: &mut Text, start: u32, beats: u32)
    ensures { Puts 42 text.old (piece_text start beats) text.new }
{
    text.field(start as u64, b'\t');
    text.field(beats as u64, b'\n');
}

// The lines of the pieces, of which the arrays list 256 at most.
fn put_pieces(text: &mut Text, count: u32, starts: &[u32; 256], beats: &[u32; 256])
    ensures { Puts 10752 text.old (pieces_text count starts.now beats.now) text.new }
{
    let listed = count.min(256) as usize;
    for i in 0..listed {
        put_piece(text, starts[i], beats[i]);
    }
}

// The last line: the count of the pieces.
fn put_count(text: &mut Text, count: u32)
    ensures { Puts 28 text.old (count_text count) text.new }
{
    text.bytes(b"pieces\t");
    text.field(count as u64, b'\n');
}

// The lines of the pieces, and the last line.
fn put_list(text: &mut Text, count: u32, starts: &[u32; 256], beats: &[u32; 256])
    ensures { Puts 10780 text.old (list_text count starts.now beats.now) text.new }
{
    put_pieces(text, count, starts, beats);
    put_count(text, count);
}

// The pieces and their count.
fn list_text(count: u32, starts: &[u32; 256], beats: &[u32; 256], out: &mut [u8; 65536]) -> usize
    ensures { Written (list_text count starts.now beats.now) out.old out.new result }
{
    let mut text = Text::new(out);
    put_list(&mut text, count, starts, beats);
    text.len()
}

// The text of a reply; `starts` and `beats` are the arrays with the pieces.
pub fn reply_text(
    reply: Result<u32, Denied<Part>>,
    starts: &[u32; 256],
    beats: &[u32; 256],
    out: &mut [u8; 65536],
) -> usize
    ensures { Written (reply_text reply starts.now beats.now) out.old out.new result }
{
    match reply {
        Err(e) => refusal_text(e.number, e.line, out),
        Ok(k) => list_text(k, starts, beats, out),
    }
}
