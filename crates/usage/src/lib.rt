// What the programs say of themselves, each text put into a page that the caller lends; what their words say: help, files, a
// channel, a number, an address; and what a program of one file, `report` or `rewrite`, does by its words. `simulate` is in
// `simulation`, `why` in `inquiry`, `split` in `splitting`.
#![tactic(auto)]

ghost use Rattle.std.specs.Prelude.{◌≡◌};
ghost use Rattle.put.specs.Page.{Written};
ghost use Rattle.usage.specs.Usage.{asks_help, help_asked, is_option, is_dash, two_files, channel_asked, number_asked, address_asked, file_asked, report_usage, report_help, rewrite_usage, rewrite_help, simulate_usage, simulate_help, why_usage, why_help, split_usage, split_help};

use model::Channel;
use put::put_text;
use text::{Field, read_field, same_bytes};

// What a program does by its words: it says its usage or its help, or runs as they ask.
#[derive(Clone, Copy)]
pub enum Asked<T> {
    Usage,
    Help,
    Run(T),
}

// What a program of one file reads: standard input, or the file that its word names.
#[derive(Clone, Copy)]
pub enum Source {
    Input,
    File,
}

// A refusal of a program: what it is of, by which number, and at which line, 0 for none.
#[derive(Clone, Copy)]
pub struct Denied<P> {
    pub part: P,
    pub number: u8,
    pub line: u32,
}

// Whether the word is -h or --help.
pub fn asks_help(word: &[u8]) -> bool
    ensures { result ≡ asks_help word.now }
{
    same_bytes(word, b"-h") | same_bytes(word, b"--help")
}

// Whether the word begins as an option does: "-", and more after it.
pub fn is_option(word: &[u8]) -> bool
    ensures { result ≡ is_option word.now }
{
    if word.len() <= 1 {
        return false;
    }
    word[0] == 45
}

// Whether one of the first three words asks for help; a word that was not given is empty.
pub fn help_asked(first: &[u8], second: &[u8], third: &[u8]) -> bool
    ensures { result ≡ help_asked first.now second.now third.now }
{
    asks_help(first) | asks_help(second) | asks_help(third)
}

// Whether the word is "-", which stands for standard input.
pub fn is_dash(word: &[u8]) -> bool
    ensures { result ≡ is_dash word.now }
{
    same_bytes(word, b"-")
}

// Whether the words can be two files: neither is an option, and standard input is one of them at most.
pub fn two_files(first: &[u8], second: &[u8]) -> bool
    ensures { result ≡ two_files first.now second.now }
{
    !(is_option(first) | is_option(second)) & !(is_dash(first) & is_dash(second))
}

// The channel that the word names, `read` or `write`.
pub fn channel_asked(word: &[u8]) -> Option<Channel>
    ensures { result ≡ channel_asked word.now }
{
    if same_bytes(word, b"read") {
        return Some(Channel::Read);
    }
    if same_bytes(word, b"write") {
        return Some(Channel::Write);
    }
    None
}

// The number that the word writes, or `most` if it is larger: a word has any number of digits.
pub fn number_asked(word: &[u8], most: u32) -> Option<u32>
    ensures { result ≡ number_asked word.now most }
{
    if word.is_empty() {
        return None;
    }
    if (word[0] == b'0') & (word.len() != 1) {
        return None;
    }
    let mut value: u64 = 0;
    for b in word {
        if (*b < 48) | (57 < *b) {
            return None;
        }
        value = (value * 10 + (*b - 48) as u64).min(most as u64);
    }
    Some(value as u32)
}

// The address that the word writes, a number of 32 bits: a larger one is no address.
pub fn address_asked(word: &[u8]) -> Option<u32>
    ensures { result ≡ address_asked word.now }
{
    match read_field(word) {
        Field::Malformed | Field::Dash => None,
        Field::Number(n) => u32::try_from(n).ok(),
    }
}

// What a program of one file does, started with `count` words, of which these are the first three; `terminal`: standard input is one.
pub fn file_asked(
    count: usize,
    first: &[u8],
    second: &[u8],
    third: &[u8],
    terminal: bool,
) -> Asked<Source>
    ensures { result ≡ file_asked count first.now second.now third.now terminal }
{
    if help_asked(first, second, third) {
        return Asked::Help;
    }
    if (1 < count) | is_option(first) {
        return Asked::Usage;
    }
    if count == 1 {
        return Asked::Run(Source::File);
    }
    if terminal {
        return Asked::Usage;
    }
    Asked::Run(Source::Input)
}

// What `report` says where its arguments are wrong.
pub fn report_usage(out: &mut [u8; 65536]) -> usize
    ensures { Written report_usage out.old out.new result }
{
    put_text(out, b"usage: report [FILE]\nexample: report scanner.tree\n")
}

// What `report` says where help is asked for.
pub fn report_help(out: &mut [u8; 65536]) -> usize
    ensures { Written report_help out.old out.new result }
{
    put_text(
        out,
        b"report [FILE]: from a tree file, whether each accelerator's job meets its period at worst.\n\
        FILE is a tree file; standard input without one, or with -.\n\
        Columns: accelerator, level, sr and sw (share of reads and of writes), yr and yw (interfering reads and writes),\n\
        response (with the wait for new windows) and period in cycles, verdict.\n\
        A refused file prints \"refused\", the number of the cause and the line; standard error says it in words.\n\
        example: report scanner.tree\n",
    )
}

// What `rewrite` says where its arguments are wrong.
pub fn rewrite_usage(out: &mut [u8; 65536]) -> usize
    ensures { Written rewrite_usage out.old out.new result }
{
    put_text(
        out,
        b"usage: rewrite [FILE]\nexample: rewrite scanner.tree\n",
    )
}

// What `rewrite` says where help is asked for.
pub fn rewrite_help(out: &mut [u8; 65536]) -> usize
    ensures { Written rewrite_help out.old out.new result }
{
    put_text(
        out,
        b"rewrite [FILE]: writes the tree of a tree file back as text; two files of the same tree give the same text.\n\
        FILE is a tree file; standard input without one, or with -.\n\
        The bus or bus3 line, without a return delay of 0; the int lines by number; the acc lines by interconnect, then by port.\n\
        The text goes to standard output. Do not send it to FILE itself, which the shell empties before it is read.\n\
        A refused file prints \"refused\", the number of the cause and the line; standard error says it in words.\n\
        example: rewrite scanner.tree\n",
    )
}

// What `simulate` says where its arguments are wrong.
pub fn simulate_usage(out: &mut [u8; 65536]) -> usize
    ensures { Written simulate_usage out.old out.new result }
{
    put_text(
        out,
        b"usage: simulate CHANNEL TREE TRACE [SLOTS]\nexample: simulate read scanner.tree scanner.trace 100\n",
    )
}

// What `simulate` says where help is asked for.
pub fn simulate_help(out: &mut [u8; 65536]) -> usize
    ensures { Written simulate_help out.old out.new result }
{
    put_text(
        out,
        b"simulate CHANNEL TREE TRACE [SLOTS]: runs a trace of requests on a tree, and says who is served in each slot.\n\
        CHANNEL is read or write: reads and writes travel apart, and a trace is of one channel.\n\
        TREE and TRACE are files; one of the two may be -, standard input. SLOTS is 0 to 65536, or 65536 without one.\n\
        A line for each slot: its number, and the accelerator served or idle; then done or stopped, and the slots used.\n\
        Requests of an accelerator whose job has none on CHANNEL stay held, so that the run goes on to SLOTS and is stopped.\n\
        A refused file prints \"refused\", the number of the cause and the line; standard error says it in words.\n\
        example: simulate read scanner.tree scanner.trace 100\n",
    )
}

// What `why` says where its arguments are wrong.
pub fn why_usage(out: &mut [u8; 65536]) -> usize
    ensures { Written why_usage out.old out.new result }
{
    put_text(
        out,
        b"usage: why CHANNEL TREE TRACE ACC NUMBER\nexample: why read scanner.tree scanner.trace 1 3\n",
    )
}

// What `why` says where help is asked for.
pub fn why_help(out: &mut [u8; 65536]) -> usize
    ensures { Written why_help out.old out.new result }
{
    put_text(
        out,
        b"why CHANNEL TREE TRACE ACC NUMBER: runs a trace of requests on a tree, and says why a transaction waited.\n\
        CHANNEL is read or write: reads and writes travel apart, and a trace is of one channel.\n\
        TREE and TRACE are files; one of the two may be -, standard input. The run has 65536 slots at most.\n\
        NUMBER is that of a transaction of accelerator ACC, counted from 1 in the order of service.\n\
        Requests of an accelerator whose job has none on CHANNEL stay held, and none of them is served.\n\
        A line for each slot from its admission up to the one before its service, the first 32768 of them: the slot, the\n\
        accelerator served, and the deepest interconnect on both paths, or own; then waited, and the count of all.\n\
        A refusal prints \"refused\", the number of the cause and the line; standard error says it in words.\n\
        example: why read scanner.tree scanner.trace 1 3\n",
    )
}

// What `split` says where its arguments are wrong.
pub fn split_usage(out: &mut [u8; 65536]) -> usize
    ensures { Written split_usage out.old out.new result }
{
    put_text(
        out,
        b"usage: split TREE ADDRESS BEATS SIZE\nexample: split scanner.tree 4096 40 4\n",
    )
}

// What `split` says where help is asked for.
pub fn split_help(out: &mut [u8; 65536]) -> usize
    ensures { Written split_help out.old out.new result }
{
    put_text(
        out,
        b"split TREE ADDRESS BEATS SIZE: cuts a burst into pieces of the tree's burst length B.\n\
        TREE is a tree file, or -, standard input. The other words are decimal: ADDRESS is 0 to 4294967295, BEATS 1 to 256, or\n\
        to 16 where the first line of TREE is bus3, and SIZE, the bytes of a beat, 1, 2, 4, 8, 16, 32, 64 or 128.\n\
        A line for each piece: its start address and its beats, which are B except perhaps in the last; then pieces, and their count.\n\
        Each piece is one transaction for phi and for the budget.\n\
        Other BEATS or another SIZE are refused by 15, a burst that crosses a multiple of 4096 by 16, both with line 0.\n\
        A refusal prints \"refused\", the number of the cause and the line; standard error says it in words.\n\
        example: split scanner.tree 4096 40 4\n",
    )
}
