// A program that writes every text the programs print: help and usage, the report, the rewriting and refusals of tree files,
// simulations of refused, done and stopped runs of both channels by the word SLOTS, waits, bursts in pieces, and refusals in words;
// what the programs do by their words; which files can be read; and what is done of a program that is lent as three functions. The file
// `stdout` holds them, written apart from the definitions.
#![tactic(auto)]

use answers::channel_number;
use burst::Burst;
use input::filled;
use model::Channel;
use plan::{PlanError, refused_line, refused_number};
use printing::{Streams, put_text};
use simulation::{Part, Simulation};
use std::alloc::Allocator;
use std::env::FillError;
use std::fmt::Display;
use std::fs::{Metadata, OpenOptions};
use std::io;
use std::io::{IsTerminal, Read};
use std::rt::{Env, Files};
use text::same_bytes;
use usage::{Asked, Denied, Source};

fn say_line(out: &impl Print, line: &[u8]) {
    let _ = out.write_all(line);
}

// The text that is put into an empty page.
fn show<F: FnOnce(&mut [u8; 65536]) -> usize>(out: &impl Print, text: F)
    requires { F.IsAlwaysCallable text }
{
    say_line(out, put_text(&mut [0u8; 65536], text));
}

fn show_usage(out: &impl Print) {
    show(out, usage::report_usage);
    show(out, usage::report_help);
    show(out, usage::rewrite_usage);
    show(out, usage::rewrite_help);
    show(out, usage::simulate_usage);
    show(out, usage::simulate_help);
    show(out, usage::why_usage);
    show(out, usage::why_help);
    show(out, usage::split_usage);
    show(out, usage::split_help);
}

fn say_number(out: &impl Print, n: u64) {
    let _ = out.print(n);
}

// The word that a line begins with: each is ended by a semicolon. Of an empty line no byte, as of a word that was not given.
fn word(line: &[u8]) -> &[u8] {
    line.split(|b| *b == b';').next().unwrap_or(line)
}

// What stands after that word.
fn after(line: &[u8]) -> &[u8] {
    match line.iter().position(|b| *b == b';') {
        Some(end) => &line[end + 1..],
        None => line,
    }
}

// How many words a line has.
fn word_count(line: &[u8]) -> usize {
    line.iter().filter(|b| **b == b';').count()
}

// What `report` does, started with these words; `rewrite` does the same.
fn report_does(out: &impl Print, words: &[u8], terminal: bool) {
    let second = after(words);
    let third = after(second);
    let asked = usage::file_asked(
        word_count(words),
        word(words),
        word(second),
        word(third),
        terminal,
    );
    match asked {
        Asked::Usage => say_line(out, b"report: usage\n"),
        Asked::Help => say_line(out, b"report: help\n"),
        Asked::Run(Source::Input) => say_line(out, b"report: standard input\n"),
        Asked::Run(Source::File) => say_line(out, b"report: the file\n"),
    }
}

fn say_channel(out: &impl Print, channel: Channel) {
    match channel {
        Channel::Read => say_line(out, b"reads"),
        Channel::Write => say_line(out, b"writes"),
    }
}

// What `simulate` does, started with these words.
fn simulate_does(out: &impl Print, words: &[u8]) {
    let second = after(words);
    let third = after(second);
    let fourth = after(third);
    let asked = simulation::simulate_asked(
        word_count(words),
        word(words),
        word(second),
        word(third),
        word(fourth),
    );
    match asked {
        Asked::Usage => say_line(out, b"simulate: usage\n"),
        Asked::Help => say_line(out, b"simulate: help\n"),
        Asked::Run(run) => {
            say_line(out, b"simulate: ");
            say_channel(out, run.channel);
            say_line(out, b", slots ");
            say_number(out, run.slots as u64);
            say_line(out, b"\n");
        }
    }
}

// What `why` does, started with these words.
fn why_does(out: &impl Print, words: &[u8]) {
    let second = after(words);
    let third = after(second);
    let fourth = after(third);
    let fifth = after(fourth);
    let asked = inquiry::why_asked(
        word_count(words),
        word(words),
        word(second),
        word(third),
        word(fourth),
        word(fifth),
    );
    match asked {
        Asked::Usage => say_line(out, b"why: usage\n"),
        Asked::Help => say_line(out, b"why: help\n"),
        Asked::Run(wait) => {
            say_line(out, b"why: ");
            say_channel(out, wait.channel);
            say_line(out, b", accelerator ");
            say_number(out, wait.accelerator as u64);
            say_line(out, b", number ");
            say_number(out, wait.number as u64);
            say_line(out, b"\n");
        }
    }
}

// What `split` does, started with these words.
fn split_does(out: &impl Print, words: &[u8]) {
    let second = after(words);
    let third = after(second);
    let fourth = after(third);
    let asked = splitting::split_asked(
        word_count(words),
        word(words),
        word(second),
        word(third),
        word(fourth),
    );
    match asked {
        Asked::Usage => say_line(out, b"split: usage\n"),
        Asked::Help => say_line(out, b"split: help\n"),
        Asked::Run(b) => {
            say_line(out, b"split: start ");
            say_number(out, b.start as u64);
            say_line(out, b", beats ");
            say_number(out, b.beats as u64);
            say_line(out, b", size ");
            say_number(out, b.size as u64);
            say_line(out, b"\n");
        }
    }
}

// What the program does that the line's first word names, by the words after it: `report` where standard input is no terminal,
// and where it is one.
fn does(out: &impl Print, line: &[u8]) {
    let name = word(line);
    let words = after(line);
    if same_bytes(name, b"report") {
        report_does(out, words, false);
        report_does(out, words, true);
    }
    if same_bytes(name, b"simulate") {
        simulate_does(out, words);
    }
    if same_bytes(name, b"why") {
        why_does(out, words);
    }
    if same_bytes(name, b"split") {
        split_does(out, words);
    }
}

// What is done by each line of the table.
fn do_lines(out: &impl Print, table: &[u8]) {
    for line in table.split(|b| *b == b'\n') {
        does(out, line);
    }
}

fn report_lines(out: &impl Print) {
    do_lines(
        out,
        b"report;\n\
        report;--help;\n\
        report;-h;\n\
        report;--helpme;\n\
        report;-x;\n\
        report;--;\n\
        report;-;\n\
        report;a.tree;\n\
        report;;\n\
        report;a.tree;b.tree;\n\
        report;-;-;\n\
        report;a.tree;--help;\n\
        report;a.tree;b.tree;-h;\n\
        report;a.tree;b.tree;c.tree;-h;\n",
    );
}

fn simulate_lines(out: &impl Print) {
    do_lines(
        out,
        b"simulate;\n\
        simulate;--help;\n\
        simulate;-h;\n\
        simulate;read;\n\
        simulate;read;a.tree;\n\
        simulate;read;a.tree;a.trace;\n\
        simulate;write;a.tree;a.trace;\n\
        simulate;read;-;a.trace;\n\
        simulate;write;a.tree;-;\n\
        simulate;read;-;-;\n\
        simulate;read;-x;a.trace;\n\
        simulate;read;a.tree;--slots;\n\
        simulate;read;a.tree;--help;\n\
        simulate;read;a.tree;a.trace;1;2;\n\
        simulate;read;a.tree;a.trace;1;-h;\n\
        simulate;read;a.tree;a.trace;0;\n\
        simulate;write;a.tree;a.trace;1;\n\
        simulate;read;a.tree;-;65536;\n\
        simulate;read;a.tree;a.trace;65537;\n\
        simulate;write;a.tree;a.trace;99999999999999999999;\n\
        simulate;read;a.tree;a.trace;x;\n\
        simulate;read;a.tree;a.trace;;\n\
        simulate;read;a.tree;a.trace;-;\n\
        simulate;read;a.tree;a.trace;+1;\n\
        simulate;read;-;-;1;\n\
        simulate;read;a.tree;a.trace;-h;\n",
    );
}

// No word for the channel, another word, or the words in another order.
fn channel_lines(out: &impl Print) {
    do_lines(
        out,
        b"simulate;a.tree;a.trace;\n\
        simulate;a.tree;a.trace;1;\n\
        simulate;a.tree;a.trace;1;2;\n\
        simulate;;a.tree;a.trace;\n\
        simulate;-;a.tree;a.trace;\n\
        simulate;-h;a.tree;a.trace;\n\
        simulate;--help;a.tree;a.trace;1;\n\
        simulate;Read;a.tree;a.trace;\n\
        simulate;reads;a.tree;a.trace;\n\
        simulate;rea;a.tree;a.trace;1;\n\
        simulate;writ;a.tree;a.trace;\n\
        simulate;WRITE;a.tree;a.trace;1;\n\
        simulate;0;a.tree;a.trace;\n\
        simulate;a.tree;read;a.trace;\n\
        simulate;a.tree;a.trace;read;\n\
        simulate;a.tree;a.trace;1;read;\n\
        simulate;write;read;read;1;\n\
        why;a.tree;a.trace;1;2;\n\
        why;;a.tree;a.trace;1;2;\n\
        why;-;a.tree;a.trace;1;2;\n\
        why;-h;a.tree;a.trace;1;2;\n\
        why;Write;a.tree;a.trace;1;2;\n\
        why;writes;a.tree;a.trace;1;2;\n\
        why;a.tree;write;a.trace;1;2;\n\
        why;a.tree;a.trace;write;1;2;\n\
        why;a.tree;a.trace;1;2;write;\n\
        why;read;write;write;1;2;\n",
    );
}

fn why_lines(out: &impl Print) {
    do_lines(
        out,
        b"why;\n\
        why;--help;\n\
        why;read;-h;\n\
        why;read;a.tree;-h;\n\
        why;read;a.tree;a.trace;--help;2;\n\
        why;read;a.tree;a.trace;1;-h;\n\
        why;read;a.tree;a.trace;1;\n\
        why;read;a.tree;a.trace;1;2;3;\n\
        why;read;a.tree;a.trace;1;2;-h;\n\
        why;read;a.tree;a.trace;1;2;\n\
        why;write;a.tree;a.trace;1;2;\n\
        why;write;-;a.trace;0;0;\n\
        why;read;a.tree;-;31;65536;\n\
        why;read;-;-;1;2;\n\
        why;read;-x;a.trace;1;2;\n\
        why;read;a.tree;-x;1;2;\n\
        why;read;a.tree;a.trace;x;2;\n\
        why;read;a.tree;a.trace;1;2x;\n\
        why;read;a.tree;a.trace;-1;2;\n\
        why;read;a.tree;a.trace;1;02;\n\
        why;read;a.tree;a.trace;;2;\n\
        why;read;a.tree;a.trace;1;;\n\
        why;read;a.tree;a.trace;255;4294967295;\n\
        why;read;a.tree;a.trace;256;4294967296;\n\
        why;write;a.tree;a.trace;99999999999999999999;99999999999999999999;\n",
    );
}

fn split_lines(out: &impl Print) {
    do_lines(
        out,
        b"split;\n\
        split;--help;\n\
        split;a.tree;-h;\n\
        split;a.tree;0;--help;\n\
        split;a.tree;0;1;-h;\n\
        split;a.tree;0;1;1;-h;\n\
        split;a.tree;\n\
        split;a.tree;0;1;\n\
        split;a.tree;0;1;1;2;\n\
        split;a.tree;0;1;1;\n\
        split;-;5;40;4;\n\
        split;;5;40;4;\n\
        split;-x;5;40;4;\n\
        split;--;5;40;4;\n\
        split;5;40;4;a.tree;\n\
        split;a.tree;5;x;4;\n\
        split;a.tree;5;40;4x;\n\
        split;a.tree;5;-1;4;\n\
        split;a.tree;5;40;04;\n\
        split;a.tree;5;;4;\n\
        split;a.tree;5;40;;\n\
        split;a.tree;5;0;0;\n\
        split;a.tree;5;257;3;\n\
        split;a.tree;5;4294967295;4294967295;\n\
        split;a.tree;5;4294967296;4294967296;\n\
        split;a.tree;5;99999999999999999999;99999999999999999999;\n",
    );
}

// Each kind of word ADDRESS: the largest, the one after it, 10 and 11 digits, and no number.
fn address_lines(out: &impl Print) {
    do_lines(
        out,
        b"split;a.tree;0;1;1;\n\
        split;a.tree;4294967295;256;128;\n\
        split;a.tree;4294967296;256;128;\n\
        split;a.tree;9999999999;1;1;\n\
        split;a.tree;10000000000;1;1;\n\
        split;a.tree;18446744073709551617;1;1;\n\
        split;a.tree;00;1;1;\n\
        split;a.tree;05;1;1;\n\
        split;a.tree;;1;1;\n\
        split;a.tree;-;1;1;\n\
        split;a.tree;-5;1;1;\n\
        split;a.tree;+5;1;1;\n\
        split;a.tree; 5;1;1;\n\
        split;a.tree;0x5;1;1;\n",
    );
}

// The first 16 bytes of a file, or that it cannot be read.
fn load(rt: &(impl Files + Print), stdin: &mut impl Read, errors: &impl Print, name: &[u8]) {
    let mut bytes = [0u8; 16];
    let read = input::load(name, rt, stdin, errors, &mut bytes);
    match read {
        Some(n) => {
            say_line(rt, b"read: ");
            say_line(rt, &bytes[..n]);
            say_line(rt, b"\n");
        }
        None => say_line(rt, b"cannot be read\n"),
    }
}

// What reads as a standard input that is closed: every read fails, by the system's number for a bad file descriptor.
#[derive(Clone, Copy)]
struct Closed {
    number: i32,
}

impl Read for Closed {
    fn read(&mut self, _buf: &mut [u8]) -> io::Result<usize> {
        Err(io::Error::from_raw_os_error(self.number))
    }
}

// Files that are there, standard input, and then what is no file: no such name, two directories, no name, a name too long, and
// a standard input which is closed.
fn load_all(rt: &(impl Files + Print), stdin: &mut impl Read, errors: &impl Print) {
    load(rt, stdin, errors, b"five.txt");
    load(rt, stdin, errors, b"twenty.txt");
    load(rt, stdin, errors, b"empty.txt");
    load(rt, stdin, errors, b"-");
    load(rt, stdin, errors, b"missing.txt");
    load(rt, stdin, errors, b".");
    load(rt, stdin, errors, b"/");
    load(rt, stdin, errors, b"");
    load(rt, stdin, errors, &[b'x'; 5000]);
    load(rt, &mut Closed { number: 9 }, errors, b"-");
}

// The text of a tree in the page; of a refused tree the first byte of the page, which is left as it was, and the refusal.
fn show_printed(out: &impl Print, r: Result<usize, PlanError>, page: &[u8; 65536]) {
    match r {
        Ok(n) => say_line(out, filled(page, n)),
        Err(e) => {
            say_line(out, &page[..1]);
            show(
                out,
                |p| listing::refusal_text(refused_number(e), refused_line(e), p),
            );
        }
    }
}

fn report(out: &impl Print, tree: &[u8]) {
    let mut page = [b'.'; 65536];
    let r = plan::report(tree, &mut page);
    show_printed(out, r, &page);
}

fn rewrite(out: &impl Print, tree: &[u8]) {
    let mut page = [b'.'; 65536];
    let r = plan::rewrite(tree, &mut page);
    show_printed(out, r, &page);
}

// A refusal of the bytes in words.
fn say(out: &impl Print, trace: bool, bytes: &[u8], number: u8, line: u32) {
    show(
        out,
        |page| reasons::reason_text(trace, bytes, number, line, page),
    );
}

// Refusals in words of files, each ended by a semicolon.
fn say_each(out: &impl Print, trace: bool, files: &[u8], number: u8, line: u32) {
    for file in files.split_inclusive(|b| *b == b';') {
        say(out, trace, word(file), number, line);
    }
}

// A wrong shape: what is most likely wrong, the name, the counts.
fn say_shapes(out: &impl Print) {
    say_each(
        out,
        false,
        b"\xef\xbb\xbfbus\t8\n;\
        bus\t8\r\n;\
        bus 8\n;\
        bus\t8;\
        \n;\
        buss\t8\n;\
        abcdefghijklmnopqrstuvwxyz\n;\
        b\x1f!~\x7f\xff\t8\n;\
        o\t0\t0\t1\n;",
        1,
        1,
    );
    say(out, true, b"int\t0\t-\t-\t1\n", 1, 1);
    say_each(
        out,
        false,
        b"bus\n;\
        bus\t8\t1\t4\t2\t2\t30\t25\t1\t1\t16\t2\t3\n;\
        int\t0\t-\t-\n;",
        1,
        1,
    );
    say(out, false, b"\nacc\t0\t0\t0\t4\t2\t10\t5\t1000\n", 1, 2);
    say(out, true, b"o\t0\t0\t1\t\n", 1, 1);
}

// A field that may not stand, and a line of no wrong shape.
fn say_fields(out: &impl Print) {
    say_each(
        out,
        false,
        b"\nacc\t0\t0\t0\tx7\t2\t10\t5\t1000\t2000\n;\
        \nacc\t0\t0\t0\t4\t2\t10\t5\t1000\t-\n;",
        1,
        2,
    );
    say_each(
        out,
        false,
        b"bus\t8\t1\t4\t2\t2\t30\t25\t1\t1\t16\t\n;\
        int\t-\t-\t-\t1\n;\
        int\t0\t-\t-1\t1\n;",
        1,
        1,
    );
    say_each(
        out,
        true,
        b"o\t0\t01\t1\n;\
        o\t0\t0\t\n;\
        o\t123456789012345678901\t0\t1\n;\
        o\t0\t0\t1\n;",
        1,
        1,
    );
}

// The fields of every record, each outside its limits: line 2.
fn say_tree_limits(out: &impl Print) {
    say_each(
        out,
        false,
        b"\nbus\t0\t1\t4\t2\t2\t30\t25\t1\t1\t16\n;\
        \nbus\t8\t256\t4\t2\t2\t30\t25\t1\t1\t16\n;\
        \nbus\t8\t1\t256\t2\t2\t30\t25\t1\t1\t16\n;\
        \nbus\t8\t1\t4\t256\t2\t30\t25\t1\t1\t16\n;\
        \nbus\t8\t1\t4\t2\t256\t30\t25\t1\t1\t16\n;\
        \nbus\t8\t1\t4\t2\t2\t4096\t25\t1\t1\t16\n;\
        \nbus\t8\t1\t4\t2\t2\t30\t4096\t1\t1\t16\n;\
        \nbus\t8\t1\t4\t2\t2\t30\t25\t0\t1\t16\n;\
        \nbus\t8\t1\t4\t2\t2\t30\t25\t1\t0\t16\n;\
        \nbus\t8\t1\t4\t2\t2\t30\t25\t1\t1\t257\n;\
        \nbus\t8\t1\t4\t2\t2\t30\t25\t1\t1\t16\t16\n;\
        \nint\t15\t0\t0\t1\n;\
        \nint\t1\t15\t0\t1\n;\
        \nint\t1\t0\t8\t1\n;\
        \nint\t1\t0\t0\t17\n;\
        \nacc\t32\t0\t0\t4\t2\t10\t5\t1000\t2000\n;\
        \nacc\t0\t15\t0\t4\t2\t10\t5\t1000\t2000\n;\
        \nacc\t0\t0\t8\t4\t2\t10\t5\t1000\t2000\n;\
        \nacc\t0\t0\t0\t32\t2\t10\t5\t1000\t2000\n;\
        \nacc\t0\t0\t0\t4\t0\t10\t5\t1000\t2000\n;\
        \nacc\t0\t0\t0\t4\t2\t65536\t5\t1000\t2000\n;\
        \nacc\t0\t0\t0\t4\t2\t10\t65536\t1000\t2000\n;\
        \nacc\t0\t0\t0\t4\t2\t10\t5\t4294967296\t2000\n;\
        \nacc\t0\t0\t0\t4\t2\t10\t5\t1000\t0\n;",
        2,
        2,
    );
}

// The fields of every record; a total; a line that is in its limits.
fn say_limits(out: &impl Print) {
    say_tree_limits(out);
    say_each(
        out,
        true,
        b"\no\t4294967295\t0\t1\n;\
        \no\t0\t0\t17\n;\
        \no\t0\t3\t16\n;",
        2,
        2,
    );
    say(out, false, b"\nint\t0\t-\t-\t1\n", 2, 2);
}

// Order, by the record that is refused and in general.
fn say_order(out: &impl Print, bus: &[u8], offers: &[u8]) {
    say(out, false, bus, 3, 1);
    say_each(
        out,
        false,
        b"int\t3\t1\t6\t1\n;\
        acc\t7\t0\t1\t4\t2\t10\t5\t1000\t2000\n;",
        3,
        1,
    );
    say(out, false, bus, 3, 2);
    say(out, false, b"", 3, 1);
    say(out, true, offers, 3, 1);
}

// The other numbers of a file.
fn say_places(out: &impl Print, bus: &[u8], offers: &[u8]) {
    say_each(
        out,
        false,
        b"int\t3\t1\t6\t1\n;\
        acc\t7\t0\t1\t4\t2\t10\t5\t1000\t2000\n;",
        4,
        1,
    );
    say(out, false, bus, 4, 1);
    say(out, false, b"int\t5\t4\t0\t1\n", 5, 1);
    say(out, false, bus, 5, 1);
    say(out, true, offers, 6, 2);
    say(out, false, bus, 6, 1);
    say(out, true, offers, 7, 2);
    say(out, false, bus, 7, 1);
}

// Both, of a bus line and of a trace.
fn say_lines(out: &impl Print, bus: &[u8], offers: &[u8]) {
    say_order(out, bus, offers);
    say_places(out, bus, offers);
}

// These numbers, a byte each, of a tree file.
fn say_of_tree(out: &impl Print, tree: &[u8], numbers: &[u8], line: u32) {
    for &number in numbers {
        say(out, false, tree, number, line);
    }
}

// Numbers that name no line of a file, and those of a file without a line.
fn say_numbers(out: &impl Print) {
    say_lines(
        out,
        b"bus\t8\t1\t4\t2\t2\t30\t25\t1\t1\t16\n",
        b"o\t5\t0\t1\no\t3\t6\t1\n",
    );
    let tree = b"bus\t8\n";
    say(out, false, tree, 0, 1);
    say_of_tree(out, tree, &[8, 9, 10, 11], 0);
    say(out, true, tree, 7, 0);
    say(out, true, tree, 12, 0);
    say_of_tree(out, tree, &[12, 13, 14, 15, 16, 17], 1);
    say_of_tree(out, tree, &[13, 14, 15, 16, 17, 255, 1, 2, 3], 0);
}

// What a bus3 line may be refused for, and names that are no record.
fn say_older(out: &impl Print) {
    say_each(
        out,
        false,
        b"bus33\t8\n;\
        BUS3\t8\n;\
        bus3\n;\
        bus3\t8\t1\t4\t2\t2\t30\t25\t1\t1\t-\n;",
        1,
        1,
    );
    say(out, true, b"bus3\t8\n", 1, 1);
    say_each(
        out,
        false,
        b"bus3\t8\t1\t4\t2\t2\t30\t25\t1\t1\t17\n;\
        bus3\t8\t1\t4\t2\t2\t30\t25\t1\t1\t16\t16\n;",
        2,
        1,
    );
    say(out, false, b"bus3\t8\t1\t4\t2\t2\t30\t25\t1\t1\t16\n", 3, 1);
    say(out, false, b"bus3\t8\t1\t4\t2\t2\t30\t25\t1\t1\t16\n", 4, 1);
    say(out, false, b"bus3\t8\t1\t4\t2\t2\t30\t25\t1\t1\t16\n", 5, 1);
}

// Of a refusal also what is refused.
fn run_over(out: &impl Print, served: &mut [u8], channel: Channel, tree: &[u8], trace: &[u8]) {
    let o = razhikum::razhikum_run(tree, channel_number(channel), trace, served);
    show(out, |page| simulation::page_text(o, served, 0, page));
    let part = simulation::refused_part(o, served.len());
    match part {
        None => {}
        Some(Part::Tree) => say_line(out, b"of the tree\n"),
        Some(Part::Word) => say_line(out, b"of SLOTS\n"),
        Some(Part::Trace) => say_line(out, b"of the trace\n"),
    }
}

fn simulate(out: &impl Print, channel: Channel, tree: &[u8], trace: &[u8], word: &[u8]) {
    let asked = simulation::slots_asked(channel, word);
    let Asked::Run(Simulation { channel, slots }) = asked else {
        say_line(out, b"no number\n");
        return;
    };
    let mut served = [0u8; 65537];
    if slots <= 65537 {
        run_over(out, &mut served[..slots], channel, tree, trace);
    }
}

// The first page of the reply's text; of a refusal also what is refused.
fn why(out: &impl Print, channel: Channel, tree: &[u8], trace: &[u8], a: u8, k: u32) {
    let mut list = [0u8; 65536];
    let reply = inquiry::inquire(tree, channel, trace, a, k, &mut list);
    show(out, |page| inquiry::page_text(reply, &list, 0, page));
    let Err(e) = reply else {
        return;
    };
    match e.part {
        inquiry::Part::Tree => say_line(out, b"of the tree\n"),
        inquiry::Part::Trace => say_line(out, b"of the trace\n"),
        inquiry::Part::Accelerator => say_line(out, b"of ACC\n"),
        inquiry::Part::Number => say_line(out, b"of NUMBER\n"),
    }
}

fn why_words(out: &impl Print, tree: &[u8]) {
    let trace = b"o\t0\t0\t2\no\t0\t1\t1\n";
    why(out, Channel::Read, tree, trace, 0, 1);
    why(out, Channel::Read, tree, trace, 0, 2);
    why(out, Channel::Read, tree, trace, 1, 1);
    why(out, Channel::Read, tree, trace, 0, 3);
    why(out, Channel::Read, tree, trace, 0, 0);
    why(out, Channel::Read, tree, trace, 2, 0);
    why(out, Channel::Read, tree, trace, 255, 4294967295);
    why(out, Channel::Read, tree, b"o\t0\t2\t1\n", 2, 0);
    why(out, Channel::Read, b"x\n", b"x\n", 2, 0);
}

// The same trace as writes: accelerator 1 has none, so that none of it is served and none waits for it.
fn why_writes(out: &impl Print, tree: &[u8]) {
    let trace = b"o\t0\t0\t2\no\t0\t1\t1\n";
    why(out, Channel::Write, tree, trace, 0, 1);
    why(out, Channel::Write, tree, trace, 0, 2);
    why(out, Channel::Write, tree, trace, 1, 1);
    why(out, Channel::Write, tree, trace, 2, 1);
    why(out, Channel::Write, tree, b"o\t0\t2\t1\n", 0, 1);
    why(out, Channel::Write, b"x\n", trace, 0, 1);
}

// The text of a reply to a burst, with these arrays.
fn show_pieces(
    out: &impl Print,
    reply: Result<u32, Denied<splitting::Part>>,
    starts: &[u32; 256],
    beats: &[u32; 256],
) {
    show(
        out,
        |page| splitting::reply_text(reply, starts, beats, page),
    );
}

// Of a refusal also what is refused.
fn split(out: &impl Print, tree: &[u8], start: u32, beats: u32, size: u32) {
    let b = Burst { start, beats, size };
    let mut starts = [7u32; 256];
    let mut lengths = [8u32; 256];
    let reply = splitting::split_file(tree, b, &mut starts, &mut lengths);
    show_pieces(out, reply, &starts, &lengths);
    let Err(e) = reply else {
        return;
    };
    match e.part {
        splitting::Part::Tree => say_line(out, b"of the tree\n"),
        splitting::Part::Address => say_line(out, b"of ADDRESS\n"),
        splitting::Part::Beats => say_line(out, b"of BEATS\n"),
        splitting::Part::Size => say_line(out, b"of SIZE\n"),
    }
}

// A burst of one piece and of several, with B 16: its first piece may start within a beat.
fn split_pieces(out: &impl Print, tree: &[u8]) {
    split(out, tree, 4096, 1, 1);
    split(out, tree, 0, 16, 4);
    split(out, tree, 0, 17, 4);
    split(out, tree, 5, 40, 4);
    split(out, tree, 1, 256, 16);
}

// Bursts at the end of a page, and of the last page.
fn split_at_ends(out: &impl Print, tree: &[u8]) {
    split(out, tree, 4090, 3, 2);
    split(out, tree, 4091, 3, 2);
    split(out, tree, 4092, 3, 2);
    split(out, tree, 4095, 1, 1);
    split(out, tree, 4095, 2, 1);
    split(out, tree, 4095, 1, 128);
    split(out, tree, 4095, 2, 128);
    split(out, tree, 4063, 33, 1);
    split(out, tree, 4064, 33, 1);
    split(out, tree, 16, 256, 16);
    split(out, tree, 4294967295, 1, 1);
    split(out, tree, 4294967295, 2, 1);
    split(out, tree, 4294967168, 1, 128);
    split(out, tree, 4294967295, 1, 128);
    split(out, tree, 4294967168, 2, 128);
}

// No burst: 15 comes before 16, and the tree before both.
fn split_refused(out: &impl Print, tree: &[u8]) {
    split(out, tree, 0, 0, 1);
    split(out, tree, 0, 257, 1);
    split(out, tree, 0, 1, 0);
    split(out, tree, 0, 1, 3);
    split(out, tree, 0, 1, 256);
    split(out, tree, 4095, 2, 3);
    split(out, tree, 4095, 257, 3);
    split(out, tree, 5, 4294967295, 4294967295);
    split(out, b"x\n", 5, 40, 4);
    split(out, b"x\n", 0, 0, 0);
    split(out, b"", 4095, 2, 1);
}

// B 1: a piece for each beat, 256 at most; and B 256.
fn split_lengths(out: &impl Print) {
    let one =
        b"bus\t8\t1\t4\t2\t2\t30\t25\t1\t1\t1\nint\t0\t-\t-\t1\nacc\t0\t0\t0\t4\t2\t10\t5\t1000\t2000\n";
    split(out, one, 1, 3, 4);
    split(out, one, 4093, 3, 1);
    split(out, one, 4294963201, 256, 16);
    let most =
        b"bus\t8\t1\t4\t2\t2\t30\t25\t1\t1\t256\nint\t0\t-\t-\t1\nacc\t0\t0\t0\t4\t2\t10\t5\t1000\t2000\n";
    split(out, most, 4294963201, 256, 16);
}

// Arrays with other numbers than a burst has, by a count of pieces: those that they have are listed.
fn split_arrays(out: &impl Print) {
    let starts = [4294967295u32; 256];
    let beats = [4294967295u32; 256];
    show_pieces(out, Ok(0), &starts, &beats);
    show_pieces(out, Ok(2), &starts, &beats);
    show_pieces(out, Ok(4294967295), &[7u32; 256], &[8u32; 256]);
}

// The texts of bursts cut into pieces.
fn splits(out: &impl Print, tree: &[u8]) {
    split_pieces(out, tree);
    split_at_ends(out, tree);
    split_refused(out, tree);
    split_lengths(out);
    split_arrays(out);
}

// A simulation by each kind of word SLOTS.
fn simulate_words(out: &impl Print, tree: &[u8], trace: &[u8]) {
    simulate(out, Channel::Read, tree, trace, b"0");
    simulate(out, Channel::Read, tree, trace, b"1");
    simulate(out, Channel::Read, tree, trace, b"65536");
    simulate(out, Channel::Read, tree, trace, b"65537");
    simulate(
        out,
        Channel::Read,
        tree,
        trace,
        b"99999999999999999999999999",
    );
    simulate(out, Channel::Read, tree, trace, b"");
    simulate(out, Channel::Read, tree, trace, b"00");
    simulate(out, Channel::Read, tree, trace, b"-1");
    simulate(out, Channel::Read, tree, trace, b"1x");
}

// The same trace as writes: accelerator 1 has none, and the run is stopped with its request held. So it is where that request comes
// first; without it the run is done.
fn simulate_writes(out: &impl Print, tree: &[u8], trace: &[u8]) {
    simulate(out, Channel::Write, tree, trace, b"0");
    simulate(out, Channel::Write, tree, trace, b"1");
    simulate(out, Channel::Write, tree, trace, b"4");
    simulate(out, Channel::Write, tree, b"o\t0\t1\t1\no\t2\t0\t1\n", b"4");
    simulate(out, Channel::Write, tree, b"o\t0\t0\t2\n", b"65536");
    simulate(out, Channel::Write, tree, trace, b"65537");
    simulate(out, Channel::Write, tree, trace, b"x");
}

// A refused tree, a refused trace, and then also a refused word.
fn simulate_refused(out: &impl Print, tree: &[u8]) {
    simulate(out, Channel::Read, b"x\n", b"", b"1");
    simulate(out, Channel::Write, b"x\n", b"", b"65537");
    simulate(out, Channel::Write, tree, b"o\t0\t2\t1\n", b"1");
    simulate(out, Channel::Read, tree, b"o\t0\t2\t1\n", b"65537");
}

fn reports(out: &impl Print, tree: &[u8]) {
    report(out, tree);
    report(
        out,
        b"bus\t8\t1\t4\t2\t2\t30\t25\t1\t1\t16\nint\t0\t-\t-\t1\nacc\t0\t0\t0\t33\t2\t10\t5\t1000\t2000\n",
    );
    report(out, b"");
}

// Acc lines in another order than their ports, and a return delay of 0; a delay of 3, interconnects above 9, the last port, and the
// largest value of each field; a refused delay.
fn rewritings(out: &impl Print) {
    rewrite(
        out,
        b"bus\t8\t1\t4\t2\t2\t30\t25\t1\t1\t16\t0\n\
        int\t0\t-\t-\t1\n\
        acc\t0\t0\t3\t4\t2\t10\t5\t1000\t2000\n\
        acc\t1\t0\t0\t4\t2\t1\t0\t0\t100\n",
    );
    rewrite(
        out,
        b"bus\t65535\t255\t255\t255\t255\t4095\t4095\t255\t255\t256\t3\n\
        int\t0\t-\t-\t16\n\
        int\t1\t0\t0\t1\n\
        int\t2\t0\t1\t1\n\
        int\t3\t0\t2\t1\n\
        int\t4\t0\t3\t1\n\
        int\t5\t0\t4\t1\n\
        int\t6\t0\t5\t1\n\
        int\t7\t0\t6\t1\n\
        int\t8\t1\t0\t1\n\
        int\t9\t1\t7\t1\n\
        int\t10\t9\t1\t16\n\
        acc\t2\t10\t0\t1\t1\t0\t0\t0\t1\n\
        acc\t0\t10\t7\t16\t1024\t65535\t65535\t4294967295\t4294967295\n\
        acc\t4\t0\t7\t4\t2\t10\t5\t1000\t2000\n\
        acc\t1\t9\t7\t4\t2\t10\t5\t1000\t2000\n\
        acc\t3\t2\t5\t4\t2\t10\t5\t1000\t2000\n",
    );
    rewrite(out, b"bus\t8\t1\t4\t2\t2\t30\t25\t1\t1\t16\t16\n");
}

// A board that speaks AXI3: report, where every job meets its period, and text, and bursts of up to 16 beats and of more, with B 5.
fn older_board(out: &impl Print) {
    let tree =
        b"bus3\t8\t1\t4\t2\t2\t30\t25\t1\t1\t5\t0\nint\t0\t-\t-\t1\nacc\t0\t0\t0\t4\t2\t10\t5\t1000\t4000\n";
    report(out, tree);
    rewrite(out, tree);
    split(out, tree, 3, 16, 4);
    split(out, tree, 3, 17, 4);
    split(out, tree, 0, 256, 1);
    split(out, tree, 0, 0, 4);
    split(out, tree, 0, 16, 3);
    split(out, tree, 4095, 17, 3);
    split(out, tree, 4095, 16, 4);
}

// Its bus line refused: B, a second bus line of either name, and names that no record has.
fn older_refused(out: &impl Print) {
    rewrite(out, b"bus3\t8\t1\t4\t2\t2\t30\t25\t1\t1\t17\n");
    rewrite(
        out,
        b"bus3\t8\t1\t4\t2\t2\t30\t25\t1\t1\t16\nbus\t8\t1\t4\t2\t2\t30\t25\t1\t1\t16\n",
    );
    rewrite(
        out,
        b"bus\t8\t1\t4\t2\t2\t30\t25\t1\t1\t17\nbus3\t8\t1\t4\t2\t2\t30\t25\t1\t1\t16\n",
    );
    rewrite(out, b"bus33\t8\t1\t4\t2\t2\t30\t25\t1\t1\t16\n");
    rewrite(out, b"BUS3\t8\t1\t4\t2\t2\t30\t25\t1\t1\t16\n");
    rewrite(out, b"bus \t8\t1\t4\t2\t2\t30\t25\t1\t1\t16\n");
}

// The texts of the programs on a tree: the reports, the rewritings, the runs, the waits, the pieces.
fn programs(out: &impl Print, tree: &[u8]) {
    reports(out, tree);
    rewritings(out);
    simulate_words(out, tree, b"o\t0\t0\t1\no\t1\t1\t1\n");
    simulate_writes(out, tree, b"o\t0\t0\t1\no\t1\t1\t1\n");
    simulate_refused(out, tree);
    why_words(out, tree);
    why_writes(out, tree);
    splits(out, tree);
    older_board(out);
    older_refused(out);
}

// What reads as a standard input that holds these bytes, and is a terminal or not.
#[derive(Drop)]
struct Given<'a> {
    bytes: &'a [u8],
    terminal: bool,
}

impl Read for Given<'_> {
    fn read(&mut self, buf: &mut [u8]) -> io::Result<usize> {
        let n = self.bytes.len().min(buf.len());
        let (now, later) = self.bytes.split_at(n);
        buf[..n].copy_from_slice(now);
        self.bytes = later;
        Ok(n)
    }
}

impl IsTerminal for Given<'_> {
    fn is_terminal(&self) -> bool {
        self.terminal
    }
}

// The system, but that the program was started with this word, or with none.
#[derive(Drop)]
struct Worded<'a, R> {
    rt: &'a R,
    word: Option<&'a [u8]>,
}

impl<R> Env for Worded<'_, R> {
    fn arg(&self, i: usize, buf: &mut [u8]) -> Result<usize, FillError> {
        let Some(word) = self.word else {
            return Err(FillError::NotPresent);
        };
        if i != 1 {
            return Err(FillError::NotPresent);
        }
        if buf.len() < word.len() {
            return Err(FillError::TooLong);
        }
        buf[..word.len()].copy_from_slice(word);
        Ok(word.len())
    }

    fn var(&self, _name: &str, _buf: &mut [u8]) -> Result<usize, FillError> {
        Err(FillError::NotPresent)
    }

    fn var_at(&self, _i: usize, _buf: &mut [u8]) -> Result<usize, FillError> {
        Err(FillError::NotPresent)
    }
}

impl<R: Print> Print for Worded<'_, R> {
    fn print<D: Display + Drop>(&self, value: D) -> io::Result<()> {
        self.rt.print(value)
    }

    fn println<D: Display + Drop>(&self, value: D) -> io::Result<()> {
        self.rt.println(value)
    }

    fn write_all(&self, bytes: &[u8]) -> io::Result<()> {
        self.rt.write_all(bytes)
    }
}

impl<R: Files> Files for Worded<'_, R> {
    type File = R::File;

    type Dir = R::Dir;

    fn open_file(&self, how: &OpenOptions, path: &str) -> io::Result<R::File> {
        self.rt.open_file(how, path)
    }

    fn open_dir(&self, path: &str) -> io::Result<R::Dir> {
        self.rt.open_dir(path)
    }

    fn metadata(&self, path: &str) -> io::Result<Metadata> {
        self.rt.metadata(path)
    }

    fn symlink_metadata(&self, path: &str) -> io::Result<Metadata> {
        self.rt.symlink_metadata(path)
    }

    fn copy(&self, from: &str, to: &str) -> io::Result<u64> {
        self.rt.copy(from, to)
    }

    fn rename(&self, from: &str, to: &str) -> io::Result<()> {
        self.rt.rename(from, to)
    }

    fn remove_file(&self, path: &str) -> io::Result<()> {
        self.rt.remove_file(path)
    }

    fn create_dir(&self, path: &str) -> io::Result<()> {
        self.rt.create_dir(path)
    }

    fn remove_dir(&self, path: &str) -> io::Result<()> {
        self.rt.remove_dir(path)
    }

    fn remove_dir_all<B: Allocator>(&self, alloc: B, path: &str) -> io::Result<()> {
        self.rt.remove_dir_all(alloc, path)
    }
}

// What `printing::run` does with that word, of a program that is lent as its three functions: on both outputs, here the one.
fn run_lent(rt: &(impl Files + Print), word: Option<&[u8]>, bytes: &[u8], terminal: bool) {
    let system = &Worded { rt, word };
    let s = &Streams {
        out: system,
        errors: system,
    };
    printing::run(
        s,
        &mut Given { bytes, terminal },
        usage::report_usage,
        usage::report_help,
        plan::report,
    );
    printing::run(
        s,
        &mut Given { bytes, terminal },
        usage::rewrite_usage,
        usage::rewrite_help,
        |tree, page| plan::rewrite(tree, page),
    );
}

// A tree and a file that is refused, on standard input; a terminal there; the help; a file by its name.
fn run_all_lent(rt: &(impl Files + Print)) {
    run_lent(
        rt,
        None,
        b"bus\t8\t1\t4\t2\t2\t30\t25\t1\t1\t16\nint\t0\t-\t-\t1\nacc\t1\t0\t3\t4\t2\t1\t0\t0\t100\nacc\t0\t0\t0\t4\t2\t10\t5\t1000\t2000\n",
        false,
    );
    run_lent(
        rt,
        None,
        b"bus\t8\t1\t4\t2\t2\t30\t25\t1\t1\t16\nint\t0\t-\t-\t17\n",
        false,
    );
    run_lent(rt, None, b"", true);
    run_lent(rt, Some(b"--help"), b"", true);
    run_lent(rt, Some(b"five.txt"), b"", true);
}

fn main(rt: HostRuntime) {
    let out = &rt;
    show_usage(out);
    programs(
        out,
        b"bus\t8\t1\t4\t2\t2\t30\t25\t1\t1\t16\nint\t0\t-\t-\t1\nacc\t0\t0\t0\t4\t2\t10\t5\t1000\t2000\nacc\t1\t0\t3\t4\t2\t1\t0\t0\t100\n",
    );
    report_lines(out);
    simulate_lines(out);
    why_lines(out);
    channel_lines(out);
    split_lines(out);
    address_lines(out);
    load_all(&rt, &mut rt.stdin(), &rt.stderr());
    say_shapes(out);
    say_fields(out);
    say_limits(out);
    say_numbers(out);
    say_older(out);
    run_all_lent(&rt);
}
