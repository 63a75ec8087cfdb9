// What the programs do with files and texts: a file is read, a text is put into a page and written, page by page where it has several.
// The text is a function that puts it into a page; what is written is outside of every contract (std), so the clauses say that this
// function put it, into an empty page. And what the programs of one tree file do, `report` and `rewrite`: they read the file, standard
// input without a name or with "-", and write a text of its tree to standard output. A refusal is one line there, and one line in words
// on standard error.
#![tactic(auto)]

ghost use Rattle.std.specs.Prelude.{◌≡◌, ◌≤◌, ℕ, List, take, replicate, IfSome};
ghost use Rattle.std.specs.Fn.{FnOnceReturnsAtMut};

use input::filled;
use plan::{PlanError, refused_line, refused_number};
use std::io::{IsTerminal, Read};
use std::rt::{Env, Files};
use usage::{Asked, Source};

// Standard output, with the system's files, and standard error.
#[derive(Drop)]
pub struct Streams<'a, O, E> {
    pub out: &'a O,
    pub errors: &'a E,
}

// A file that was read: its name and its bytes.
#[derive(Clone, Copy)]
pub struct NamedFile<'a> {
    pub name: &'a [u8],
    pub bytes: &'a [u8],
}

// The bytes of the text that is put into the page.
pub fn put_text<'a, F: FnOnce(&mut [u8; 65536]) -> usize>(
    page: &'a mut [u8; 65536],
    text: F,
) -> &'a [u8]
    requires { F.IsAlwaysCallable text }
    ensures { (n : ℕ) × (put : List ℕ) × FnOnceReturnsAtMut F.FnOnce text page.old n put × (result.now ≡ take n put) }
{
    let n = text(page);
    filled(page, n)
}

// Writes the text on standard output as it is put into an empty page, or says why it cannot be written; answers whether all of it was.
pub fn show_text<F: FnOnce(&mut [u8; 65536]) -> usize>(
    s: &Streams<impl Print, impl Print>,
    text: F,
) -> bool
    requires { F.IsAlwaysCallable text }
    ensures { (n : ℕ) × (put : List ℕ) × FnOnceReturnsAtMut F.FnOnce text (replicate 65536 0) n put }
{
    input::write_out(s.out, s.errors, put_text(&mut [0u8; 65536], text))
}

// Writes the text on standard error as it is put into an empty page.
pub fn say_text<F: FnOnce(&mut [u8; 65536]) -> usize>(s: &Streams<impl Print, impl Print>, text: F)
    requires { F.IsAlwaysCallable text }
    ensures { (n : ℕ) × (put : List ℕ) × FnOnceReturnsAtMut F.FnOnce text (replicate 65536 0) n put }
{
    input::say(s.errors, put_text(&mut [0u8; 65536], text));
}

// The pages of a text of which there are `count`, from 0, until one cannot be written; answers how many were written.
pub fn show_pages<F: Fn(u32, &mut [u8; 65536]) -> usize>(
    s: &Streams<impl Print, impl Print>,
    count: u32,
    text: F,
) -> u32
    requires { F.IsAlwaysCallable text }
    ensures { result ≤ count }
{
    for page in 0..count {
        if !show_text(s, |out| text(page, out)) {
            return page;
        }
    }
    count
}

// Reads the file of that name into the buffer, standard input where the name is "-", or says why it cannot be read. One byte more than
// a file may have shows a longer one.
pub fn load<'a>(
    s: &Streams<impl Files + Print, impl Print>,
    stdin: &mut impl Read,
    name: &'a [u8],
    buf: &'a mut [u8; 65537],
) -> Option<NamedFile<'a>>
    ensures { IfSome result (λ f. f.name.now ≡ name.now) }
{
    let n = input::load(name, s.out, stdin, s.errors, buf)?;
    let bytes = filled(buf, n);
    Some(NamedFile { name, bytes })
}

// The refusal: the line of document 01, and for a person the file's name and what is wrong.
fn refuse(s: &Streams<impl Print, impl Print>, file: NamedFile<'_>, e: PlanError) {
    let number = refused_number(e);
    let line = refused_line(e);
    show_text(s, |page| listing::refusal_text(number, line, page));
    reasons::explain(s.errors, file.name, false, file.bytes, number, line);
}

// Writes what `print` puts into a page of the file's tree, or its refusal.
fn print_bytes<F: FnOnce(&[u8], &mut [u8; 65536]) -> Result<usize, PlanError>>(
    s: &Streams<impl Print, impl Print>,
    file: NamedFile<'_>,
    print: F,
)
    requires { F.IsAlwaysCallable print }
{
    let mut page = [0u8; 65536];
    match print(file.bytes, &mut page) {
        Ok(n) => {
            input::write_out(s.out, s.errors, filled(&page, n));
        }
        Err(e) => refuse(s, file, e),
    }
}

// Writes what the program prints of the file's tree, or its refusal.
fn print_tree<P: TreeProgram>(
    s: &Streams<impl Print, impl Print>,
    file: NamedFile<'_>,
    program: &P,
) {
    print_bytes(s, file, |tree, page| program.print(tree, page));
}

fn print_file<P: TreeProgram>(
    s: &Streams<impl Files + Print, impl Print>,
    stdin: &mut impl Read,
    name: &[u8],
    program: &P,
) {
    let mut buf = [0u8; 65537];
    let Some(file) = load(s, stdin, name, &mut buf) else {
        return;
    };
    print_tree(s, file, program);
}

// Reads the file of that name, and writes what `print` puts into a page of its tree, or its refusal.
fn print_named<F: FnOnce(&[u8], &mut [u8; 65536]) -> Result<usize, PlanError> + Drop>(
    s: &Streams<impl Files + Print, impl Print>,
    stdin: &mut impl Read,
    name: &[u8],
    print: F,
)
    requires { F.IsAlwaysCallable print }
{
    let mut buf = [0u8; 65537];
    let Some(file) = load(s, stdin, name, &mut buf) else {
        return;
    };
    print_bytes(s, file, print);
}

// A program of one tree file: its usage and its help, each put into a page, and what it prints of the file's tree.
pub trait TreeProgram {
    fn usage(&self, page: &mut [u8; 65536]) -> usize;

    fn help(&self, page: &mut [u8; 65536]) -> usize;

    fn print(&self, tree: &[u8], page: &mut [u8; 65536]) -> Result<usize, PlanError>;
}

// What the first three words ask of a program of one tree file, with the first, which may be the file's name.
fn asked<'a>(
    words: &impl Env,
    stdin: &impl IsTerminal,
    first: &'a mut [u8; 131072],
) -> (Asked<Source>, &'a [u8]) {
    let mut second = [0u8; 131072];
    let mut third = [0u8; 131072];
    let name = input::word(words, 1, first);
    let terminal = stdin.is_terminal();
    let asked = usage::file_asked(
        input::words(words),
        name,
        input::word(words, 2, &mut second),
        input::word(words, 3, &mut third),
        terminal,
    );
    (asked, name)
}

// What the first three words ask of the program: its usage, its help, or what it prints of the file's tree.
pub fn run_program<P: TreeProgram>(
    s: &Streams<impl Env + Files + Print, impl Print>,
    stdin: &mut (impl Read + IsTerminal),
    program: &P,
) {
    let mut first = [0u8; 131072];
    let (asked, name) = asked(s.out, stdin, &mut first);
    match asked {
        Asked::Usage => say_text(s, |page| program.usage(page)),
        Asked::Help => {
            show_text(s, |page| program.help(page));
        }
        Asked::Run(Source::Input) => print_file(s, stdin, b"-", program),
        Asked::Run(Source::File) => print_file(s, stdin, name, program),
    }
}

// What the first three words ask of a program that is lent as three functions, each of which is called once at most: its usage, its help,
// or what it prints of the file's tree.
pub fn run<
    U: FnOnce(&mut [u8; 65536]) -> usize + Drop,
    H: FnOnce(&mut [u8; 65536]) -> usize + Drop,
    F: FnOnce(&[u8], &mut [u8; 65536]) -> Result<usize, PlanError> + Drop,
>(
    s: &Streams<impl Env + Files + Print, impl Print>,
    stdin: &mut (impl Read + IsTerminal),
    usage: U,
    help: H,
    print: F,
)
    requires usage { U.IsAlwaysCallable usage }
    requires help { H.IsAlwaysCallable help }
    requires print { F.IsAlwaysCallable print }
{
    let mut first = [0u8; 131072];
    let (asked, name) = asked(s.out, stdin, &mut first);
    match asked {
        Asked::Usage => say_text(s, usage),
        Asked::Help => {
            show_text(s, help);
        }
        Asked::Run(Source::Input) => print_named(s, stdin, b"-", print),
        Asked::Run(Source::File) => print_named(s, stdin, name, print),
    }
}
