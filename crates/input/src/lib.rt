// The words of a program, files read to their end and texts written, for every program. Only an answer of 0 is the end of a
// file: a read that fails is no end. What cannot be read or written is said on standard error, once. `answered` has an equation
// for what one call answered; which calls were answered so, and what stands in a file, is outside of every contract (std),
// so the others bound the bytes alone.
//
// The system is lent by its parts: the words (`Env`), the files (`Files`), standard input (`Read`), and standard output and standard
// error, each as a `Print`, which takes bytes that are no text, as a file's name may be.
#![tactic(auto)]

ghost use Rattle.std.specs.Prelude.{◌≡◌, ◌≤◌, length, take, IfOk, IfSome};
ghost use Rattle.std.specs.Result.{result_ok};
ghost use Rattle.input.specs.Input.{answer_of};

use std::env::FillError;
use std::fs::File;
use std::io::{Error, ErrorKind, Read, Write};
use std::rt::{Env, Files};
use text::part_end;
use usage::is_dash;

// Whether word i was not given. One that was given is longer than no byte, or is empty.
fn is_missing(words: &impl Env, i: usize) -> bool {
    matches!(words.arg(i, &mut []), Err(FillError::NotPresent))
}

// How many words stand after the program's name.
pub fn words(words: &impl Env) -> usize {
    (1..usize::MAX)
        .take_while(|&i| !is_missing(words, i))
        .count()
}

// Word i, from 1, which is put into the buffer; no byte where it was not given. The longest word of Linux fits.
pub fn word<'a>(words: &impl Env, i: usize, buf: &'a mut [u8; 131072]) -> &'a [u8]
    ensures { length result.now ≤ length buf.old }
{
    let n = words.arg(i, buf).unwrap_or(0);
    &buf[..n]
}

// The part of a buffer that was filled, a text in a page or a file: its first n bytes, or all where there are fewer. The buffer is lent
// as an array: a caller's part of it then needs no proof.
pub fn filled<const N: usize>(buf: &[u8; N], n: usize) -> &[u8]
    ensures { result.now ≡ take n buf.now }
{
    &buf[..n.min(N)]
}

// What a read or a write of at most n bytes answered: its error where it failed, else how many bytes it moved; a read that moves none
// is at the end of the file.
fn answered(got: Result<usize, Error>, n: usize) -> Result<usize, Error>
    ensures { result ≡ answer_of got n }
{
    got.map(|k| k.min(n))
}

// Whether a signal came before a byte did.
fn is_interrupted(got: &Result<usize, Error>) -> bool {
    matches!(got, Err(e) if e.kind() == ErrorKind::Interrupted)
}

// What the call, a read or a write of at most n bytes, answered. Where a signal came before a byte did it calls again, a hundred times
// at most, since every function here ends.
fn retried<F: FnMut() -> Result<usize, Error>>(n: usize, mut call: F) -> Result<usize, Error>
    requires { F.IsAlwaysCallable call }
    ensures { IfOk result (λ k. k ≤ n) }
{
    let mut got = call();
    for _ in 1..100 {
        if !is_interrupted(&got) {
            break;
        }
        got = call();
    }
    answered(got, n)
}

fn read_some(from: &mut impl Read, buf: &mut [u8]) -> Result<usize, Error>
    ensures { IfOk result (λ n. n ≤ length buf.new) }
{
    retried(buf.len(), || from.read(buf))
}

// Reads into the buffer until the end of the file or of the buffer: after a short read it reads again.
pub fn read_all(from: &mut impl Read, buf: &mut [u8]) -> Result<usize, Error>
    ensures { IfOk result (λ n. n ≤ length buf.new) }
{
    let mut done = 0;
    // A `while`: each turn goes on by as much as the system moved.
    while done < buf.len() {
        let more = read_some(from, &mut buf[done..])?;
        if more == 0 {
            return Ok(done);
        }
        done += more;
    }
    Ok(done)
}

// Reads into the buffer until it is full, the file ends or a read fails, and answers how many bytes were read: those before a read that
// failed count.
pub fn read_full(from: &mut impl Read, buf: &mut [u8]) -> usize
    ensures { result ≤ length buf.new }
{
    let mut done = 0;
    // A `while`: each turn goes on by as much as the system moved.
    while done < buf.len() {
        let part = from.read(&mut buf[done..]).unwrap_or(0);
        if part == 0 {
            return done;
        }
        done += part;
    }
    done
}

// Reads the file of that name, which is closed where it is let go.
fn read_named(path: &str, files: &impl Files, buf: &mut [u8]) -> Result<usize, Error>
    ensures { IfOk result (λ n. n ≤ length buf.new) }
{
    read_all(&mut File::open(files, path)?, buf)
}

// How many bytes were read of the file of that name, or says why it cannot be read.
fn read_or_say(name: &[u8], errors: &impl Print, read: Result<usize, Error>) -> Option<usize>
    ensures { result ≡ result_ok read }
{
    read.inspect_err(|e| cannot_read(name, errors, e)).ok()
}

// Says which file cannot be read, and why.
fn cannot_read(name: &[u8], errors: &impl Print, cause: &Error) {
    say_name(name, errors);
    say(errors, b" cannot be read");
    say_cause(errors, cause);
}

// Writes the name of a file on standard error: of an empty one the quotes, which otherwise nobody would see.
fn say_name(name: &[u8], errors: &impl Print) {
    if name.len() == 0 {
        say(errors, b"\"\"");
        return;
    }
    say(errors, name);
}

// Writes a text on standard error. Where that fails nothing is left to say it on.
pub fn say(errors: &impl Print, text: &[u8]) {
    let _ = errors.write_all(text);
}

// Says why a call failed, in the system's words, and ends the line.
fn say_cause(errors: &impl Print, cause: &Error) {
    let mut text = [0u8; 512];
    let n = cause_text(cause, &mut text);
    say(errors, b": ");
    say(errors, filled(&text, n));
    say(errors, b"\n");
}

// Puts the system's words for the error at the start of the text and answers their length. After them std has the error's number
// in parentheses, and none of the system's words has any: from those on it is left out.
fn cause_text(cause: &Error, text: &mut [u8; 512]) -> usize {
    let mut rest = &mut text[..];
    let _ = write!(rest, "{cause}");
    let left = rest.len();
    let n = 512usize.saturating_sub(left);
    let end = part_end(text, 0, b'(');
    if end < n { end.saturating_sub(1) } else { n }
}

// Reads the file of that name, standard input where the name is "-", and answers how many bytes it has; none where it cannot be read,
// which is then said. A name that is not UTF-8 cannot be given to std, so such a file is not read.
pub fn load(
    name: &[u8],
    files: &impl Files,
    stdin: &mut impl Read,
    errors: &impl Print,
    buf: &mut [u8],
) -> Option<usize>
    ensures { IfSome result (λ n. n ≤ length buf.new) }
{
    if is_dash(name) {
        return read_or_say(b"standard input", errors, read_all(stdin, buf));
    }
    let Ok(path) = std::str::from_utf8(name) else {
        say(errors, name);
        say(errors, b" cannot be read: its name is not UTF-8\n");
        return None;
    };
    read_or_say(name, errors, read_named(path, files, buf))
}

fn write_some(out: &impl Print, text: &[u8]) -> Result<usize, Error>
    ensures { IfOk result (λ n. n ≤ length text.now) }
{
    retried(text.len(), || out.write_some(text))
}

// Writes a text on standard output, after a short write the rest.
fn write_whole(out: &impl Print, text: &[u8]) -> Result<(), Error> {
    let mut sent = 0;
    // A `while`: each turn goes on by as much as the system moved.
    while sent < text.len() {
        let more = write_some(out, &text[sent..])?;
        if more == 0 {
            return Err(Error::new(ErrorKind::WriteZero, "it takes no byte"));
        }
        sent += more;
    }
    Ok(())
}

// Writes a text on standard output, or says why it cannot be written; answers whether all of it was.
pub fn write_out(out: &impl Print, errors: &impl Print, text: &[u8]) -> bool {
    let Err(cause) = write_whole(out, text) else {
        return true;
    };
    say(errors, b"standard output cannot be written");
    say_cause(errors, &cause);
    false
}

// Says something of a file on standard error: its name, and what.
pub fn say_of(errors: &impl Print, name: &[u8], what: &[u8]) {
    if is_dash(name) {
        say(errors, b"standard input");
    } else {
        say(errors, name);
    }
    say(errors, b": ");
    say(errors, what);
}
