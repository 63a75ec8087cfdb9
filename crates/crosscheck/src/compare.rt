// The library and the second implementation, side by side on one input.
use answercheck::{OURS, same_figures};
use callcheck::channel_of;
use lines::FileError;
use model::Tree;
use second::queues::{Ended, refused, run_end, run_trace};
use second::response::{bound_refusal, figures};
use second::{Said, Wrong};

// The bound of accelerator a, which may be one that the tree has not.
pub fn same_bound(t: Tree, a: u8, d: &[usize; 16384], wrong: Wrong) -> bool {
    let refusal = bound_refusal(d, a as usize, wrong);
    match bounds::bound(t, a) {
        Err(r) => model::number(r) as usize == refusal,
        Ok(f) => {
            if refusal != 0 {
                return false;
            }
            same_figures(f, figures(d, a as usize, wrong))
        }
    }
}

// Whether every bound of the tree agrees.
pub fn same_bounds(t: Tree, d: &[usize; 16384], wrong: Wrong) -> bool {
    (0..33u8).all(|a| (t.accs < a) || same_bound(t, a, d, wrong))
}

// Puts a pattern that no run writes into a buffer.
fn fill(out: &mut [u8]) {
    for (i, b) in out.iter_mut().enumerate() {
        *b = (i % 199 + 40) as u8;
    }
}

// What a call answers over n bytes from a place on, which hold the pattern before it.
pub fn over<T, F: FnOnce(&mut [u8]) -> T>(
    out: &mut [u8; 131074],
    from: usize,
    n: usize,
    call: F,
) -> T
    requires { F.IsAlwaysCallable call }
{
    let at = from % 65538;
    let part = &mut out[at..at + n % 65538];
    fill(part);
    call(part)
}

// The library's run on a channel, its answer in the second implementation's terms.
fn run_library(t: Tree, channel: usize, trace: &[u8], out: &mut [u8]) -> Ended {
    match runner::run(t, channel_of(channel), trace, out) {
        Err(FileError::Refused(r, line)) => refused(model::number(r) as usize, line as usize),
        Err(FileError::Broken) => refused(11, 0),
        Ok(runner::RunEnd::Done(n)) => run_end(true, n as usize),
        Ok(runner::RunEnd::Stopped(n)) => run_end(false, n as usize),
    }
}

// The library's run over the first n bytes.
pub fn library_run(
    t: Tree,
    channel: usize,
    trace: &[u8],
    out: &mut [u8; 131074],
    n: usize,
) -> Ended {
    over(out, 0, n, |part| run_library(t, channel, trace, part))
}

// The second run on a channel, over n bytes from OURS on.
pub fn second_run(
    trace: Said,
    d: &mut [usize; 16384],
    channel: usize,
    out: &mut [u8; 131074],
    n: usize,
    wrong: Wrong,
) -> Ended {
    over(out, OURS, n, |part| {
        run_trace(trace, d, channel, part, wrong)
    })
}
