// Why a burst waited: the slots from a transaction's admission up to the one before its service, and who was served in each.
#![tactic(auto)]

ghost use Rattle.std.specs.Prelude.{◌≡◌, not, ◌≤◌, ◌-◌, eqb, length, take, drop};
ghost use Rattle.folds.specs.Fold.{pick};
ghost use Rattle.rules.specs.Rules.{tree_keeps};
ghost use Rattle.meeting.specs.Meeting.{meet_of};
ghost use Rattle.runner.specs.Answers.{run_means, wait_of};
ghost use Rattle.waits.specs.Why.{entries, refused_at, denied, list_over, why_of, why_buffer};
ghost use Rattle.waits.specs.Told.{answer_by, buffer_by, why_by, left_by};
ghost use Rattle.waits.specs.Answers.{why_means};
ghost use Rattle.waits.specs.declared.WhyError.TheVariants.{Run};

use lines::FileError;
use meeting::meet_of;
use model::{Channel, Refusal, Tree};
use rules::tree_keeps;
use runner::{RunWait, Wait, run_wait};

// How many slots a transaction waited, and the slot of its admission.
#[derive(Clone, Copy)]
pub struct Waited {
    pub count: u32,
    pub admission: u32,
}

// Why `why` tells no wait: what the run refuses, with a line of the trace, or 0 for a size, or a configuration that breaks its rules;
// there is no such accelerator; or the run serves fewer of it.
#[derive(Clone, Copy, PartialEq, Eq)]
pub enum WhyError {
    Run(FileError),
    Unknown,
    NotServed,
}

impl From<FileError> for WhyError {
    ghost from_gives = { λ e x. x ≡ Run e };

    fn from(e: FileError) -> WhyError {
        WhyError::Run(e)
    }
}

// The second byte of a slot's two: the interconnect at which b's path meets a's, or 255 for a's own.
fn met(t: Tree, a: u8, b: u8) -> u8
    ensures { result ≡ pick (eqb a b) 255 (meet_of t a b).interconnect }
{
    if a == b {
        return 255;
    }
    meet_of(t, a, b)
}

// The list of the slots from `from` up to the one before `until`, two bytes each, as far as whole pairs fit.
fn put_list(t: Tree, a: u8, bytes: &[u8], from: usize, until: usize, out: &mut [u8])
    requires { (until ≤ length bytes.now) × (length out.old ≤ 65536) }
    ensures { out.new ≡ list_over (entries t a (drop from (take until bytes.now))) out.old }
{
    for i in from..until {
        let p = (i - from) * 2;
        if out.len() <= p + 1 {
            return;
        }
        let b = bytes[i];
        out[p] = b;
        out[p + 1] = met(t, a, b);
    }
}

// How many slots lie from one up to another.
fn apart(from: u32, until: u32) -> u32
    ensures { result ≡ until - from }
{
    until.saturating_sub(from)
}

// The answer by what a run told of transaction k of accelerator a and its bytes: nothing is written before the service is known. Not
// inlined: its copies of the tree would lie on the stack below the reader and the run.
#[inline(never)]
fn explain(
    t: Tree,
    a: u8,
    k: u32,
    w: Wait,
    bytes: &[u8],
    out: &mut [u8],
) -> Result<Waited, WhyError>
    requires { (w.service ≤ length bytes.now) × (length out.old ≤ 65536) }
    ensures answer { why_means result ≡ answer_by t a k (wait_of w) }
    ensures list { out.new ≡ buffer_by t a k (wait_of w) bytes.now out.old }
{
    if t.accs <= a {
        return Err(WhyError::Unknown);
    }
    if (k == 0) | (w.count < k) {
        return Err(WhyError::NotServed);
    }
    put_list(t, a, bytes, w.admission as usize, w.service as usize, out);
    Ok(Waited {
        count: apart(w.admission, w.service),
        admission: w.admission,
    })
}

// The answer by how a run ended: its refusal, or else by what it told.
fn tell(
    t: Tree,
    a: u8,
    k: u32,
    ran: RunWait,
    bytes: &[u8],
    out: &mut [u8],
) -> Result<Waited, WhyError>
    requires { (ran.wait.service ≤ length bytes.now) × (length out.old ≤ 65536) }
    ensures answer { why_means result ≡ why_by (run_means ran.answer) (answer_by t a k (wait_of ran.wait)) }
    ensures list { out.new ≡ left_by (run_means ran.answer) out.old (buffer_by t a k (wait_of ran.wait) bytes.now out.old) }
{
    ran.answer?;
    explain(t, a, k, ran.wait, bytes, out)
}

// A lent buffer over the limit: 11 comes first.
fn over_limit(t: Tree) -> FileError
    ensures { why_means (Err (Run result)) ≡ pick (not (tree_keeps t)) (denied 11) (refused_at 2 0) }
{
    if tree_keeps(t) {
        return FileError::Refused(Refusal::Limit, 0);
    }
    FileError::Broken
}

// Lists the slots in which transaction k of accelerator a waited on a channel, two bytes a slot, and answers how many they are and
// the slot of its admission.
pub fn why(
    t: Tree,
    channel: Channel,
    trace: &[u8],
    a: u8,
    k: u32,
    out: &mut [u8],
) -> Result<Waited, WhyError>
    ensures answer { why_means result ≡ why_of t channel trace.now a k (length out.old) }
    ensures bytes { out.new ≡ why_buffer t channel trace.now a k out.old }
{
    if 65536 < out.len() {
        return Err(WhyError::Run(over_limit(t)));
    }
    let mut bytes = [0u8; 65536];
    let ran = run_wait(t, channel, trace, a, k, &mut bytes);
    tell(t, a, k, ran, &bytes, out)
}
