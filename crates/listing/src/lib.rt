// The report and the refusal of document 01, each built in a page that the caller lends. Each function answers how long its
// text is and leaves the bytes past it as they were; a page has room for every text.
#![tactic(auto)]

ghost use Rattle.std.specs.Prelude.{true, ◌≡◌};
ghost use Rattle.rules.specs.Rules.{tree_keeps};
ghost use Rattle.put.specs.Page.{ended, Written};
ghost use Rattle.put.specs.Texts.{Puts};
ghost use Rattle.bounds.specs.Bounds.{figures_mean};
ghost use Rattle.listing.specs.Listing.{head_line, verdict_of, row_text, all_line, refusal_text, report_text};

use bounds::{Figures, bound};
use model::Tree;
use put::Text;
use rules::tree_keeps;

fn put_refusal(text: &mut Text, number: u8, line: u32)
    ensures { Puts 50 text.old (refusal_text number line) text.new }
{
    text.bytes(b"refused\t");
    text.field(number as u64, b'\t');
    text.field(line as u64, b'\n');
}

// A verdict, the last field of its line.
fn put_verdict(text: &mut Text, meets: bool)
    ensures { Puts 6 text.old (ended (verdict_of meets)) text.new }
{
    text.bytes(if meets { b"meets\n" } else { b"late\n" });
}

// The line of accelerator a.
fn put_row(text: &mut Text, a: u8, f: Figures)
    ensures { Puts 174 text.old (row_text a (figures_mean f)) text.new }
{
    let reads = f.reads;
    let writes = f.writes;
    let yr = reads.interference;
    let yw = writes.interference;
    let response = f.response;
    let period = f.period;
    text.field(a as u64, b'\t');
    text.field(f.level as u64, b'\t');
    text.field(reads.share, b'\t');
    text.field(writes.share, b'\t');
    text.field(yr.0, b'\t');
    text.field(yw.0, b'\t');
    text.field(response.0, b'\t');
    text.field(period.0, b'\t');
    put_verdict(text, f.meets);
}

fn put_head(text: &mut Text)
    ensures { Puts 42 text.old head_line text.new }
{
    text.bytes(b"acc\tlevel\tsr\tsw\tyr\tyw\tresp\tperiod\tverdict\n");
}

fn put_all(text: &mut Text, meets: bool)
    ensures { Puts 10 text.old (all_line meets) text.new }
{
    text.bytes(b"all\t");
    put_verdict(text, meets);
}

// The report of a configuration that keeps its rules: no bound of its accelerators is refused.
fn put_report(text: &mut Text, t: Tree)
    requires { tree_keeps t ≡ true }
    ensures { Puts 5620 text.old (report_text t) text.new }
{
    put_head(text);
    let mut all_meet = true;
    for a in 0..t.accs {
        let Ok(f) = bound(t, a) else {
            return;
        };
        put_row(text, a, f);
        all_meet &= f.meets;
    }
    put_all(text, all_meet);
}

// The report of a configuration. One that breaks its rules is refused by 11: no byte is put, and `out` is left as it was.
pub fn report_text(t: Tree, out: &mut [u8; 65536]) -> usize
    ensures { Written (report_text t) out.old out.new result }
{
    if !tree_keeps(t) {
        return 0;
    }
    let mut text = Text::new(out);
    put_report(&mut text, t);
    text.len()
}

// The line of a refusal.
pub fn refusal_text(number: u8, line: u32, out: &mut [u8; 65536]) -> usize
    ensures { Written (refusal_text number line) out.old out.new result }
{
    let mut text = Text::new(out);
    put_refusal(&mut text, number, line);
    text.len()
}
