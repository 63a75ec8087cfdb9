// rewrite [FILE]: reads a tree file, standard input without a name or with "-", and writes its tree back as text to standard output.
// A refusal is one line there, and one line in words on standard error.
#![tactic(auto)]

use plan::PlanError;
use printing::{Streams, TreeProgram, run_program};

struct Rewrite;

impl TreeProgram for Rewrite {
    fn usage(&self, page: &mut [u8; 65536]) -> usize {
        usage::rewrite_usage(page)
    }

    fn help(&self, page: &mut [u8; 65536]) -> usize {
        usage::rewrite_help(page)
    }

    fn print(&self, tree: &[u8], page: &mut [u8; 65536]) -> Result<usize, PlanError> {
        plan::rewrite(tree, page)
    }
}

fn main(rt: HostRuntime) {
    let s = &Streams {
        out: &rt,
        errors: &rt.stderr(),
    };
    run_program(s, &mut rt.stdin(), &Rewrite);
}
