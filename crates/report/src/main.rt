// report [FILE]: reads a tree file, standard input without a name or with "-", and writes the report of document 01 to standard
// output. A refusal is one line there, and one line in words on standard error.
#![tactic(auto)]

use plan::PlanError;
use printing::{Streams, TreeProgram, run_program};

struct Report;

impl TreeProgram for Report {
    fn usage(&self, page: &mut [u8; 65536]) -> usize {
        usage::report_usage(page)
    }

    fn help(&self, page: &mut [u8; 65536]) -> usize {
        usage::report_help(page)
    }

    fn print(&self, tree: &[u8], page: &mut [u8; 65536]) -> Result<usize, PlanError> {
        plan::report(tree, page)
    }
}

fn main(rt: HostRuntime) {
    let s = &Streams {
        out: &rt,
        errors: &rt.stderr(),
    };
    run_program(s, &mut rt.stdin(), &Report);
}
