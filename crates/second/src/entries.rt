// A configuration that comes as its entries and not as a file: "A configuration keeps them if a tree file could have given
// it". Its lines are judged in order, as those of a file.
use crate::book::{fits, set_broken};
use crate::scan::{ACC, BUS, BUS3, INT, set_dash, set_field};
use store::clear;

// No line is judged yet.
pub fn begin(d: &mut [usize; 16384]) {
    clear(d, 0, 1024);
}

// The number in field i of the line, the first after the record name at 1.
pub fn put_entry(d: &mut [usize; 16384], i: usize, x: usize) {
    set_field(d, i, x);
}

// "-" in field i of the line.
pub fn put_dash(d: &mut [usize; 16384], i: usize) {
    set_dash(d, i);
}

// Is the line a bus line, a bus3 line, an int line, an acc line that a file may have here?
pub fn bus_fits(d: &mut [usize; 16384]) -> bool {
    fits(BUS, d)
}

pub fn bus3_fits(d: &mut [usize; 16384]) -> bool {
    fits(BUS3, d)
}

pub fn int_fits(d: &mut [usize; 16384]) -> bool {
    fits(INT, d)
}

pub fn acc_fits(d: &mut [usize; 16384]) -> bool {
    fits(ACC, d)
}

// No tree file could have given the configuration.
pub fn break_rules(d: &mut [usize; 16384]) {
    set_broken(d);
}
