// The second reader of a tree. The tree is its lines: row r of the store holds the numbers of the file's line r + 1, eleven
// to a row; whether its first line is named bus or bus3 stands beside them. Whatever a tree says is looked up by going through the rows.
ghost use Rattle.std.specs.Prelude.{◌≡◌};
ghost use Rattle.second.specs.Rows.{cell_of, rows_of, ints_of, accs_of, is_older, int_row, acc_row, is_on, block_of, carried_of};

use crate::scan::{
    ACC, BUS, BUS3, INT, Scan, any_dash, begun, field, is_dash, read_lines, set_field, within,
};
use crate::{Said, Wrong, answer};
use store::{add, clear, get, put};

// How many rows there are, how many of them are int lines and acc lines, and for each accelerator its row.
const ROWS: usize = 528;

const INTS: usize = 529;

const ACCS: usize = 530;

const ROW_OF: usize = 560;

// 1 if the configuration breaks its rules.
const BROKEN: usize = 531;

// 1 if the first line is named bus3.
const OLDER: usize = 532;

// The channels: numbers and no enum, since the store has the channel of the state, and the tests draw it and count by it.
pub const READ: usize = 0;

pub const WRITE: usize = 1;

// What a port carries: an accelerator's number, 32 + an interconnect's number, or nothing; one number, of which `carried_of` speaks.
pub const NOTHING: usize = 255;

// The number in a column of a row.
pub fn cell(d: &[usize; 16384], row: usize, column: usize) -> usize
    ensures { result ≡ cell_of d.now row column }
{
    get(d, (row % 48) * 11, column)
}

fn rows(d: &[usize; 16384]) -> usize
    ensures { result ≡ rows_of d.now }
{
    get(d, ROWS, 0)
}

pub fn ints(d: &[usize; 16384]) -> usize
    ensures { result ≡ ints_of d.now }
{
    get(d, INTS, 0)
}

pub fn accs(d: &[usize; 16384]) -> usize
    ensures { result ≡ accs_of d.now }
{
    get(d, ACCS, 0)
}

// Is the bus line of the tree named bus3? Then it is a tree of the older kind, AXI3.
pub fn is_older(d: &[usize; 16384]) -> bool
    ensures { result ≡ is_older d.now }
{
    get(d, OLDER, 0) == 1
}

// The most beats that a burst has, and the most that B may be: 16 in AXI3, 256 in AXI4.
pub fn most_beats(older: bool) -> usize {
    if older { 16 } else { 256 }
}

// The row of an interconnect: int lines come right after the bus line, in order.
pub fn int_row(i: usize) -> usize
    ensures { result ≡ int_row i }
{
    i.wrapping_add(1)
}

pub fn acc_row(d: &[usize; 16384], a: usize) -> usize
    ensures { result ≡ acc_row d.now a }
{
    get(d, ROW_OF, a % 32)
}

// How many transactions the job of accelerator a has on a channel.
fn job(d: &[usize; 16384], a: usize, channel: usize) -> usize {
    let row = acc_row(d, a);
    if channel == READ {
        return cell(d, row, 5);
    }
    cell(d, row, 6)
}

pub fn other(channel: usize) -> usize {
    if channel == READ { WRITE } else { READ }
}

// Has the job of accelerator a no transactions on a channel? A wrong rule looks at the other one.
pub fn is_jobless(d: &[usize; 16384], a: usize, channel: usize, wrong: Wrong) -> bool {
    if wrong == Wrong::OtherChannel {
        return job(d, a, other(channel)) == 0;
    }
    job(d, a, channel) == 0
}

// The return delay, in slots.
pub(crate) fn delay(d: &[usize; 16384]) -> usize {
    cell(d, 0, 10)
}

pub(crate) fn is_broken(d: &[usize; 16384]) -> bool {
    get(d, BROKEN, 0) != 0
}

pub(crate) fn set_broken(d: &mut [usize; 16384]) {
    put(d, BROKEN, 0, 1);
}

// Is this row there, and its block on port p of interconnect i? The bus line is no block.
fn is_on(d: &[usize; 16384], i: usize, p: usize, row: usize) -> bool
    ensures { result ≡ is_on d.now i p row }
{
    if rows(d) <= row {
        return false;
    }
    (0 < row) & (cell(d, row, 1) == i) & (cell(d, row, 2) == p)
}

// The block of a row, as a port carries it.
fn block(d: &[usize; 16384], row: usize) -> usize
    ensures { result ≡ block_of d.now row }
{
    let number = cell(d, row, 0);
    if row <= ints(d) {
        return number.wrapping_add(32);
    }
    number
}

// What the port p of interconnect i carries.
pub fn carried(d: &[usize; 16384], i: usize, p: usize) -> usize
    ensures { result ≡ carried_of d.now i p }
{
    let mut found = NOTHING;
    for row in 0..48 {
        if is_on(d, i, p, row) {
            found = block(d, row);
        }
    }
    found
}

// The level of an interconnect: one more than the steps from it up to the root.
pub(crate) fn level(d: &[usize; 16384], i: usize) -> usize {
    let mut here = i;
    let mut steps = 1usize;
    for _ in 0..14usize {
        if here != 0 {
            here = cell(d, int_row(here), 1);
            steps = steps.wrapping_add(1);
        }
    }
    steps
}

// The deepest level of the tree in the rows.
pub fn deepest(d: &[usize; 16384]) -> usize {
    (0..ints(d).min(15)).map(|i| level(d, i)).max().unwrap_or(0)
}

fn grain(d: &[usize; 16384], i: usize) -> usize {
    cell(d, int_row(i), 3)
}

fn parent(d: &[usize; 16384], i: usize) -> usize {
    cell(d, int_row(i), 1)
}

// Is interconnect i on level 4, and has none of the four on its way up the granularity of another?
fn unlike(d: &[usize; 16384], i: usize) -> bool {
    let j = parent(d, i);
    let k = parent(d, j);
    let lower = (grain(d, i) != grain(d, j)) & (grain(d, i) != grain(d, k));
    let upper = (grain(d, j) != grain(d, k)) & (grain(d, 0) != grain(d, k));
    let ends = (grain(d, 0) != grain(d, i)) & (grain(d, 0) != grain(d, j));
    (level(d, i) == 4) & lower & upper & ends
}

// Is there an accelerator on such an interconnect?
pub fn varied(d: &[usize; 16384]) -> bool {
    (0..accs(d).min(32)).any(|a| unlike(d, cell(d, acc_row(d, a), 1)))
}

// The numbers of a bus line: ten, or eleven with the return delay.
fn bus_shaped(numbers: usize, d: &[usize; 16384]) -> bool {
    if (numbers == 10) | (numbers == 11) {
        return !any_dash(d, numbers);
    }
    false
}

// Is this the record name of a bus line, of either kind?
fn is_bus(name: usize) -> bool {
    (name == BUS) | (name == BUS3)
}

fn shaped(s: Scan, d: &[usize; 16384]) -> bool {
    if s.bad {
        return false;
    }
    let name = s.name;
    if is_bus(name) {
        return bus_shaped(s.fields.wrapping_sub(1), d);
    }
    if name == INT {
        return (s.fields == 5) & !is_dash(d, 1) & !is_dash(d, 4);
    }
    if name == ACC {
        return (s.fields == 10) & !any_dash(d, 9);
    }
    false
}

// The most that B may be on a line of this name. A wrong rule has one limit for both names.
fn longest(name: usize, wrong: Wrong) -> usize {
    if wrong == Wrong::LongLetIn {
        return most_beats(false);
    }
    if wrong == Wrong::LongRefused {
        return most_beats(true);
    }
    most_beats(name == BUS3)
}

fn bus_limits(d: &[usize; 16384], most: usize) -> bool {
    let window = within(d, 1, 1, 65535);
    let address = within(d, 2, 1, 255) & within(d, 3, 0, 255);
    let back = within(d, 4, 0, 255) & within(d, 5, 0, 255);
    let memory = within(d, 6, 0, 4095) & within(d, 7, 0, 4095);
    let data = within(d, 8, 1, 255) & within(d, 9, 1, 255);
    let burst = within(d, 10, 1, most) & within(d, 11, 0, 15);
    window & address & back & memory & data & burst
}

fn int_limits(d: &[usize; 16384]) -> bool {
    let parent = is_dash(d, 2) | within(d, 2, 0, 14);
    let port = is_dash(d, 3) | within(d, 3, 0, 7);
    within(d, 1, 0, 14) & parent & port & within(d, 4, 1, 16)
}

fn acc_limits(d: &[usize; 16384]) -> bool {
    let place = within(d, 1, 0, 31) & within(d, 2, 0, 14) & within(d, 3, 0, 7);
    let limits = within(d, 4, 1, 16) & within(d, 5, 1, 1024);
    let job = within(d, 6, 0, 65535) & within(d, 7, 0, 65535);
    place & limits & job & within(d, 8, 0, 4294967295) & within(d, 9, 1, 4294967295)
}

fn limits(name: usize, d: &[usize; 16384], wrong: Wrong) -> bool {
    if is_bus(name) {
        return bus_limits(d, longest(name, wrong));
    }
    if name == INT {
        return int_limits(d);
    }
    acc_limits(d)
}

fn int_in_order(d: &[usize; 16384]) -> bool {
    let number = field(d, 1);
    let root = is_dash(d, 2) & is_dash(d, 3);
    let child = !is_dash(d, 2) & !is_dash(d, 3) & (field(d, 2) < number);
    let placed = ((number == 0) & root) | ((number != 0) & child);
    (0 < rows(d)) & (accs(d) == 0) & (number == ints(d)) & placed
}

// Is this row there, and an acc line?
pub(crate) fn is_acc(d: &[usize; 16384], row: usize) -> bool {
    (ints(d) < row) & (row < rows(d))
}

// Is there an acc line of this number?
fn listed(d: &[usize; 16384], a: usize) -> bool {
    (2..48).any(|row| is_acc(d, row) & (cell(d, row, 0) == a))
}

fn in_order(name: usize, d: &[usize; 16384]) -> bool {
    if is_bus(name) {
        return rows(d) == 0;
    }
    if name == INT {
        return int_in_order(d);
    }
    (field(d, 2) < ints(d)) & !listed(d, field(d, 1))
}

// The line goes into the next row.
fn enter(name: usize, d: &mut [usize; 16384]) {
    let row = rows(d) % 48;
    for i in 0..11 {
        let x = field(d, i + 1);
        put(d, row * 11, i, x);
    }
    add(d, ROWS, 0, 1);
    if name == BUS3 {
        put(d, OLDER, 0, 1);
    }
    if name == INT {
        add(d, INTS, 0, 1);
    }
    if name == ACC {
        add(d, ACCS, 0, 1);
        let a = field(d, 1);
        put(d, ROW_OF, a % 32, row);
    }
}

// The refusals 4 and 5 of a line, or 0.
fn misplaced(name: usize, d: &[usize; 16384]) -> usize {
    if is_bus(name) | is_dash(d, 2) {
        return 0;
    }
    let at = field(d, 2);
    if carried(d, at, field(d, 3)) != NOTHING {
        return 4;
    }
    if (name == INT) & (3 < level(d, at)) {
        return 5;
    }
    0
}

// A line of the right shape: is it accepted? Then it is in its row.
pub(crate) fn fits(name: usize, d: &mut [usize; 16384]) -> bool {
    if !limits(name, d, Wrong::Nothing) {
        return false;
    }
    if !in_order(name, d) {
        return false;
    }
    if misplaced(name, d) != 0 {
        return false;
    }
    enter(name, d);
    true
}

// The delay that a bus line leaves out is 0.
fn fill_in(s: Scan, d: &mut [usize; 16384]) {
    if s.fields == 11 {
        set_field(d, 11, 0);
    }
}

// Is it a bus line, after one of the other record name?
fn is_other(name: usize, d: &[usize; 16384]) -> bool {
    if name == BUS {
        return is_older(d);
    }
    (name == BUS3) & (0 < rows(d)) & !is_older(d)
}

// The refusal of a line, or 0 and the line is in its row; by a wrong rule a second bus line may be in none.
fn judge(s: Scan, d: &mut [usize; 16384], wrong: Wrong) -> usize {
    let name = s.name;
    if !shaped(s, d) {
        return 1;
    }
    fill_in(s, d);
    if (wrong == Wrong::OrderFirst) & !in_order(name, d) {
        return 3;
    }
    if !limits(name, d, wrong) {
        return 2;
    }
    if (wrong == Wrong::OtherName) & is_other(name, d) {
        return 0;
    }
    if !in_order(name, d) {
        return 3;
    }
    let number = misplaced(name, d);
    if number == 0 {
        enter(name, d);
    }
    number
}

// Is the number of some acc line not below their count? As no number is repeated, that is so exactly if one is missing.
fn has_gap(d: &[usize; 16384]) -> bool {
    (2..48).any(|row| is_acc(d, row) & (accs(d) <= cell(d, row, 0)))
}

fn at_end(s: Scan, d: &[usize; 16384]) -> Said {
    if begun(s) {
        return answer(1, s.line);
    }
    if (accs(d) == 0) | has_gap(d) {
        return answer(3, s.line);
    }
    answer(0, 0)
}

// Reads a tree file into the rows.
pub fn read_book(s: &[u8], d: &mut [usize; 16384], wrong: Wrong) -> Said {
    clear(d, 0, 1024);
    if 65536 < s.len() {
        return answer(2, 0);
    }
    match read_lines(s, d, |line, d| judge(line, d, wrong)) {
        Ok(rest) => at_end(rest, d),
        Err(said) => said,
    }
}
