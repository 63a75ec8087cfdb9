// The configuration and the state of document 01, and how they are read.
//
// Everything here goes by value. Each accessor answers zero, or an empty port, past the end of its array, so that each
// check answers on any value whatever.
#![tactic(auto)]

pub mod access;

ghost use Rattle.std.specs.Prelude.{◌≡◌};
ghost use Rattle.model.specs.Answer.{number_of};

// What a port carries: nothing, the accelerator or the lower interconnect of this number.
#[derive(Clone, Copy, PartialEq, Eq)]
pub enum Port {
    Empty,
    Acc(u8),
    Int(u8),
}

// A port as an element of an array: the project's scope names this form, enum Port inside a port struct, and arrays of such structs.
#[derive(Clone, Copy)]
pub struct PortCell {
    pub port: Port,
}

// The bus line: the window P in slots; the delays tA, dA, dD, dB, pR, pW, tD, tB in clock cycles; the burst length B; the
// return delay r in slots, 0 where the line leaves it out; whether its record name is bus3, which means AXI3.
#[derive(Clone, Copy)]
pub struct Bus {
    pub window: u16,
    pub ta: u8,
    pub da: u8,
    pub dd: u8,
    pub db: u8,
    pub pr: u16,
    pub pw: u16,
    pub td: u8,
    pub tb: u8,
    pub burst: u16,
    pub delay: u8,
    pub axi3: bool,
}

// An interconnect: the parent and the port on it that carries this one (0 and 0 at the root, whose line has "-" there),
// granularity g, and what each of its eight input ports carries.
#[derive(Clone, Copy)]
pub struct Interconnect {
    pub parent: u8,
    pub port: u8,
    pub granularity: u8,
    pub ports: [PortCell; 8],
}

// An accelerator: the interconnect and port that it is on, outstanding limit phi, budget of transactions a window, and of
// a job the reads Nr, writes Nw, computing C and period T.
#[derive(Clone, Copy)]
pub struct Accelerator {
    pub interconnect: u8,
    pub port: u8,
    pub phi: u8,
    pub budget: u16,
    pub reads: u16,
    pub writes: u16,
    pub computing: u32,
    pub period: u32,
}

// A configuration: the first `ints` interconnects and the first `accs` accelerators are in the tree.
#[derive(Clone, Copy)]
pub struct Tree {
    pub bus: Bus,
    pub interconnects: [Interconnect; 15],
    pub accelerators: [Accelerator; 32],
    pub ints: u8,
    pub accs: u8,
}

// Reads and writes share nothing: each channel has a state of its own.
#[derive(Clone, Copy, PartialEq, Eq)]
pub enum Channel {
    Read,
    Write,
}

// The state of one channel: for each accelerator the transactions that wait, those that return and those admitted in this
// window; for each interconnect its last port and its allowance; the slot count; and which channel it is of. The returning
// ones are the bits of a number: bit d for one that was served d slots ago, and so is due r + 1 - d slots ahead.
#[derive(Clone, Copy)]
pub struct State {
    pub waiting: [u8; 32],
    pub returning: [u32; 32],
    pub admitted: [u16; 32],
    pub last: [u8; 15],
    pub allowance: [u8; 15],
    pub slot: u32,
    pub channel: Channel,
}

// Why a file, a call or a state is refused. The discriminants rise by one: with a gap among them the compiler sets a table of numbers
// into each function of the archive that answers one.
#[derive(Clone, Copy, PartialEq, Eq)]
pub enum Refusal {
    Shape = 1,
    Limit = 2,
    Order = 3,
    Taken = 4,
    Level = 5,
    Falling = 6,
    Unknown = 7,
    Outstanding = 8,
    Budget = 9,
    LastSlot = 10,
    Rules = 11,
    NoJob = 12,
    Burst = 13,
    Page = 14,
}

// The number of a refusal in the papers' tables. 12 and 13 are none of these: they refuse a wait and the text of a tree.
pub fn number(r: Refusal) -> u8
    ensures { result ≡ number_of r }
{
    let place = r as u8;
    if 11 < place { place + 2 } else { place }
}
