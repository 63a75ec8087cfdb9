// What a run keeps beside the state, so that a slot costs one path and not the whole tree: what a slot reads of the
// configuration as plain arrays, what waits under each port, and the live ports of each interconnect.
//
// Port p of interconnect j has the number j * 8 + p.
#![tactic(auto)]

mod along;
mod choice;
pub mod tables;

use model::PortCell;

// What a slot of a channel reads of the configuration: what each port carries; of each interconnect the granularity and the number of the
// port of its parent that carries it; of each accelerator the number of the port that carries it, the outstanding limit and the budget.
#[derive(Clone, Copy)]
pub struct Table {
    pub carried: [PortCell; 120],
    pub granularity: [u16; 15],
    pub parent_port: [u16; 15],
    pub own_port: [u16; 32],
    pub limit: [u16; 32],
    pub budget: [u16; 32],
}

// What is kept of the ports: how many transactions wait under each; of each interconnect the set of its live ports, bit p for port p, the
// last port and the allowance.
#[derive(Clone, Copy)]
pub struct Ports {
    pub under: [u16; 120],
    pub live: [u8; 15],
    pub last: [u8; 15],
    pub allowance: [u8; 15],
}
