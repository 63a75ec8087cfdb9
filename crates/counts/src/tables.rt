// The table of a configuration for a channel.
ghost use Rattle.std.specs.Prelude.{◌≡◌};
ghost use Rattle.folds.specs.Fold.{entries};
ghost use Rattle.counts.specs.Table.{port_number, carried_by, table_of};

use crate::Table;
use model::access::{accelerator_at, interconnect_at, limit_of, port_at};
use model::{Channel, Port, PortCell, Tree};

fn port_number(j: u8, p: u8) -> u16
    ensures { result ≡ port_number j p }
{
    j as u16 * 8 + p as u16
}

// What each port carries.
fn carried_of(t: Tree) -> [PortCell; 120]
    ensures { result ≡ entries 120 (carried_by t) }
{
    let mut carried = [PortCell { port: Port::Empty }; 120];
    for c in 0..120u8 {
        carried[c as usize] = PortCell {
            port: port_at(t, c / 8, c % 8),
        };
    }
    carried
}

// What a slot of a channel reads of the configuration.
pub fn table_of(t: Tree, channel: Channel) -> Table
    ensures { result ≡ table_of t channel }
{
    let mut table = Table {
        carried: carried_of(t),
        granularity: [0; 15],
        parent_port: [0; 15],
        own_port: [0; 32],
        limit: [0; 32],
        budget: [0; 32],
    };
    // The interconnects in the loop of the accelerators: the compiler unrolls a loop of fifteen rounds in whole, and copies the
    // configuration part by part for it.
    for a in 0..32u8 {
        if a < 15 {
            let x = interconnect_at(t, a);
            table.granularity[a as usize] = x.granularity as u16;
            table.parent_port[a as usize] = port_number(x.parent, x.port);
        }
        let x = accelerator_at(t, a);
        table.own_port[a as usize] = port_number(x.interconnect, x.port);
        table.limit[a as usize] = limit_of(t, channel, a) as u16;
        table.budget[a as usize] = x.budget;
    }
    table
}
