// The choice of a slot from the kept counts: no sum is taken anew.
ghost use Rattle.std.specs.Prelude.{◌≡◌, ◌<◌, ◌%◌, eqb};
ghost use Rattle.folds.specs.Fold.{pick};
ghost use Rattle.counts.specs.Counts.{without_port};
ghost use Rattle.counts.specs.Choice.{count_at, turn_at, pass, choice, choose_on};

use crate::{Ports, Table};
use model::Port;
use turns::{Turn, grant, next_port};

// The set without port p where nothing waits under it any longer.
fn if_waiting(set: u8, p: u8, waiting: u16) -> u8
    ensures { result ≡ pick (eqb waiting 0) (without_port set (p % 8)) set }
{
    if waiting == 0 {
        return set & (255 - (1 << (p % 8)));
    }
    set
}

impl Ports {
    // What waits under port p of interconnect j; nothing under a port past the eighth.
    fn count_at(&self, j: u8, p: u8) -> u16
        requires { j < 15 }
        ensures { result ≡ count_at self.now.under j p }
    {
        if 7 < p {
            return 0;
        }
        self.under[j as usize * 8 + p as usize]
    }

    // The turn of interconnect j: its last port goes on where its allowance is above 0, else the next live port has it.
    fn turn_at(&self, table: &Table, j: u8) -> Turn
        requires { j < 15 }
        ensures { result ≡ turn_at table.now self.now j }
    {
        let i = j as usize;
        if 0 < self.allowance[i] {
            return Turn {
                port: self.last[i],
                allowance: self.allowance[i],
            };
        }
        let port = next_port(self.live[i], self.last[i]);
        Turn {
            port: port,
            allowance: grant(
                table.granularity[i].min(255) as u8,
                self.count_at(j, port) as u32,
            ),
        }
    }

    // One transaction passes interconnect j in its turn: it waits no longer under the turn's port, and one is taken off the allowance.
    fn pass_down(&mut self, j: u8, turn: Turn)
        requires { (j < 15) × (turn.port < 8) }
        ensures { self.new ≡ pass j turn self.old }
    {
        let i = j as usize;
        let c = i * 8 + turn.port as usize;
        let left = self.under[c].saturating_sub(1);
        self.under[c] = left;
        self.live[i] = if_waiting(self.live[i], turn.port, left);
        self.last[i] = turn.port;
        self.allowance[i] = turn.allowance.saturating_sub(1);
    }

    // The choice from interconnect j, over at most `levels` levels: the accelerator served, 255 for none, where an empty port
    // leads. One transaction passes each interconnect on the way down. No Option: the number is the byte that a run writes of the slot.
    pub fn choose(&mut self, table: &Table, levels: u8, j: u8) -> u8
        ensures { choice result self.new ≡ choose_on levels table.now j self.old }
    {
        let i = j as usize;
        if (levels == 0) | (14 < i) {
            return 255;
        }
        let turn = self.turn_at(table, j);
        if 7 < turn.port {
            return 255;
        }
        let carried = table.carried[i * 8 + turn.port as usize];
        self.pass_down(j, turn);
        match carried.port {
            Port::Int(k) => self.choose(table, levels - 1, k),
            Port::Acc(a) => a,
            Port::Empty => 255,
        }
    }
}
