// The counts and the live ports brought up to date where one more waits: along a path, from a port up to the root.
ghost use Rattle.std.specs.Prelude.{◌≡◌, ◌%◌};
ghost use Rattle.counts.specs.Counts.{up, with_port};
ghost use Rattle.counts.specs.Choice.{more_at};

use crate::{Ports, Table};

// The set with port p in it.
fn with_port(set: u8, p: u8) -> u8
    ensures { result ≡ with_port set (p % 8) }
{
    set | (1 << (p % 8))
}

impl Ports {
    // One more waits under the ports from `place` up to the root.
    pub fn add_along(&mut self, table: &Table, place: u16)
        ensures { self.new ≡ more_at (up 4 table.now.parent_port place) self.old }
    {
        let mut c = place as usize;
        'up: for _ in 0..4u8 {
            if 119 < c {
                return;
            }
            let j = c / 8;
            self.under[c] = self.under[c].saturating_add(1);
            self.live[j] = with_port(self.live[j], (c % 8) as u8);
            if j == 0 {
                return;
            }
            c = table.parent_port[j] as usize;
        }
    }
}
