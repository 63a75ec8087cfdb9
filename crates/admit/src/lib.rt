// The offers of a run before a slot, on the arrays that it keeps in place of a state.
#![tactic(auto)]

ghost use Rattle.std.specs.Prelude.{◌≡◌, ◌<◌};
ghost use Rattle.machine.specs.Answers.{offer_means};
ghost use Rattle.admit.specs.Admitting.{answer_on, offered_on, offers_of, is_in, offers_before};

use counts::{Ports, Table};
use machine::limits_answer;
use model::Refusal;
use rules::less_one;

// What a run keeps in place of a state: how many transactions of each accelerator are outstanding, admitted in this window and held, and
// what is kept of the ports.
#[derive(Clone, Copy)]
pub struct Arrays {
    pub outstanding: [u32; 32],
    pub admitted: [u32; 32],
    pub held: [u32; 32],
    pub ports: Ports,
}

impl Arrays {
    // Accelerator a offers one of its held transactions: refused by 8, by 9, or admitted, and then it is held no longer.
    fn offer_one(&mut self, a: u8, table: &Table) -> Result<(), Refusal>
        requires { a < 32 }
        ensures answer { offer_means result ≡ answer_on table.now a self.old }
        ensures arrays { self.new ≡ offered_on table.now a self.old }
    {
        let i = a as usize;
        let outstanding = self.outstanding[i];
        let admitted = self.admitted[i];
        let limit = table.limit[i] as u32;
        let budget = table.budget[i] as u32;
        limits_answer(limit, outstanding, budget, admitted)?;
        self.held[i] = less_one(self.held[i]);
        self.outstanding[i] = outstanding + 1;
        self.admitted[i] = admitted + 1;
        self.ports.add_along(table, table.own_port[i]);
        Ok(())
    }

    // Accelerator a offers its held transactions until one is refused, which stays first in line, or none is left.
    fn offer_held(&mut self, a: u8, table: &Table)
        ensures { self.new ≡ offers_of table.now a self.old }
    {
        let i = a as usize;
        if 31 < i {
            return;
        }
        while 0 < self.held[i] {
            let Ok(()) = self.offer_one(a, table) else {
                return;
            };
        }
    }

    // Accelerator `first` offers, nobody where it is 255, and then those of a set in rising number; bit a of the set stands for
    // accelerator a.
    pub fn offer_each(&mut self, first: u8, others: u32, table: &Table)
        ensures { self.new ≡ offers_before table.now first (is_in others) self.old }
    {
        let mut a = first as u32;
        let mut rest = others;
        // The members by the lowest bit of those left: a `for` over the thirty-two numbers would test each in each slot.
        while (a < 32) | (rest != 0) {
            self.offer_held(a as u8, table);
            a = u32::trailing_zeros(rest);
            rest &= less_one(rest);
        }
    }
}
