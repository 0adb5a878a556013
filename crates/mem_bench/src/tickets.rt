ghost use Rattle.std.specs.Prelude.{◌≡◌, ◌-◌, ◌≤◌, [], ◌∷◌, ◌++◌, max, OnOk, OnErr, IsOk};

use cu_base::{Items, NoMemory, Ticket};
use std::alloc::Global;
use std::marker::Model;

/// The tickets that were begun on a device. Contracts see them in order, and how many more need no
/// memory.
#[derive(Drop)]
pub struct Tickets {
    begun: Items<Ticket>,
    spare: usize,
}

impl Model for Tickets {
    ghost use Rattle.std.specs.Prelude.{◌≤◌};
    ghost use Rattle.mem_bench.specs.Parts.{TicketsValue};

    ghost Value = { TicketsValue };

    ghost view = { λ t. record { begun = t.begun.items; spare = t.spare } };

    ghost invariant = { λ t. t.spare ≤ t.begun.spare };
}

impl Tickets {
    /// No tickets. It takes no memory.
    pub fn new(alloc: Global) -> Tickets
        ensures { result ≡ record { begun = []; spare = 0 } }
    {
        Tickets {
            begun: Items::new(alloc),
            spare: 0,
        }
    }

    /// The tickets that were begun, in order.
    pub fn as_slice(&self) -> &[Ticket]
        ensures { result.now ≡ self.now.begun }
    {
        self.begun.as_slice()
    }

    /// Makes room for one more.
    pub fn ready(&mut self) -> Result<(), NoMemory>
        ensures ok { OnOk result (self.new ≡ record self.old { spare = max 1 self.old.spare }) }
        ensures enough { 1 ≤ self.old.spare → IsOk result }
        ensures err { OnErr result (self.new ≡ self.old) }
    {
        if self.spare == 0 {
            self.begun.reserve(1)?;
            self.spare = 1;
        }
        Ok(())
    }

    /// Appends a ticket.
    pub fn push(&mut self, ticket: Ticket)
        requires { 1 ≤ self.old.spare }
        ensures { self.new ≡ record {
          begun = self.old.begun ++ ticket ∷ [];
          spare = self.old.spare - 1;
        } }
    {
        self.spare -= 1;
        if self.begun.push(ticket).is_err() {
            self.spare = 0;
        }
    }
}
