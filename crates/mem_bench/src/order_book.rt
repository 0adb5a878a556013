ghost use Rattle.std.specs.Prelude.{◌≡◌, ◌-◌, ◌≤◌, [], ◌∷◌, ◌++◌, OnOk, OnErr};

use bench_model::Ordered;
use cu_base::{Items, NoMemory};
use std::alloc::Global;
use std::marker::Model;

/// The orders that a bench was given. Contracts see them in order, and how many more need no
/// memory.
#[derive(Drop)]
pub struct OrderBook {
    given: Items<Ordered>,
    room: usize,
}

impl Model for OrderBook {
    ghost use Rattle.std.specs.Prelude.{◌≤◌};
    ghost use Rattle.bench_model.specs.Bench.{Orders};

    ghost Value = { Orders };

    ghost view = { λ o. record { given = o.given.items; room = o.room } };

    ghost invariant = { λ o. o.room ≤ o.given.spare };
}

impl OrderBook {
    /// No orders. It takes no memory.
    pub fn new(alloc: Global) -> OrderBook
        ensures { result ≡ record { given = []; room = 0 } }
    {
        OrderBook {
            given: Items::new(alloc),
            room: 0,
        }
    }

    /// Makes room for `n` further orders.
    pub fn make_room(&mut self, n: usize) -> Result<(), NoMemory>
        ensures ok { OnOk result (self.new ≡ record self.old { room = n }) }
        ensures err { OnErr result (self.new ≡ self.old) }
    {
        self.given.reserve(n)?;
        self.room = n;
        Ok(())
    }

    /// How many more orders need no memory.
    pub fn room(&self) -> usize
        ensures { result ≡ self.now.room }
    {
        self.room
    }

    /// Keeps an order.
    pub fn push(&mut self, order: Ordered)
        requires { 1 ≤ self.old.room }
        ensures { self.new ≡ record {
          given = self.old.given ++ order ∷ [];
          room = self.old.room - 1;
        } }
    {
        self.room -= 1;
        if self.given.push(order).is_err() {
            self.room = 0;
        }
    }
}
