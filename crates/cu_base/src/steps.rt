ghost use Rattle.std.specs.Prelude.{◌≡◌, ℕ, ◌+◌, ◌-◌, ◌<◌, ◌^◌};

use std::marker::Model;

/// What counts the steps of a walk.
pub trait Ledger {
    /// How many steps were counted.
    ghost count: { Self → ℕ };

    /// Counts one step.
    fn tick(&mut self)
        requires room { count self.old < 2 ^ 64 - 1 }
        ensures counts { count self.new ≡ count self.old + 1 };
}

/// A ledger that keeps the number of steps alone.
#[derive(Clone, Copy, Debug, PartialEq, Eq)]
pub struct CountLedger {
    pub count: u64,
}

impl Ledger for CountLedger {
    ghost count = { λ l. l.count };

    fn tick(&mut self) {
        self.count += 1;
    }
}

/// The steps of a walk, over a ledger that counts them. Contracts see their number.
#[derive(Drop)]
pub struct Steps<L: Ledger> {
    ledger: L,
}

impl<L: Ledger> Model for Steps<L> {
    ghost Value = { ℕ };

    ghost view = { λ s. L.count s.ledger };
}

impl<L: Ledger> Steps<L> {
    /// The steps that this ledger has counted. It takes no memory.
    pub fn new(ledger: L) -> Steps<L>
        ensures value { result ≡ L.count ledger }
    {
        Steps { ledger }
    }

    /// Counts one step.
    pub fn tick(&mut self)
        requires room { self.old < 2 ^ 64 - 1 }
        ensures counts { self.new ≡ self.old + 1 }
    {
        self.ledger.tick();
    }
}
