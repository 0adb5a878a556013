ghost use Rattle.std.specs.Prelude.{◌≡◌, ◌≤◌, length};

use crate::limits::{MAX_BANK, MAX_DEVICES, MAX_DIGESTS, MAX_STORE, MIN_BANK, MIN_STORE};
use crate::{Device, Devices};
use cu_base::{Digest, Items};
use std::marker::Model;

/// A list of digests.
pub type Digests = Items<Digest>;

/// A board: the banks of its variable store, the digests of the images that it admits, and its
/// devices in order. Contracts see the record of its fields.
#[derive(Drop)]
pub struct Board {
    bank: u32,
    store: u32,
    two_banks: bool,
    result_max: u16,
    digests: Digests,
    devices: Devices,
}

impl Model for Board {
    ghost use Rattle.bench_model.specs.Boards.{BoardValue, IsBoard, board};

    ghost Value = { BoardValue };

    ghost view = { λ b.
        board b.bank b.store b.two_banks b.result_max b.digests.items b.devices.items };

    ghost invariant = { λ b. IsBoard
        (board b.bank b.store b.two_banks b.result_max b.digests.items b.devices.items) };
}

impl Board {
    ghost use Rattle.bench_model.specs.Boards.{IsBoard, board, least_bank, most_capacity};
    ghost use Rattle.bench_model.specs.Devices.{capacity_of};

    /// The board of these parts. `store` is the format of the log of variables that is laid out,
    /// and under `two_banks` each device keeps its former image beside a new one.
    pub fn new(
        bank: u32,
        store: u32,
        two_banks: bool,
        result_max: u16,
        digests: Digests,
        devices: Devices,
    ) -> Board
        requires bank_low { MIN_BANK ≤ bank }
        requires bank_high { bank ≤ MAX_BANK }
        requires store_low { MIN_STORE ≤ store }
        requires store_high { store ≤ MAX_STORE }
        requires results { least_bank result_max ≤ bank }
        requires digests { length digests.items ≤ MAX_DIGESTS }
        requires some_device { 1 ≤ length devices.items }
        requires devices { length devices.items ≤ MAX_DEVICES }
        requires capacity { capacity_of devices.items ≤ most_capacity two_banks }
        ensures { result ≡ board bank store two_banks result_max digests.items devices.items }
    {
        let _rule = devices.as_slice();
        Board {
            bank,
            store,
            two_banks,
            result_max,
            digests,
            devices,
        }
    }

    /// The bytes of each bank.
    pub fn bank(&self) -> u32
        ensures value { result ≡ self.now.bank }
        ensures rule { IsBoard self.now }
    {
        self.bank
    }

    /// The format of the log of variables that is laid out, 1 or 2.
    pub fn store(&self) -> u32
        ensures value { result ≡ self.now.store }
        ensures rule { IsBoard self.now }
    {
        self.store
    }

    /// Whether each device has two banks.
    pub fn two_banks(&self) -> bool
        ensures value { result ≡ self.now.two_banks }
        ensures rule { IsBoard self.now }
    {
        self.two_banks
    }

    /// The greatest number of a result.
    pub fn result_max(&self) -> u16
        ensures value { result ≡ self.now.result_max }
        ensures rule { IsBoard self.now }
    {
        self.result_max
    }

    /// The digests of the images that the board admits.
    pub fn digests(&self) -> &[Digest]
        ensures value { result.now ≡ self.now.digests }
        ensures rule { IsBoard self.now }
    {
        self.digests.as_slice()
    }

    /// The devices in order.
    pub fn devices(&self) -> &[Device]
        ensures value { result.now ≡ self.now.devices }
        ensures rule { IsBoard self.now }
    {
        self.devices.as_slice()
    }
}
