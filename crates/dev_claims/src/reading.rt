//! What the variables of a store tell. No call here takes memory.

ghost use Rattle.std.specs.Prelude.{◌≡◌, ◌<◌, ℕ, Some, IfSome, IsTrue, option_map, true};
ghost use Rattle.bench_model.specs.declared.limits.TheConstants.{MAX_DEVICES};
ghost use Rattle.bench_model.specs.Boards.{BoardValue, IsBoard};
ghost use Rattle.dev_claims.specs.Claimed.{IsWide};
ghost use Rattle.stored_vars.specs.Holds.{bytes_in, device_of, factory_state, is_claimed};
ghost use Rattle.stored_vars.specs.Holds.{open_device_of, units_of};
ghost use Rattle.stored_vars.specs.Records.{IsRecord, has_claim, record_in};
ghost use Rattle.stored_vars.specs.Variables.{is_fixed, is_variable};
ghost use Rattle.stored_vars.specs.declared.claim.DevRec.{DevRec};
ghost use Rattle.var_store.specs.Stores.{variables_of};

use bench_model::Board;
use cu_base::DevState;
use stored_vars::{StoredVar, has_stored_claim, stored_state, stored_units};
use var_store::VarStore;

/// The state of a device: that of its record, and that of the factory where none or a malformed one
/// is stored.
pub fn dev_state(store: &VarStore, board: &Board, device: u8) -> DevState
    requires number { device < MAX_DEVICES }
    ensures value { result ≡ device_of board.now (variables_of store.now) device }
{
    match bytes_of(store, StoredVar::Device(device)) {
        Some(bytes) => match stored_state(bytes) {
            Some(state) => state,
            None => factory_state(board, device),
        },
        None => factory_state(board, device),
    }
}

/// The first device with an open claim, None exactly where no claim is open.
pub fn open_claim(store: &VarStore, board: &Board) -> Option<u8>
    ensures value { result ≡ open_device_of board.now (variables_of store.now) }
    ensures wide { IfSome result (IsWide board.now (variables_of store.now)) }
    ensures rule { IsBoard board.now }
{
    let count = board.devices().len();
    for k in 0..count {
        let device = k as u8;
        if is_claimed(store, device) {
            return Some(device);
        }
    }
    None
}

/// How many units of a file are spent, 0 where nothing is kept of it.
pub fn progress(store: &VarStore, serial: u64) -> u32
    ensures value { result ≡ units_of (variables_of store.now) serial }
{
    match bytes_of(store, StoredVar::Progress) {
        Some(bytes) => stored_units(bytes, serial),
        None => 0,
    }
}

/// Whether the record of a device has an open claim.
fn is_claimed(store: &VarStore, device: u8) -> bool
    requires { device < MAX_DEVICES }
    ensures value { result ≡ is_claimed (variables_of store.now) device }
    ensures wide { result ≡ true → (board : BoardValue) →
        IsWide board (variables_of store.now) device }
{
    match bytes_of(store, StoredVar::Device(device)) {
        Some(bytes) => has_claim(bytes),
        None => false,
    }
}

/// Whether a record has an open claim. What a record spells has its widths.
fn has_claim(bytes: &[u8]) -> bool
    ensures value { result ≡ has_claim bytes.now }
    ensures wide { (d : ℕ) (r : DevRec) → record_in d bytes.now ≡ Some r → IsRecord d r }
{
    has_stored_claim(bytes)
}

/// The bytes of a variable that is no result, None exactly where it is not there.
pub(crate) fn bytes_of(store: &VarStore, variable: StoredVar) -> Option<&[u8]>
    requires within { IsTrue (is_variable variable) }
    requires fixed { IsTrue (is_fixed variable) }
    ensures { option_map (λ b. b.now) result ≡ bytes_in (variables_of store.now) variable }
{
    match store.get(variable.name(), &variable.guid()) {
        Some(value) => Some(value.bytes),
        None => None,
    }
}

/// The state that a device leaves the factory with.
fn factory_state(board: &Board, device: u8) -> DevState
    ensures { result ≡ factory_state board.now device }
{
    match board.devices().get(device as usize) {
        Some(factory) => DevState {
            version: factory.version,
            floor: factory.floor,
            last_version: 0,
            last_status: 0,
        },
        None => DevState {
            version: 0,
            floor: 0,
            last_version: 0,
            last_status: 0,
        },
    }
}
