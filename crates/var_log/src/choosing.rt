//! Which bank is the log, as the headers of both tell.

ghost use Rattle.std.specs.Prelude.{◌≡◌, ◌==◌, ◌≤◌, length, get_or};
ghost use Rattle.var_log.specs.Banks.{bank_name, format_of, generation_of, is_open};
ghost use Rattle.var_log.specs.Opens.{IsChosen, heads};

use crate::limits::{BANK_HEAD, OPEN_GATE};
use cu_base::{three_at, u32_at, u64_at};

/// The name of a bank.
const NAME: [u8; 3] = [b'C', b'U', b'V'];

/// The bank of the log, what its header tells, and whether the first byte of the other is an open
/// gate.
#[derive(Clone, Copy)]
pub(crate) struct Chosen {
    pub(crate) bank: u32,
    pub(crate) format: u32,
    pub(crate) generation: u64,
    pub(crate) other_gate: bool,
}

// Whether a header has an open gate, the name and a known format.
fn is_open(head: &[u8]) -> bool
    requires long { 16 ≤ length head.now }
    ensures { result ≡ is_open head.now }
{
    let format = u32_at(head, 4);
    head[0] == OPEN_GATE && three_at(head, 1) == NAME && (format == 1 || format == 2)
}

// The bank of this header, beside that of another.
fn with_head(bank: u32, head: &[u8], other: &[u8]) -> Chosen
    requires long { 16 ≤ length head.now }
    requires other { 16 ≤ length other.now }
    ensures bank { result.bank ≡ bank }
    ensures format { result.format ≡ format_of head.now }
    ensures generation { result.generation ≡ generation_of head.now }
    ensures other_gate { result.other_gate ≡ (get_or other.now 0 0 == OPEN_GATE) }
{
    Chosen {
        bank,
        format: u32_at(head, 4),
        generation: u64_at(head, 8),
        other_gate: other[0] == OPEN_GATE,
    }
}

/// The open bank of the greater generation, bank 0 where they are equal.
pub(crate) fn choose(first: &[u8], second: &[u8]) -> Option<Chosen>
    requires first { 16 ≤ length first.now }
    requires second { 16 ≤ length second.now }
    ensures value { IsChosen (heads first.now second.now) result }
{
    let second_open = is_open(second);
    if !is_open(first) {
        return if second_open {
            Some(with_head(1, second, first))
        } else {
            None
        };
    }
    if second_open && u64_at(first, 8) < u64_at(second, 8) {
        return Some(with_head(1, second, first));
    }
    Some(with_head(0, first, second))
}
