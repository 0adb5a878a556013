//! What is kept of the bytes behind the authentication data.

ghost use Rattle.std.specs.Prelude.{◌≡◌, ◌==◌, ℕ, List, [], ◌∷◌, ◌++◌, OnOk, OnErr};
ghost use Rattle.std.specs.Prelude.{if◌then◌else◌};
ghost use Rattle.std.specs.List.{list_any};
ghost use Rattle.image_parts.specs.Scan.{is_marked, window_of, window_size};
ghost use Rattle.image_parts.specs.Support.{has_section};

use crate::payload_header::FIELD_BYTES;
use crate::support::has_section;
use cu_base::NoMemory;
use dep_code::MAX_SECTION_BYTES;
use std::alloc::Global;
use std::marker::Model;

/// The most bytes of a section and of the fields of a payload header behind it.
pub const SECTION_REACH: usize = MAX_SECTION_BYTES as usize + FIELD_BYTES;

/// Bytes behind the authentication data that may be a section and the fields of a payload header,
/// and a zero byte where a section is due and one came later. Contracts see the list of them.
#[derive(Drop)]
pub struct Window {
    inside: Vec<u8>,
}

impl Model for Window {
    ghost use Rattle.std.specs.Prelude.{ℕ, List};

    ghost Value = { List ℕ };

    ghost view = { λ w. w.inside.items };
}

impl Window {
    /// No bytes. It takes no memory.
    pub fn new(alloc: Global) -> Window
        ensures { result ≡ [] }
    {
        Window {
            inside: Vec::new(alloc),
        }
    }

    /// Takes the next bytes behind the authentication data.
    pub fn push(&mut self, more: &[u8], support: u64) -> Result<(), NoMemory>
        ensures ok { OnOk result ((rest : List ℕ) →
            self.old ≡ window_of (has_section support) rest →
            self.new ≡ window_of (has_section support) (rest ++ more.now)) }
        ensures err { OnErr result (self.new ≡ self.old) }
    {
        let limit = window_size(support);
        let kept = self.as_slice().len();
        let added = limit.saturating_sub(kept).min(more.len());
        let marks = is_marked(&more[added..], kept, support);
        push_all(&mut self.inside, &more[..added], marks, limit)
    }

    /// The bytes as a slice.
    pub fn as_slice(&self) -> &[u8]
        ensures { result.now ≡ self.now }
    {
        self.inside.as_slice()
    }
}

/// The most bytes that are kept but for the zero byte.
fn window_size(support: u64) -> usize
    ensures { result ≡ window_size (has_section support) }
{
    if has_section(support) {
        SECTION_REACH
    } else {
        FIELD_BYTES
    }
}

/// Whether bytes behind a window of so many bytes give it its zero byte.
fn is_marked(later: &[u8], kept: usize, support: u64) -> bool
    ensures { result ≡ is_marked (has_section support) kept later.now }
{
    has_section(support) && kept <= SECTION_REACH && has_zero(later)
}

/// Whether there is a zero byte.
fn has_zero(bytes: &[u8]) -> bool
    ensures { result ≡ list_any (λ b. b == 0) bytes.now }
{
    bytes.iter().any(|b| *b == 0)
}

/// Appends the bytes, and a zero byte where `marks`. Room for `limit` bytes and the zero byte is made
/// at once.
fn push_all(kept: &mut Vec<u8>, bytes: &[u8], marks: bool, limit: usize) -> Result<(), NoMemory>
    ensures ok { OnOk result (kept.new.items ≡ kept.old.items ++ bytes.now
        ++ (if marks then 0 ∷ [] else [])) }
    ensures err { OnErr result (kept.new.items ≡ kept.old.items) }
{
    if bytes.is_empty() && !marks {
        return Ok(());
    }
    let room = limit.saturating_sub(kept.len()).saturating_add(1);
    if kept.reserve_exact(room.max(bytes.len() + 1)).is_err() {
        return Err(NoMemory);
    }
    match kept.extend_from_slice(bytes) {
        Ok(()) => {}
        Err(_) => return Err(NoMemory),
    }
    if marks {
        kept.push_reserved(0);
    }
    Ok(())
}
