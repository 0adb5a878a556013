//! An update image that comes in pieces, of which a few thousand bytes are kept.

ghost use Rattle.std.specs.Prelude.{◌≡◌, ℕ, ◌+◌, ◌-◌, ◌≤◌, List, [], ◌++◌, length, drop, OnOk};
ghost use Rattle.std.specs.Prelude.{OnErr, IfOk};
ghost use Rattle.std.specs.Prelude.{IfErr, IsErrOf, IsOk, IsTrue};
ghost use Rattle.image_parts.specs.declared.fault.PartRefusal.TheVariants.{Memory};
ghost use Rattle.image_parts.specs.Parts.{IsPartsOf, dep_bytes};
ghost use Rattle.image_parts.specs.Refusals.{IsRefusalOf};
ghost use Rattle.image_parts.specs.Scan.{Finds, IsScanRefusal, KeepsSection, StandsFor};
ghost use Rattle.image_parts.specs.Scan.{window_place};
ghost use Rattle.image_parts.specs.Section.{BeginsWithSection};
ghost use Rattle.image_parts.specs.Spans.{AreFound, HasSpans};
ghost use Rattle.image_parts.specs.Support.{has_section};
ghost use Rattle.image_parts.specs.Values.{PartsValue};

use crate::authentication::{AUTHENTICATION_BYTES, auth_size, stated_end};
use crate::front::Front;
use crate::payload_header::read_head;
use crate::section::{section_length, section_size};
use crate::support::{has_authentication, has_section};
use crate::window::Window;
use crate::{PartRefusal, PartSpans};
use cu_base::NoMemory;
use std::alloc::Global;
use std::marker::Model;

/// The most bytes of an image that a `PartScan` keeps.
pub const MAX_KEPT_BYTES: usize = 4200;

/// A reader of an update image that comes in pieces. It keeps the fields of the authentication
/// data, and behind that data what may be a section and the fields of a payload header.
#[derive(Drop)]
pub struct PartScan {
    size: u32,
    support: u64,
    came: u32,
    front: Front,
    window: Window,
}

impl Model for PartScan {
    ghost use Rattle.image_parts.specs.Scan.{ScanValue, StandsForSome};

    ghost Value = { ScanValue };

    ghost view = { λ s. record {
      size = s.size;
      support = s.support;
      came = s.came;
      front = s.front;
      window = s.window;
    } };

    ghost invariant = { λ s. StandsForSome (record {
      size = s.size;
      support = s.support;
      came = s.came;
      front = s.front;
      window = s.window;
    }) };
}

impl PartScan {
    /// A reader of an image of `size` bytes and of this support. It takes no memory.
    pub fn new(alloc: Global, size: u32, support: u64) -> PartScan
        ensures value { result ≡ record {
          size = size;
          support = support;
          came = 0;
          front = [];
          window = [];
        } }
        ensures stands { StandsFor result [] }
    {
        PartScan {
            size,
            support,
            came: 0,
            front: Front::new(),
            window: Window::new(alloc),
        }
    }

    /// Takes the next bytes. For whatever bytes it stood before, it stands for these with the new
    /// ones behind them. After NoMemory it is unchanged.
    pub fn piece(&mut self, bytes: &[u8]) -> Result<(), NoMemory>
        requires { self.old.came + length bytes.now ≤ self.old.size }
        ensures ok { OnOk result ((stream : List ℕ) →
            StandsFor self.old stream → StandsFor self.new (stream ++ bytes.now)) }
        ensures came { OnOk result (self.new.came ≡ self.old.came + length bytes.now) }
        ensures frame { (self.new.size ≡ self.old.size) × (self.new.support ≡ self.old.support) }
        ensures err { OnErr result (self.new ≡ self.old) }
        ensures bound { length self.new.front + length self.new.window ≤ MAX_KEPT_BYTES }
    {
        let front = self.front.with(bytes);
        let place = window_place(front.as_slice(), self.support);
        let behind = behind_place(bytes, self.came, place);
        self.window.push(behind, self.support)?;
        self.front = front;
        self.came += bytes.len() as u32;
        Ok(())
    }

    /// The places and lengths of the parts of the image, where all its bytes came: the answer that
    /// `split` gives of the whole. Part tells the first wrong place, Memory comes only where a
    /// section is due.
    pub fn end(&self, alloc: Global) -> Result<PartSpans, PartRefusal>
        requires { self.now.came ≡ self.now.size }
        ensures ok { IfOk result (λ spans. (image : List ℕ) → StandsFor self.now image →
            HasSpans image self.now.support spans) }
        ensures only { (image : List ℕ) (p : PartsValue) → StandsFor self.now image →
            IsPartsOf image self.now.support p → AreFound p result }
        ensures refused { IfErr result (λ e. (image : List ℕ) → StandsFor self.now image →
            IsRefusalOf e image self.now.support) }
        ensures memory { IsErrOf result Memory → IsTrue (has_section self.now.support) }
        ensures section { IsOk result → KeepsSection self.now }
    {
        self.find(alloc)
    }

    /// The same, by what is kept.
    fn find(&self, alloc: Global) -> Result<PartSpans, PartRefusal>
        requires { self.now.came ≡ self.now.size }
        ensures ok { IfOk result (λ spans. Finds self.now spans) }
        ensures refused { IfErr result (λ e. IsScanRefusal e self.now) }
        ensures memory { IsErrOf result Memory → IsTrue (has_section self.now.support) }
    {
        let auth = auth_size(self.front.as_slice(), self.size as usize, self.support)?;
        let dep = section_size(alloc, self.window.as_slice(), auth, self.support)?;
        let start = auth + dep;
        let rest = self.size as usize - start;
        let head = read_head(&self.window.as_slice()[dep..], rest, start)?;
        let payload_at = start as u32 + head.header_size;
        Ok(PartSpans {
            auth: auth as u32,
            dep_at: auth as u32,
            dep_length: dep as u32,
            head,
            payload_at,
            payload_length: self.size - payload_at,
        })
    }

    /// The bytes of the dependency section, where `end` answered Ok. There are none where none is
    /// due. It takes no memory.
    pub fn section(&self) -> &[u8]
        requires { KeepsSection self.now }
        ensures { (image : List ℕ) (p : PartsValue) → StandsFor self.now image →
            IsPartsOf image self.now.support p → result.now ≡ dep_bytes p.dep }
    {
        let window = self.window.as_slice();
        if !has_section(self.support) {
            return &window[..0];
        }
        &window[..section_length(window)]
    }
}

/// Where the window begins, by the first bytes that came.
fn window_place(front: &[u8], support: u64) -> usize
    ensures { result ≡ window_place support front.now }
{
    if !has_authentication(support) {
        return 0;
    }
    if front.len() < AUTHENTICATION_BYTES {
        return AUTHENTICATION_BYTES;
    }
    stated_end(front).max(AUTHENTICATION_BYTES)
}

/// What of bytes, of which the first has the place `came`, stands at a place or behind it.
fn behind_place(bytes: &[u8], came: u32, place: usize) -> &[u8]
    ensures { result.now ≡ drop (place - came) bytes.now }
{
    let skipped = place.saturating_sub(came as usize).min(bytes.len());
    &bytes[skipped..]
}
