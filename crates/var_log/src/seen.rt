//! Changes as they stand in a body: they are read without a copy.

ghost use Rattle.std.specs.Prelude.{◌≡◌, ◌+◌, ◌≤◌, ◌++◌, length, map, take, option_map, get_or, IfOk};
ghost use Rattle.std.specs.Prelude.{if◌then◌else◌, Some, None, true};
ghost use Rattle.std.specs.Prelude.{drop, ◌∷◌, [], OnOk, OnErr};
ghost use Rattle.std.specs.Option.{SomeIff};
ghost use Rattle.cu_base.specs.Fields.{field};
ghost use Rattle.var_log.specs.Changes.{is_name};
ghost use Rattle.var_log.specs.Records.{first_change, changes_in};
ghost use Rattle.var_log.specs.Seen.{as_change, first_seen};

use crate::is_name;
use crate::limits::MAX_DATA;
use cu_base::{Guid, NoMemory, guid_at, u16_at, u32_at};

/// The variable that a change is of, in the order of the GUID's bytes and then the name.
#[derive(Clone, Copy, PartialEq, Eq, PartialOrd, Ord)]
pub(crate) struct Key<'a> {
    pub(crate) guid: [u8; 16],
    pub(crate) name: &'a str,
}

/// What a set gives a variable.
#[derive(Clone, Copy)]
pub(crate) struct Held<'a> {
    pub(crate) attributes: u32,
    pub(crate) data: &'a [u8],
}

/// A change: a set, or a delete where nothing is left.
#[derive(Clone, Copy)]
pub(crate) struct Seen<'a> {
    pub(crate) key: Key<'a>,
    pub(crate) left: Option<Held<'a>>,
}

// These bytes as a name, where they are one.
fn name_of(bytes: &[u8]) -> Option<&str>
    ensures { SomeIff (option_map (λ s. s.now) result) (is_name bytes.now ≡ true) bytes.now }
{
    if !is_name(bytes) {
        return None;
    }
    match str::from_utf8(bytes) {
        Ok(name) => Some(name),
        Err(_) => None,
    }
}

// So many bytes from a place on.
fn part(bytes: &[u8], at: usize, n: usize) -> &[u8]
    requires within { at + n ≤ length bytes.now }
    ensures { result.now ≡ field bytes.now at n }
{
    &bytes[at..at + n]
}

/// The bytes from a place on.
pub(crate) fn behind(bytes: &[u8], at: usize) -> &[u8]
    requires within { at ≤ length bytes.now }
    ensures { result.now ≡ drop at bytes.now }
{
    &bytes[at..]
}

// The key of a variable.
fn key_of<'a>(guid: &Guid, name: &'a str) -> Key<'a>
    ensures guid { result.guid ≡ guid.now.bytes }
    ensures name { result.name.now ≡ name.now }
{
    let guid = guid.bytes;
    Key { guid, name }
}

// The set that bytes begin with, and what is behind it.
fn first_set(bytes: &[u8], n: usize) -> Option<(Seen<'_>, &[u8])>
    requires kind { get_or bytes.now 0 0 ≡ 1 }
    requires name { get_or bytes.now 1 0 ≡ n }
    requires few { n ≤ 255 }
    ensures value { option_map first_seen result ≡ first_change bytes.now }
{
    if bytes.len() < 26 + n {
        return None;
    }
    let name = name_of(part(bytes, 2, n))?;
    let size = u32_at(bytes, 22 + n) as usize;
    if size > MAX_DATA || bytes.len() < 26 + n + size {
        return None;
    }
    let held = Held {
        attributes: u32_at(bytes, 18 + n),
        data: part(bytes, 26 + n, size),
    };
    let guid = guid_at(bytes, 2 + n);
    let seen = Seen {
        key: key_of(&guid, name),
        left: Some(held),
    };
    Some((seen, behind(bytes, 26 + n + size)))
}

// The delete that bytes begin with, and what is behind it.
fn first_delete(bytes: &[u8], n: usize) -> Option<(Seen<'_>, &[u8])>
    requires kind { get_or bytes.now 0 0 ≡ 2 }
    requires name { get_or bytes.now 1 0 ≡ n }
    requires few { n ≤ 255 }
    ensures value { option_map first_seen result ≡ first_change bytes.now }
{
    if bytes.len() < 18 + n {
        return None;
    }
    let name = name_of(part(bytes, 2, n))?;
    let guid = guid_at(bytes, 2 + n);
    let seen = Seen {
        key: key_of(&guid, name),
        left: None,
    };
    Some((seen, behind(bytes, 18 + n)))
}

// The change that bytes begin with, and what is behind it.
fn first_change(bytes: &[u8]) -> Option<(Seen<'_>, &[u8])>
    ensures value { option_map first_seen result ≡ first_change bytes.now }
{
    if bytes.len() < 2 {
        return None;
    }
    let n = bytes[1] as usize;
    if bytes[0] == 1 {
        return first_set(bytes, n);
    }
    if bytes[0] == 2 {
        return first_delete(bytes, n);
    }
    None
}

// Appends a change.
fn push<'a>(out: &mut Vec<Seen<'a>>, seen: Seen<'a>) -> Result<(), NoMemory>
    ensures ok { OnOk result (out.new.items ≡ out.old.items ++ seen.entry ∷ []) }
    ensures err { OnErr result (out.new.items ≡ out.old.items) }
{
    match out.push(seen) {
        Ok(()) => Ok(()),
        Err(_) => Err(NoMemory),
    }
}

/// Appends the changes that a body is exactly, and tells whether it is any. Where it is none, some
/// may have been appended.
pub(crate) fn read_changes<'a>(body: &'a [u8], out: &mut Vec<Seen<'a>>) -> Result<bool, NoMemory>
    ensures value { IfOk result (λ found.
        option_map (λ cs. map as_change out.old.items ++ cs) (changes_in body.now)
        ≡ (if found then Some (map as_change out.new.items) else None)) }
    ensures kept { take (length out.old.items) out.new.items ≡ out.old.items }
{
    if body.len() < 2 {
        return Ok(false);
    }
    let mut left = u16_at(body, 0);
    let mut rest = behind(body, 2);
    while left > 0 {
        let Some((seen, behind)) = first_change(rest) else {
            return Ok(false);
        };
        push(out, seen)?;
        rest = behind;
        left -= 1;
    }
    Ok(rest.is_empty())
}
