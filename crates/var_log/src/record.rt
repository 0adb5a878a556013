ghost use Rattle.std.specs.Prelude.{◌≡◌, ◌≤◌, ◌<◌, ◌+◌, ◌^◌, ◌++◌, ◌∷◌, [], length, All, IsTrue};
ghost use Rattle.std.specs.Prelude.{IfOk};
ghost use Rattle.std.specs.Prelude.{OnOk, OnErr, replicate, take, drop};
ghost use Rattle.std.specs.List.{flat_map};
ghost use Rattle.std.specs.Option.{SomeIff, OnSome};
ghost use Rattle.cu_base.specs.Fields.{bytes_of};
ghost use Rattle.var_log.specs.Changes.{keeps_limits, has_sizes};
ghost use Rattle.var_log.specs.Records.{body_of, change_bytes, record_of, record_bytes};
ghost use Rattle.var_log.specs.Records.{record_size};
ghost use Rattle.var_log.specs.Records.{padding};

use crate::limits::{CLOSED_GATE, MAX_CHANGES, MAX_RECORD, OPEN_GATE, RECORD_HEAD};
use crate::{Batch, Change};
use cu_base::{Guid, NoMemory, bytes_of_u16, bytes_of_u32, bytes_of_u64};
use std::alloc::Global;
use std::marker::Model;

/// A batch as one record of a log. Contracts see its changes, and the bytes that it takes.
#[derive(Drop)]
pub struct Record {
    // the record with an open gate, and a closed gate behind it
    bytes: Vec<u8>,
}

impl Model for Record {
    ghost use Rattle.var_log.specs.Records.{RecordValue, IsRecord, record_in};

    ghost Value = { RecordValue };

    ghost view = { λ r. record_in r.bytes.items };

    ghost invariant = { λ r. IsRecord r.bytes.items };
}

impl Record {
    /// The record of a batch. Its number is set as it is appended.
    pub fn of(alloc: Global, batch: &Batch) -> Result<Record, NoMemory>
        requires limits { All (λ c. IsTrue (keeps_limits c)) batch.now.items }
        requires count { length batch.now.items ≤ MAX_CHANGES }
        requires size { record_size 2 (length (body_of batch.now.items)) ≤ MAX_RECORD }
        ensures value { IfOk result (λ r. r ≡ record_of batch.now.items) }
    {
        let mut bytes = Vec::new(alloc);
        put_record(&mut bytes, 0, batch.as_slice())?;
        Ok(Record { bytes })
    }

    /// The bytes that it takes in a bank.
    pub fn size(&self) -> u32
        ensures value { result ≡ self.now.size }
    {
        (self.bytes.len() - 1) as u32
    }
}

impl Record {
    ghost use Rattle.var_log.specs.Records.{IsWritable, behind_gate};

    /// Sets its number.
    pub(crate) fn set_number(&mut self, number: u64)
        ensures value { self.new ≡ record self.old { number = number } }
    {
        put_number(&mut self.bytes, number);
    }

    /// What is written behind its gate.
    pub(crate) fn behind(&self) -> &[u8]
        ensures value { result.now
            ≡ behind_gate 2 self.now.number self.now.changes ++ CLOSED_GATE ∷ [] }
        ensures rule { IsWritable self.now }
        ensures size { length result.now ≡ self.now.size }
    {
        &self.bytes[1..]
    }
}

// Puts the number into its place of a record.
fn put_number(bytes: &mut [u8], number: u64)
    requires long { 16 ≤ length bytes.old }
    ensures value { bytes.new ≡ take 8 bytes.old ++ (bytes_of 8 number ++ drop 16 bytes.old) }
{
    bytes[8..16].copy_from_slice(&bytes_of_u64(number));
}

/// Appends the bytes.
pub(crate) fn put(out: &mut Vec<u8>, bytes: &[u8]) -> Result<(), NoMemory>
    ensures ok { OnOk result (out.new.items ≡ out.old.items ++ bytes.now) }
    ensures err { OnErr result (out.new.items ≡ out.old.items) }
{
    match out.extend_from_slice(bytes) {
        Ok(()) => Ok(()),
        Err(_) => Err(NoMemory),
    }
}

/// Appends changes as a record with an open gate, and a closed gate behind it.
pub(crate) fn put_record(out: &mut Vec<u8>, number: u64, changes: &[Change]) -> Result<(), NoMemory>
    requires limits { All (λ c. IsTrue (keeps_limits c)) changes.now }
    requires count { length changes.now ≤ MAX_CHANGES }
    requires size { record_size 2 (length (body_of changes.now)) ≤ MAX_RECORD }
    ensures ok { OnOk result (out.new.items
        ≡ out.old.items ++ (record_bytes 2 number changes.now ++ CLOSED_GATE ∷ [])) }
    ensures sizes { OnOk result (All (λ c. IsTrue (has_sizes c)) changes.now) }
{
    let body = body_len(changes);
    reserve(out, RECORD_HEAD + body + 9)?;
    put(out, &[OPEN_GATE, 0, 0, 0])?;
    put(out, &bytes_of_u32(body as u32))?;
    put(out, &bytes_of_u64(number))?;
    put(out, &bytes_of_u16(changes.len() as u16))?;
    put_changes(out, changes)?;
    put_zeros(out, padding(body))?;
    put(out, &[CLOSED_GATE])?;
    Ok(())
}

// Appends so many zero bytes.
fn put_zeros(out: &mut Vec<u8>, n: usize) -> Result<(), NoMemory>
    requires few { n ≤ 8 }
    ensures ok { OnOk result (out.new.items ≡ out.old.items ++ replicate n 0) }
{
    put(out, &[0; 8][..n])?;
    Ok(())
}

// Makes room for so many bytes at once.
fn reserve(out: &mut Vec<u8>, n: usize) -> Result<(), NoMemory>
    ensures { out.new.items ≡ out.old.items }
{
    match out.reserve_exact(n) {
        Ok(()) => Ok(()),
        Err(_) => Err(NoMemory),
    }
}

/// How many zero bytes follow a body of so many bytes in a bank of this format.
pub(crate) fn padding_of(format: u32, body: usize) -> usize
    ensures value { result ≡ padding format body }
    ensures bound { result < 8 }
{
    if format == 1 { 0 } else { padding(body) }
}

// How many zero bytes follow a body of so many bytes.
fn padding(body: usize) -> usize
    ensures value { result ≡ padding 2 body }
    ensures bound { result < 8 }
{
    (8 - body % 8) % 8
}

// How many bytes the body of these changes has.
fn body_len(changes: &[Change]) -> usize
    requires limits { All (λ c. IsTrue (keeps_limits c)) changes.now }
    requires size { length (body_of changes.now) < 2 ^ 32 }
    ensures value { result ≡ length (body_of changes.now) }
{
    let mut len = 2;
    for change in changes {
        len += change_len(change);
    }
    len
}

// The bytes of a GUID.
fn id(guid: &Guid) -> &[u8]
    ensures value { result.now ≡ guid.now.bytes }
    ensures long { length result.now ≡ 16 }
{
    &guid.bytes
}

/// The bytes that the record of these changes takes, where they are at most so many.
pub(crate) fn size_within(changes: &[Change], most: usize) -> Option<usize>
    requires limits { All (λ c. IsTrue (keeps_limits c)) changes.now }
    requires small { most < 2 ^ 32 }
    ensures value { SomeIff result (record_size 2 (length (body_of changes.now)) ≤ most)
        (record_size 2 (length (body_of changes.now))) }
    ensures sizes { OnSome result (All (λ c. IsTrue (has_sizes c)) changes.now) }
{
    let mut body = 2;
    for change in changes {
        body += change_len(change);
        if body > most {
            return None;
        }
    }
    let size = RECORD_HEAD + body + padding(body);
    if size <= most { Some(size) } else { None }
}

// How many bytes a change has.
fn change_len(change: &Change) -> usize
    requires limits { IsTrue (keeps_limits change.now) }
    ensures value { result ≡ length (change_bytes change.now) }
    ensures bound { result < 2 ^ 15 }
    ensures sizes { IsTrue (has_sizes change.now) }
{
    match change {
        Change::Set {
            name,
            guid,
            attributes,
            value,
        } => {
            let _attributes = *attributes;
            10 + name.as_str().len() + id(guid).len() + value.len()
        }
        Change::Delete { name, guid } => 2 + name.as_str().len() + id(guid).len(),
    }
}

// Appends the bytes of the changes.
fn put_changes(out: &mut Vec<u8>, changes: &[Change]) -> Result<(), NoMemory>
    requires limits { All (λ c. IsTrue (keeps_limits c)) changes.now }
    ensures ok { OnOk result (out.new.items ≡ out.old.items ++ flat_map change_bytes changes.now) }
    ensures sizes { OnOk result (All (λ c. IsTrue (has_sizes c)) changes.now) }
{
    for change in changes {
        put_change(out, change)?;
    }
    Ok(())
}

// Appends the bytes of a change.
fn put_change(out: &mut Vec<u8>, change: &Change) -> Result<(), NoMemory>
    requires limits { IsTrue (keeps_limits change.now) }
    ensures ok { OnOk result (out.new.items ≡ out.old.items ++ change_bytes change.now) }
    ensures sizes { OnOk result (IsTrue (has_sizes change.now)) }
{
    match change {
        Change::Set {
            name,
            guid,
            attributes,
            value,
        } => {
            let name = name.as_str().as_bytes();
            let data = value.as_slice();
            put(out, &[1, name.len() as u8])?;
            put(out, name)?;
            put(out, &guid.bytes)?;
            put(out, &attributes.to_le_bytes())?;
            put(out, &(data.len() as u32).to_le_bytes())?;
            put(out, data)?;
            Ok(())
        }
        Change::Delete { name, guid } => {
            let name = name.as_str().as_bytes();
            put(out, &[2, name.len() as u8])?;
            put(out, name)?;
            put(out, &guid.bytes)?;
            Ok(())
        }
    }
}
