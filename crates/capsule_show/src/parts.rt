//! The lines of the parts of an update image.

ghost use Rattle.std.specs.Prelude.{◌≡◌, ◌<◌, ◌^◌, ◌++◌, length, OnOk};
ghost use Rattle.std.specs.List.{concat};
ghost use Rattle.image_parts.specs.Values.{parts_seen};
ghost use Rattle.capsule_show.specs.Appended.{AppendsLines};
ghost use Rattle.capsule_show.specs.Images.{AreLinesOfParts, part_lines};
ghost use Rattle.capsule_show.specs.Images.Found.{Cut, RefusedAt};
ghost use Rattle.capsule_show.specs.Lines.{auth_lines, dep_lines, payload_line};

use crate::names::part_name;
use crate::words::{end_line, push_guid, push_hex, push_number, push_text, push_word};
use cu_base::{Blob, NoMemory};
use image_parts::{PartFault, PartRefusal, Parts, split};
use std::alloc::Global;

/// Appends the lines of the parts of an update image, or of its refusal.
pub fn push_found(out: &mut Blob, alloc: Global, image: &[u8], support: u64) -> Result<(), NoMemory>
    requires { length image.now < 2 ^ 32 }
    ensures { OnOk result (AppendsLines (AreLinesOfParts image.now support) out.old out.new) }
{
    match split(alloc, image, support) {
        Ok(parts) => push_parts(out, alloc, &parts),
        Err(PartRefusal::Part(fault)) => push_refused(out, fault),
        Err(PartRefusal::Memory) => Err(NoMemory),
    }
}

fn push_parts(out: &mut Blob, alloc: Global, parts: &Parts<'_>) -> Result<(), NoMemory>
    ensures { OnOk result (out.new ≡ out.old ++ concat (part_lines (Cut (parts_seen parts.now)))) }
{
    push_auth(out, alloc, parts)?;
    push_dep(out, alloc, parts)?;
    push_payload(out, parts)
}

fn push_auth(out: &mut Blob, alloc: Global, parts: &Parts<'_>) -> Result<(), NoMemory>
    ensures { OnOk result (out.new ≡ out.old ++ concat (auth_lines (parts_seen parts.now).auth)) }
{
    match &parts.auth {
        Some(auth) => {
            push_text(out, "  auth")?;
            push_number(out, auth.monotonic)?;
            push_guid(out, alloc, &auth.cert_type)?;
            push_number(out, auth.cert.len() as u64)?;
            end_line(out)
        }
        None => Ok(()),
    }
}

fn push_dep(out: &mut Blob, alloc: Global, parts: &Parts<'_>) -> Result<(), NoMemory>
    ensures { OnOk result (out.new ≡ out.old ++ concat (dep_lines (parts_seen parts.now).dep)) }
{
    match &parts.dep {
        Some(dep) => {
            push_text(out, "  dep")?;
            push_number(out, dep.len() as u64)?;
            push_hex(out, alloc, dep)?;
            end_line(out)
        }
        None => Ok(()),
    }
}

fn push_payload(out: &mut Blob, parts: &Parts<'_>) -> Result<(), NoMemory>
    ensures { OnOk result (out.new ≡ out.old ++ payload_line (parts_seen parts.now)) }
{
    push_text(out, "  payload")?;
    push_number(out, u64::from(parts.head.version))?;
    push_number(out, u64::from(parts.head.lowest))?;
    push_number(out, u64::from(parts.head.header_size))?;
    push_number(out, parts.payload.len() as u64)?;
    end_line(out)
}

fn push_refused(out: &mut Blob, fault: PartFault) -> Result<(), NoMemory>
    ensures { OnOk result
        (out.new ≡ out.old ++ concat (part_lines (RefusedAt fault.at fault.why))) }
{
    push_text(out, "  parts")?;
    push_number(out, u64::from(fault.at))?;
    push_word(out, part_name(fault.why))?;
    end_line(out)
}
