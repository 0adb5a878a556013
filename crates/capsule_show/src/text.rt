//! The text of a capsule.

ghost use Rattle.std.specs.Prelude.{◌≡◌, ◌++◌, true, None, IfOk, OnOk};
ghost use Rattle.cu_base.specs.Refusals.{AnswersBy};
ghost use Rattle.capsule_grammar.specs.Faults.{told_by};
ghost use Rattle.capsule_grammar.specs.Reading.{body_read, capsule_of};
ghost use Rattle.capsule_grammar.specs.Refusals.{refusal};
ghost use Rattle.capsule_show.specs.Appended.{AppendsLines};
ghost use Rattle.capsule_show.specs.Lines.{capsule_line, ext_line, header_line, other_line};
ghost use Rattle.capsule_show.specs.ShowText.{AreBodyLines, ShowText};

use crate::fmp::push_fmp;
use crate::front::is_fmp;
use crate::room::text_room;
use crate::words::{
    end_line, push_flags, push_guid, push_named, push_number, push_text, push_word,
};
use capsule_grammar::accepted::{body, capsule_header};
use capsule_grammar::{DecodeFault, check};
use cu_base::{Blob, NoMemory};
use fmp_headers::{CAPSULE_HEADER_BYTES, CapsuleHeader};
use std::alloc::Global;

/// The text of the capsule at the front of the bytes: its header, its drivers and its images with
/// their parts and digests, a line each. The bytes behind the capsule are not looked at, and none
/// of its bytes is copied but into the text. It is Refused exactly where `check` refuses the bytes,
/// at the same place for the same cause, and Memory where no room was left.
pub fn show_text(alloc: Global, bytes: &[u8]) -> Result<Blob, DecodeFault>
    ensures ok { IfOk result (λ text. ShowText (capsule_of bytes.now) text) }
    ensures refused { AnswersBy told_by result (refusal bytes.now) }
{
    check(bytes)?;
    let text = text_of(alloc, bytes)?;
    Ok(text)
}

/// The text of the capsule at the front, which is accepted.
fn text_of(alloc: Global, bytes: &[u8]) -> Result<Blob, NoMemory>
    requires { refusal bytes.now ≡ None }
    ensures { IfOk result (λ text. ShowText (capsule_of bytes.now) text) }
{
    let mut out = Blob::new(alloc);
    out.reserve(text_room(bytes))?;
    push_capsule(&mut out, alloc, bytes)?;
    push_ext(&mut out, bytes)?;
    push_body(&mut out, alloc, bytes)?;
    Ok(out)
}

fn push_capsule(out: &mut Blob, alloc: Global, bytes: &[u8]) -> Result<(), NoMemory>
    requires { refusal bytes.now ≡ None }
    ensures { OnOk result (out.new ≡ out.old ++ capsule_line (capsule_of bytes.now)) }
{
    push_header(out, alloc, &capsule_header(bytes))
}

fn push_header(out: &mut Blob, alloc: Global, header: &CapsuleHeader) -> Result<(), NoMemory>
    ensures { OnOk result (out.new ≡ out.old ++ header_line header.now) }
{
    push_text(out, "capsule")?;
    push_guid(out, alloc, &header.guid)?;
    push_word(out, "flags")?;
    push_flags(out, alloc, header.flags)?;
    push_named(out, "header", u64::from(header.header_size))?;
    push_named(out, "size", u64::from(header.image_size))?;
    end_line(out)
}

fn push_ext(out: &mut Blob, bytes: &[u8]) -> Result<(), NoMemory>
    requires { refusal bytes.now ≡ None }
    ensures { OnOk result (out.new ≡ out.old ++ ext_line (capsule_of bytes.now).ext) }
{
    let header = capsule_header(bytes);
    push_ext_size(
        out,
        &bytes[CAPSULE_HEADER_BYTES as usize..header.header_size as usize],
    )
}

fn push_ext_size(out: &mut Blob, ext: &[u8]) -> Result<(), NoMemory>
    ensures { OnOk result (out.new ≡ out.old ++ ext_line ext.now) }
{
    push_text(out, "ext")?;
    push_number(out, ext.len() as u64)?;
    end_line(out)
}

/// Appends the lines of the body, by the GUID.
fn push_body(out: &mut Blob, alloc: Global, bytes: &[u8]) -> Result<(), NoMemory>
    requires { refusal bytes.now ≡ None }
    ensures { OnOk result (AppendsLines (AreBodyLines (body_read bytes.now)) out.old out.new) }
{
    let body = body(bytes);
    if is_fmp(bytes) {
        push_fmp(out, alloc, body)
    } else {
        push_other(out, body)
    }
}

fn push_other(out: &mut Blob, body: &[u8]) -> Result<(), NoMemory>
    ensures { OnOk result (out.new ≡ out.old ++ other_line body.now) }
{
    push_text(out, "other")?;
    push_number(out, body.len() as u64)?;
    end_line(out)
}
