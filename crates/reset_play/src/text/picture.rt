//! The lines of what the platform shows.

ghost use Rattle.std.specs.Prelude.{◌≡◌, ◌++◌, flat_map, OnOk};
ghost use Rattle.reset_play.specs.Texts.{esrt_text, result_text, fmp_words, last_text, file_text};
ghost use Rattle.reset_play.specs.Texts.{parts, staged_text, picture_text};
ghost use Rattle.reference_machine.specs.TraceValues.{snapshot_value};

use super::parts::{
    push_guid_part, push_hex_part, push_number_part, push_number_parts, push_part_or_dash,
    push_result_part, push_status_part, push_word_part,
};
use crate::{CapsuleResult, EsrtEntry, FmpResult, FolderFile, Snapshot, StagedPair};
use cu_base::{NoMemory, Text};
use std::alloc::Global;

pub fn push_picture(out: &mut Text, alloc: Global, shown: &Snapshot) -> Result<(), NoMemory>
    ensures { OnOk result (out.new ≡ out.old ++ picture_text (snapshot_value shown.now)) }
{
    push_esrt(out, alloc, shown.esrt.as_slice())?;
    push_results(out, alloc, shown.results.as_slice())?;
    push_last(out, shown.last)?;
    push_files(out, shown.files.as_slice())?;
    push_staged(out, alloc, shown.staged.as_slice())?;
    Ok(())
}

fn push_esrt(out: &mut Text, alloc: Global, entries: &[EsrtEntry]) -> Result<(), NoMemory>
    ensures { OnOk result (out.new ≡ out.old ++ flat_map esrt_text entries.now) }
{
    for entry in entries {
        push_esrt_line(out, alloc, entry)?;
    }
    Ok(())
}

fn push_esrt_line(out: &mut Text, alloc: Global, entry: &EsrtEntry) -> Result<(), NoMemory>
    ensures { OnOk result (out.new ≡ out.old ++ esrt_text entry.now) }
{
    out.push_str("  esrt")?;
    push_guid_part(out, alloc, &entry.class)?;
    push_number_parts(
        out,
        &[
            u64::from(entry.fw_type),
            u64::from(entry.version),
            u64::from(entry.lowest),
            u64::from(entry.flags),
            u64::from(entry.last_version),
            u64::from(entry.last_status),
        ],
    )?;
    out.push_str("\n")?;
    Ok(())
}

fn push_results(out: &mut Text, alloc: Global, results: &[CapsuleResult]) -> Result<(), NoMemory>
    ensures { OnOk result (out.new ≡ out.old ++ flat_map result_text results.now) }
{
    for result in results {
        push_result_line(out, alloc, result)?;
    }
    Ok(())
}

fn push_result_line(out: &mut Text, alloc: Global, shown: &CapsuleResult) -> Result<(), NoMemory>
    ensures { OnOk result (out.new ≡ out.old ++ result_text shown.now) }
{
    out.push_str("  result")?;
    push_result_part(out, shown.number)?;
    let variable = &shown.variable;
    push_status_part(out, variable.status)?;
    push_guid_part(out, alloc, &variable.guid)?;
    push_fmp_parts(out, &variable.fmp)?;
    out.push_str("\n")?;
    Ok(())
}

fn push_fmp_parts(out: &mut Text, fmp: &Option<FmpResult>) -> Result<(), NoMemory>
    ensures { OnOk result (out.new ≡ out.old ++ parts (fmp_words fmp.now)) }
{
    if let Some(fmp) = fmp {
        push_number_part(out, u64::from(fmp.payload))?;
        push_number_part(out, u64::from(fmp.index))?;
        push_part_or_dash(out, fmp.file.as_str())?;
        push_part_or_dash(out, fmp.target.as_str())?;
    }
    Ok(())
}

fn push_last(out: &mut Text, last: Option<u16>) -> Result<(), NoMemory>
    ensures { OnOk result (out.new ≡ out.old ++ last_text last) }
{
    if let Some(number) = last {
        out.push_str("  last")?;
        push_result_part(out, number)?;
        out.push_str("\n")?;
    }
    Ok(())
}

fn push_files(out: &mut Text, files: &[FolderFile]) -> Result<(), NoMemory>
    ensures { OnOk result (out.new ≡ out.old ++ flat_map file_text files.now) }
{
    for file in files {
        push_file_line(out, file)?;
    }
    Ok(())
}

fn push_file_line(out: &mut Text, file: &FolderFile) -> Result<(), NoMemory>
    ensures { OnOk result (out.new ≡ out.old ++ file_text file.now) }
{
    out.push_str("  file")?;
    push_word_part(out, file.name.as_str())?;
    push_number_part(out, file.serial)?;
    push_number_part(out, u64::from(file.size))?;
    out.push_str("\n")?;
    Ok(())
}

fn push_staged(out: &mut Text, alloc: Global, staged: &[StagedPair]) -> Result<(), NoMemory>
    ensures { OnOk result (out.new ≡ out.old ++ flat_map staged_text staged.now) }
{
    for pair in staged {
        push_staged_line(out, alloc, pair)?;
    }
    Ok(())
}

fn push_staged_line(out: &mut Text, alloc: Global, pair: &StagedPair) -> Result<(), NoMemory>
    ensures { OnOk result (out.new ≡ out.old ++ staged_text pair.now) }
{
    out.push_str("  staged")?;
    push_number_part(out, pair.serial)?;
    push_hex_part(out, alloc, pair.address)?;
    out.push_str("\n")?;
    Ok(())
}
