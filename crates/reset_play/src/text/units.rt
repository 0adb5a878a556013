//! The lines of a boot.

ghost use Rattle.std.specs.Prelude.{◌≡◌, ◌∷◌, ◌++◌, decimal, flat_map, OnOk};
ghost use Rattle.reset_play.specs.Texts.{kind_word, source_text, capsule_text, item_text};
ghost use Rattle.reset_play.specs.Texts.{attempt_text, device_text, unit_text, parts, key_words};
ghost use Rattle.reset_play.specs.Texts.{end_words};

use super::parts::{
    push_number, push_number_part, push_result_part, push_status_part, push_word_part,
};
use crate::{Kind, UnitKey, UnitLine};
use bench_model::Board;
use cu_base::{NoMemory, Text};

pub fn push_units(out: &mut Text, board: &Board, lines: &[UnitLine]) -> Result<(), NoMemory>
    ensures { OnOk result (out.new ≡ out.old ++ flat_map (unit_text board.now) lines.now) }
{
    for line in lines {
        push_unit(out, board, line)?;
    }
    Ok(())
}

fn push_unit(out: &mut Text, board: &Board, line: &UnitLine) -> Result<(), NoMemory>
    ensures { OnOk result (out.new ≡ out.old ++ unit_text board.now line.now) }
{
    out.push_str("  ")?;
    out.push_str(kind_word(line.kind))?;
    push_key_parts(out, board, line)?;
    push_end_parts(out, line)?;
    out.push_str("\n")?;
    Ok(())
}

// Source, capsule, item and target.
fn push_key_parts(out: &mut Text, board: &Board, line: &UnitLine) -> Result<(), NoMemory>
    ensures { OnOk result (out.new ≡ out.old ++ parts (key_words board.now line.now)) }
{
    push_source_part(out, &line.key)?;
    push_capsule_part(out, line.kind, line.key.ticket.capsule)?;
    push_item_part(out, line.kind, line.key.ticket.item)?;
    push_device_part(out, line.kind, board, line.key.device)?;
    Ok(())
}

// Status, version and result.
fn push_end_parts(out: &mut Text, line: &UnitLine) -> Result<(), NoMemory>
    ensures { OnOk result (out.new ≡ out.old ++ parts (end_words line.now)) }
{
    push_status_part(out, line.status)?;
    push_version_part(out, line.kind, line.version)?;
    push_result_part(out, line.result)?;
    Ok(())
}

fn kind_word(kind: Kind) -> &'static str
    ensures { result.now ≡ kind_word kind }
{
    match kind {
        Kind::Try => "try",
        Kind::Heal => "heal",
        Kind::Skip => "skip",
        Kind::NoTarget => "none",
        Kind::Bad => "bad",
    }
}

fn push_source_part(out: &mut Text, key: &UnitKey) -> Result<(), NoMemory>
    ensures { OnOk result (out.new ≡ out.old ++ 32 ∷ source_text key.now.ticket key.now.name) }
{
    if key.ticket.route == 0 {
        out.push_str(" mem:")?;
        push_number(out, key.ticket.serial)?;
    } else {
        out.push_str(" file:")?;
        out.push_str(key.name.as_str())?;
    }
    Ok(())
}

fn push_capsule_part(out: &mut Text, kind: Kind, capsule: u8) -> Result<(), NoMemory>
    ensures { OnOk result (out.new ≡ out.old ++ 32 ∷ capsule_text kind capsule) }
{
    match kind {
        Kind::Try | Kind::Heal | Kind::Skip | Kind::NoTarget => {
            push_number_part(out, u64::from(capsule))?;
        }
        Kind::Bad => push_word_part(out, "-")?,
    }
    Ok(())
}

fn push_item_part(out: &mut Text, kind: Kind, item: u8) -> Result<(), NoMemory>
    ensures { OnOk result (out.new ≡ out.old ++ 32 ∷ item_text kind item) }
{
    match kind {
        Kind::Try | Kind::Heal | Kind::NoTarget => push_number_part(out, u64::from(item))?,
        Kind::Skip | Kind::Bad => push_word_part(out, "-")?,
    }
    Ok(())
}

fn push_device_part(out: &mut Text, kind: Kind, board: &Board, device: u8) -> Result<(), NoMemory>
    ensures { OnOk result
        (out.new ≡ out.old ++ 32 ∷ attempt_text kind (device_text board.now device)) }
{
    match kind {
        Kind::Try | Kind::Heal => push_word_part(out, device_name(board, device))?,
        Kind::Skip | Kind::NoTarget | Kind::Bad => push_word_part(out, "-")?,
    }
    Ok(())
}

fn device_name<'a>(board: &'a Board, device: u8) -> &'a str
    ensures { result.now ≡ device_text board.now device }
{
    match board.devices().get(usize::from(device)) {
        Some(device) => device.name.as_str(),
        None => "-",
    }
}

fn push_version_part(out: &mut Text, kind: Kind, version: u32) -> Result<(), NoMemory>
    ensures { OnOk result (out.new ≡ out.old ++ 32 ∷ attempt_text kind (decimal version)) }
{
    match kind {
        Kind::Try | Kind::Heal => push_number_part(out, u64::from(version))?,
        Kind::Skip | Kind::NoTarget | Kind::Bad => push_word_part(out, "-")?,
    }
    Ok(())
}
