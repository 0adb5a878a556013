//! The lines of the body of an FMP capsule.

ghost use Rattle.std.specs.Prelude.{◌≡◌, ◌++◌, OnOk};
ghost use Rattle.std.specs.List.{concat};
ghost use Rattle.capsule_grammar.specs.Accepted.{IsFmpBody};
ghost use Rattle.capsule_grammar.specs.Reading.{fmp_of};
ghost use Rattle.capsule_show.specs.Appended.{AppendsLines};
ghost use Rattle.capsule_show.specs.Images.{AreLinesOfAll};
ghost use Rattle.capsule_show.specs.Lines.{count_words, driver_line, driver_lines, fmp_line};
ghost use Rattle.capsule_show.specs.Lines.{spaced};
ghost use Rattle.capsule_show.specs.ShowText.{AreFmpLines};

use crate::image::push_image;
use crate::words::{end_line, push_named, push_number, push_text};
use capsule_grammar::{driver_count, image_count, item, lead};
use cu_base::{Blob, NoMemory};
use std::alloc::Global;

/// Appends the line of the counts, those of the drivers and those of the images.
pub fn push_fmp(out: &mut Blob, alloc: Global, body: &[u8]) -> Result<(), NoMemory>
    requires { IsFmpBody body.now }
    ensures { OnOk result (AppendsLines (AreFmpLines (fmp_of body.now)) out.old out.new) }
{
    push_counts(out, body)?;
    push_drivers(out, body)?;
    push_images(out, alloc, body)
}

fn push_counts(out: &mut Blob, body: &[u8]) -> Result<(), NoMemory>
    requires { IsFmpBody body.now }
    ensures { OnOk result (out.new ≡ out.old ++ fmp_line (fmp_of body.now)) }
{
    push_text(out, "fmp")?;
    push_count_words(out, driver_count(body), image_count(body), lead(body).len())?;
    end_line(out)
}

fn push_count_words(out: &mut Blob, drivers: u16, images: u16, lead: usize) -> Result<(), NoMemory>
    ensures { OnOk result (out.new ≡ out.old ++ spaced (count_words drivers images lead)) }
{
    push_named(out, "drivers", drivers as u64)?;
    push_named(out, "items", images as u64)?;
    push_named(out, "lead", lead as u64)
}

fn push_drivers(out: &mut Blob, body: &[u8]) -> Result<(), NoMemory>
    requires { IsFmpBody body.now }
    ensures { OnOk result
        (out.new ≡ out.old ++ concat (driver_lines 0 (fmp_of body.now).drivers)) }
{
    for k in 0..driver_count(body) as u32 {
        push_driver(out, k, item(body, k))?;
    }
    Ok(())
}

fn push_driver(out: &mut Blob, number: u32, driver: &[u8]) -> Result<(), NoMemory>
    ensures { OnOk result (out.new ≡ out.old ++ driver_line number driver.now) }
{
    push_text(out, "driver")?;
    push_number(out, u64::from(number))?;
    push_named(out, "size", driver.len() as u64)?;
    end_line(out)
}

fn push_images(out: &mut Blob, alloc: Global, body: &[u8]) -> Result<(), NoMemory>
    requires { IsFmpBody body.now }
    ensures { OnOk result
        (AppendsLines (AreLinesOfAll 0 (fmp_of body.now).images) out.old out.new) }
{
    let drivers = driver_count(body) as u32;
    for k in 0..image_count(body) as u32 {
        push_image(out, alloc, k, item(body, drivers + k))?;
    }
    Ok(())
}
