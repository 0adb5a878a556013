//! The recipe is read and parsed.
ghost use Rattle.std.specs.Prelude.{[]};
ghost use Rattle.cu_io.specs.Seen.{Follows};
ghost use Rattle.recipe_files.specs.Mentions.{inputs_of};
ghost use Rattle.recipe_files.specs.RecipeTexts.{recipe_text};
ghost use Rattle.capsule_tool.specs.Makes.{make_work, making_work, recipe_next};
ghost use Rattle.capsule_tool.specs.Steps.{StepsTo, IsStep};

use crate::answer::Answer;
use crate::input::read_input;
use crate::limits::MAX_TEXT_BYTES;
use crate::names::file_kind;
use crate::stop::Stop;
use cu_base::{Blob, Text};
use cu_io::Inputs;
use recipe_files::{FileFault, Recipe, read_recipe};
use std::alloc::Global;

/// Reads the recipe of this name.
pub fn take_recipe<I: Inputs>(alloc: Global, name: &Text, inputs: &mut I) -> Result<Recipe, Stop>
    ensures steps { StepsTo (make_work name.now)
        (λ recipe. making_work recipe [] 0 (inputs_of recipe))
        (I.seen inputs.old) (I.seen inputs.new) result }
    ensures frame { Follows (I.seen inputs.old) (I.seen inputs.new) }
{
    let bytes = read_input(alloc, name, MAX_TEXT_BYTES, inputs)?;
    recipe_of(alloc, &bytes)
}

/// The recipe that the bytes say.
fn recipe_of(alloc: Global, bytes: &Blob) -> Result<Recipe, Stop>
    ensures steps { IsStep (recipe_next (recipe_text bytes.now))
        (λ recipe. making_work recipe [] 0 (inputs_of recipe)) result }
{
    match read_recipe(alloc, bytes.as_slice()) {
        Ok(recipe) => Ok(recipe),
        Err(FileFault::Bad { kind, key }) => {
            let kind = file_kind(kind);
            Err(Stop::Answered(Answer::faulty_recipe(alloc, kind, key.as_str())?))
        }
        Err(FileFault::Memory) => Err(Stop::Memory),
    }
}
