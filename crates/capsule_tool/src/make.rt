//! The command `make`: the capsule of a recipe.
ghost use Rattle.std.specs.Prelude.{◌≡◌, IfOk};
ghost use Rattle.cu_io.specs.Seen.{Follows};
ghost use Rattle.capsule_tool.specs.Makes.{made, make_work};
ghost use Rattle.capsule_tool.specs.Steps.{StepsTo};
ghost use Rattle.capsule_tool.specs.Works.Work.{Finds};

mod inputs;
mod recipe;

use crate::answer::Answer;
use crate::found::Found;
use crate::output::Output;
use crate::status::Status;
use crate::stop::Stop;
use cu_base::{NoMemory, Text};
use cu_io::{Inputs, Loaded};
use inputs::load_inputs;
use recipe::take_recipe;
use recipe_files::{BuildFault, Recipe, capsule_size, recipe_inputs};
use std::alloc::Global;

/// Reads the recipe of this name and the inputs that it names, and makes the capsule.
pub fn make<I: Inputs>(alloc: Global, name: &Text, inputs: &mut I) -> Result<Found, Stop>
    ensures steps { StepsTo (make_work name.now) (λ found. Finds found)
        (I.seen inputs.old) (I.seen inputs.new) result }
    ensures frame { Follows (I.seen inputs.old) (I.seen inputs.new) }
{
    let recipe = take_recipe(alloc, name, inputs)?;
    let names = recipe_inputs(alloc, &recipe)?;
    let loaded = load_inputs(alloc, names.as_slice(), inputs)?;
    let answer = made(alloc, recipe, loaded)?;
    Ok(Found::bare(alloc, answer))
}

/// The capsule of a recipe over the inputs that were read, or that it would be too long.
fn made(alloc: Global, recipe: Recipe, loaded: Loaded) -> Result<Answer, NoMemory>
    ensures { IfOk result (λ answer. answer ≡ made recipe loaded.items) }
{
    match capsule_size(alloc, &recipe, &loaded) {
        Ok(_) => Ok(Answer {
            status: Status::Done,
            text: Output::made(recipe, loaded),
        }),
        Err(BuildFault::TooLarge) => Answer::long(alloc, "capsule"),
        Err(BuildFault::Memory) => Err(NoMemory),
    }
}
