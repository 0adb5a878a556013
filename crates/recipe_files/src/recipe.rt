use crate::RecipeBody;
use cu_base::{Blob, Guid};
use std::marker::Model;

/// A recipe of a capsule (UEFI 2.10, 8.5.3). Contracts see the record of its fields, which keep the
/// rules of their keys; the body is that of an FMP capsule exactly where the GUID is.
#[derive(Drop)]
pub struct Recipe {
    /// CapsuleGuid.
    pub guid: Guid,
    /// Flags of the capsule header.
    pub flags: u32,
    /// What stands between the fields of the capsule header and the body.
    pub ext: Blob,
    pub body: RecipeBody,
}

impl Model for Recipe {
    ghost use Rattle.recipe_files.specs.Recipes.{RecipeValue, IsRecipe};

    ghost Value = { RecipeValue };

    ghost use Rattle.recipe_files.specs.RecipeTypes.{recipe};

    ghost view = { λ r. recipe r.guid r.flags r.ext r.body };

    ghost invariant = { λ r. IsRecipe (recipe r.guid r.flags r.ext r.body) };
}
