//! The laws of recipes: the test of a section is that of `dep_code`, and the update image of each
//! item is its parts by its own support.

ghost use Rattle.std.specs.Prelude.{◌≡◌, ◌↔◌, ◌<◌, ◌+◌, ◌^◌, ℕ, List, true, length};
ghost use Rattle.cu_base.specs.Bytes.{IsBytes};
ghost use Rattle.image_parts.specs.Parts.{IsPartsOf};
ghost use Rattle.image_parts.specs.Section.{IsOneSection};
ghost use Rattle.recipe_files.specs.Builds.{HasWidths, parts_of, support_of, update_image};
ghost use Rattle.recipe_files.specs.Recipes.{IsItem, ItemValue};
ghost use Rattle.recipe_files.specs.Sections.{is_section};

/// The test of `dep` holds exactly of bytes that are one dependency section (UEFI 2.10, 23.2).
pub fn sections_are_tested()
    ensures { (bytes : List ℕ) → IsBytes bytes → is_section bytes ≡ true ↔ IsOneSection bytes }
{}

/// The update image of an item is its parts: authentication data and a section exactly where
/// ImageCapsuleSupport tells them (UEFI 2.10, 23.3.2), each in its form.
pub fn images_have_their_parts()
    ensures { (contents : List ℕ → List ℕ) (item : ItemValue) → IsItem item → HasWidths item →
        IsPartsOf (update_image contents item) (support_of item) (parts_of contents item) }
{}
