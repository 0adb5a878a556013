use crate::RecipeItems;
use cu_base::{Names, Text};

/// The body of a capsule: the input that is the body of a capsule whose GUID is not that of FMP
/// capsules, or the drivers and the items of an FMP capsule.
#[derive(Drop)]
pub enum RecipeBody {
    /// The name of the input.
    Other(Text),
    /// At most 65,535 names of inputs, and at most 65,535 items.
    Fmp { drivers: Names, items: RecipeItems },
}
