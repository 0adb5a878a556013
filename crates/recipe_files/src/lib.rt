//! Boards and recipes read from their texts, which are TOML, and capsules made of recipes. What a
//! text says, and the first fault of a text that is refused, is a definition over the document that
//! `toml` reads.
#![tactic(auto)]

mod board;
mod body;
mod building;
mod devices;
mod digests;
mod document;
mod faults;
mod heads;
mod hexes;
mod image;
mod index;
mod input_names;
mod inputs;
mod item;
mod items;
mod keys;
pub mod laws;
mod limits;
mod pieces;
mod recipe;
mod recipe_text;
mod recipe_values;
mod room;
mod sizes;
mod values;

pub use board::read_board;
pub use body::RecipeBody;
pub use building::build;
pub use faults::{BadKind, BuildFault, FileFault};
pub use inputs::recipe_inputs;
pub use item::{RecipeItem, RecipeItems};
pub use limits::{MAX_DRIVERS, MAX_ITEMS};
pub use pieces::{build_pieces, capsule_size};
pub use recipe::Recipe;
pub use recipe_text::read_recipe;
