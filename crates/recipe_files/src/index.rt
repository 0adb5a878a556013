//! The bytes of inputs, found by their names.

ghost use Rattle.std.specs.Prelude.{◌≡◌, IfOk, OnOk};
ghost use Rattle.recipe_files.specs.Builds.{contents_of};
ghost use Rattle.recipe_files.specs.Room.{AddsPair, found};

use cu_base::{Blob, NoMemory, Text};
use cu_io::Loaded;
use std::alloc::Global;
use std::collections::HashMap;

/// Adds a pair of name and bytes, which is found from now on.
#[tactic(auto, using(crate::proofs::IndexLemmas::adds))]
fn add<'a>(index: &mut HashMap<&'a str, &'a [u8]>, pair: &'a (Text, Blob)) -> Result<(), NoMemory>
    ensures { OnOk result (AddsPair index.old pair.now index.new) }
{
    match index.insert(pair.0.as_str(), pair.1.as_slice()) {
        Ok(_) => Ok(()),
        Err(_) => Err(NoMemory),
    }
}

/// The bytes of each loaded input by its name. Each look-up takes the same time, however many there
/// are.
pub(crate) fn index_of<'a>(
    alloc: Global,
    loaded: &'a Loaded,
) -> Result<HashMap<&'a str, &'a [u8]>, NoMemory>
    ensures { IfOk result (λ index. found index ≡ contents_of loaded.now.items) }
{
    let mut index: HashMap<&'a str, &'a [u8]> = HashMap::new(alloc);
    let pairs = loaded.as_slice();
    let mut k = pairs.len();
    while k > 0 {
        k -= 1;
        let pair = &pairs[k];
        add(&mut index, pair)?;
    }
    Ok(index)
}

/// The bytes of a name.
#[tactic(auto, unfolding(crate::specs::Room::found))]
pub(crate) fn find<'a>(index: &HashMap<&'a str, &'a [u8]>, name: &str) -> &'a [u8]
    ensures { result.now ≡ found index.now name.now }
{
    match index.get(&name) {
        Some(bytes) => bytes,
        None => &[],
    }
}
