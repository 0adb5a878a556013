//! Names of inputs.

ghost use Rattle.std.specs.Prelude.{◌≡◌};
ghost use Rattle.std.specs.List.{list_all};
ghost use Rattle.bench_model.specs.Names.{is_between};
ghost use Rattle.recipe_files.specs.InputNames.{is_input_name};

use crate::limits::MAX_INPUT_NAME;

/// Whether the text is the name of an input: 1 to 64 bytes of 0x21 to 0x7E.
pub(crate) fn is_input_name(name: &str) -> bool
    ensures { result ≡ is_input_name name.now }
{
    let bytes = name.as_bytes();
    !bytes.is_empty() && bytes.len() <= MAX_INPUT_NAME && are_printing(bytes)
}

fn are_printing(bytes: &[u8]) -> bool
    ensures { result ≡ list_all (is_between 0x21 0x7E) bytes.now }
{
    bytes.iter().all(|byte| matches!(*byte, 0x21..=0x7E))
}
