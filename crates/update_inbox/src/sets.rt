//! Variables of the platform as changes of the store.

ghost use Rattle.std.specs.Prelude.{◌≡◌, IfOk, IsTrue};
ghost use Rattle.stored_vars.specs.Variables.{attributes_of, guid_of, is_fixed, is_variable};
ghost use Rattle.stored_vars.specs.Variables.{name_of};
ghost use Rattle.var_log.specs.declared.change.Change.TheVariants.{Set};

use cu_base::{Blob, NoMemory, Text};
use std::alloc::Global;
use stored_vars::StoredVar;
use var_log::Change;

/// A set of a variable that is no result.
pub fn set_of(alloc: Global, variable: StoredVar, bytes: &[u8]) -> Result<Change, NoMemory>
    requires within { IsTrue (is_variable variable) }
    requires fixed { IsTrue (is_fixed variable) }
    ensures { IfOk result (λ c. c ≡ Set (name_of variable) (guid_of variable)
        (attributes_of variable) bytes.now) }
{
    Ok(Change::Set {
        name: Text::from_str(alloc, variable.name())?,
        guid: variable.guid(),
        attributes: variable.attributes(),
        value: Blob::from_slice(alloc, bytes)?,
    })
}
