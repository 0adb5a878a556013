//! The documents of texts, and how their faults are told.

ghost use Rattle.recipe_files.specs.Documents.{FindsTable, document};
ghost use Rattle.recipe_files.specs.Faults.{TellsStop};

use crate::faults::{BadKind, Fault, FileFault, Stop};
use crate::keys::{Key, key_name};
use cu_base::Text;
use std::alloc::Global;
use toml::Table;

/// The document of a text.
#[tactic(auto, using(crate::proofs::Documents::document_of_text, crate::proofs::Documents::document_of_other))]
pub(crate) fn read_document(alloc: Global, bytes: &[u8]) -> Result<Table, Stop>
    ensures { FindsTable (document bytes.now) result }
{
    let refused = Fault {
        kind: BadKind::BadToml,
        key: Key::Whole,
    };
    let Ok(text) = std::str::from_utf8(bytes) else {
        return Err(Stop::Bad(refused));
    };
    match toml::table_from_str(alloc, text) {
        Ok(table) => Ok(table),
        Err(fault) if fault.is_memory() => Err(Stop::Memory),
        Err(_) => Err(Stop::Bad(refused)),
    }
}

/// The fault as it is told, with the plain name of its key.
pub(crate) fn told(alloc: Global, stop: Stop) -> FileFault
    ensures { TellsStop stop result }
{
    let fault = match stop {
        Stop::Memory => return FileFault::Memory,
        Stop::Bad(fault) => fault,
    };
    match Text::from_str(alloc, key_name(fault.key)) {
        Ok(key) => FileFault::Bad {
            kind: fault.kind,
            key,
        },
        Err(_) => FileFault::Memory,
    }
}
