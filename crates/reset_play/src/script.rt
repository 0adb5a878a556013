//! The text of a script, read exactly.

mod events;
mod faults;
mod inputs;
mod laws;
mod limits;
mod lines;
mod names;
mod numbers;
mod operands;
mod parts;

pub use bench_model::MAX_FILE_NAME;
pub use faults::{ScriptFault, ScriptKind};
pub use inputs::script_inputs;
pub use laws::{scripts_read_back, the_limits_of_scripts_are_these};
pub use limits::{MAX_COUNT, MAX_EVENTS, MAX_INPUT_NAME, MAX_POKE_BYTES};
pub use lines::read_script;
