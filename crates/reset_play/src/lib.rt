//! A play: the events of a script on a board, what each answers, and the text of the trace.
//!
//! Contracts speak of a play by the words of the reference machine (`reference_machine`). A script
//! is read by `script`, a play is run by `thin_play`, and `text` writes its trace.
#![tactic(auto)]

mod laws;
mod script;
mod text;
mod thin_play;

use cu_base::Items;
pub use laws::{sample_plays, thin_deliveries_are_capsules};
pub use reference_machine::{
    Answer, BootEnd, CapsuleResult, End, Entry, EsrtEntry, Event, FmpResult, FolderFile, Kind,
    MAX_FILES, MAX_FOLDER_BYTES, MAX_MEMORY_BYTES, MAX_SEGMENTS, MAX_STAGED, Report, ResultVar,
    Serials, Snapshot, StagedPair, UnitKey, UnitLine, UnitLines,
};
pub use script::{
    MAX_COUNT, MAX_EVENTS, MAX_FILE_NAME, MAX_INPUT_NAME, MAX_POKE_BYTES, ScriptFault, ScriptKind,
    read_script, script_inputs, scripts_read_back, the_limits_of_scripts_are_these,
};
pub use text::trace_text;
pub use thin_play::{is_thin_on, play};

/// The events of a play, in order.
pub type Script = Items<Event>;

/// The entries of a play, one for each event, in order.
pub type Trace = Items<Entry>;
