//! Laws of the program's definitions: its limits are those of the specification, and what it tells
//! is what the definitions of the crates below say of the named bytes.

ghost use Rattle.std.specs.Prelude.{◌≡◌, ℕ, List};
ghost use Rattle.cu_base.specs.Bytes.{IsBytes};
ghost use Rattle.capsule_grammar.specs.Reading.{capsule_of};
ghost use Rattle.capsule_show.specs.ShowText.{ShowText};
ghost use Rattle.bench_model.specs.Boards.{BoardValue};
ghost use Rattle.cu_io.specs.Named.{Named};
ghost use Rattle.reference_machine.specs.declared.event.Event.{Event};
ghost use Rattle.reset_play.specs.Plays.{thin_trace};
ghost use Rattle.capsule_tool.specs.Plain.{IsPlay, TellsVerdict, TellsFault};
ghost use Rattle.capsule_tool.specs.Played.{played_as};
ghost use Rattle.capsule_tool.specs.Shown.{shown_text};
ghost use Rattle.capsule_tool.specs.Statuses.{code_of};
ghost use Rattle.capsule_tool.specs.Told.{told};
ghost use Rattle.capsule_tool.specs.declared.limits.TheConstants.{MAX_TEXT_BYTES, MAX_NAMED_BYTES};

/// A board, a recipe and a script have at most 1 MiB, and the inputs that a text names at most 256
/// MiB in sum.
pub fn limits_are_as_specified()
    ensures value { (MAX_TEXT_BYTES ≡ 1048576) × (MAX_NAMED_BYTES ≡ 268435456) }
{}

/// The text that is told of a file is the text of the capsule that is read from its bytes.
pub fn shown_text_is_the_text()
    ensures { (bytes : List ℕ) → IsBytes bytes → ShowText (capsule_of bytes) (shown_text bytes) }
{}

/// What is told of a play whose texts are accepted and whose inputs are there, within their limits, is
/// the trace of the reference machine over the named bytes.
pub fn told_plays_are_those_of_the_machine()
    ensures { (words : List (List ℕ)) → (named : Named) → (board : BoardValue)
        → (events : List Event) → IsPlay words named board events
        → told words named ≡ played_as board events (thin_trace board named events) }
{}

/// Status 1 is told only by `check`, `show` and `rebuild`, with the verdict on the named bytes.
pub fn told_refusals_are_verdicts()
    ensures { (words : List (List ℕ)) → (named : Named)
        → code_of (told words named).answer.status ≡ 1
        → TellsVerdict words named (told words named).answer }
{}

/// Status 3 is told only where a recipe, a board or a script is refused, with its first fault.
pub fn told_faults_are_those_of_texts()
    ensures { (words : List (List ℕ)) → (named : Named)
        → code_of (told words named).answer.status ≡ 3
        → TellsFault words named (told words named).answer }
{}
