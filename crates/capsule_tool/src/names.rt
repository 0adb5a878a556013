//! The names of the causes of refusals, as they are printed.
ghost use Rattle.std.specs.Prelude.{◌≡◌};
ghost use Rattle.capsule_tool.specs.Verdicts.{name_of};
ghost use Rattle.capsule_tool.specs.Names.{file_kind, script_kind};

use capsule_grammar::Why;
use recipe_files::BadKind;
use reset_play::ScriptKind;

/// The name of a cause for which a capsule is refused.
pub fn why_name(why: Why) -> &'static str
    ensures { result.now ≡ name_of why }
{
    match why {
        Why::Short => "Short",
        Why::BadHeaderSize => "BadHeaderSize",
        Why::BadImageSize => "BadImageSize",
        Why::BadFmpVersion => "BadFmpVersion",
        Why::BadImageVersion => "BadImageVersion",
        Why::OffsetsOutside => "OffsetsOutside",
        Why::OffsetsNotRising => "OffsetsNotRising",
        Why::ImageOutside => "ImageOutside",
        Why::TooManyCapsules => "TooManyCapsules",
    }
}

/// The name of the fault of a board or a recipe as it is printed.
pub fn file_kind(kind: BadKind) -> &'static str
    ensures { result.now ≡ file_kind kind }
{
    match kind {
        BadKind::BadToml => "BadToml",
        BadKind::MissingKey => "MissingKey",
        BadKind::WrongKind => "WrongKind",
        BadKind::OutOfRange => "OutOfRange",
        BadKind::BadGuid => "BadGuid",
        BadKind::Repeated => "Repeated",
        BadKind::BankTooSmall => "BankTooSmall",
    }
}

/// The name of a script's fault as it is printed.
pub fn script_kind(kind: ScriptKind) -> &'static str
    ensures { result.now ≡ script_kind kind }
{
    match kind {
        ScriptKind::BadText => "BadText",
        ScriptKind::BadEvent => "BadEvent",
        ScriptKind::BadOperand => "BadOperand",
        ScriptKind::TooMany => "TooMany",
    }
}
