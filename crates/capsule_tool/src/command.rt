ghost use Rattle.std.specs.Prelude.{◌≡◌};
ghost use Rattle.std.specs.Char.{is_ascii_digit};
ghost use Rattle.std.specs.List.{list_all};
ghost use Rattle.capsule_tool.specs.Commands.{command_of, command_of_one, is_load_count};

use cu_base::Text;

/// What the words ask for: UEFI capsule files are checked, shown, rebuilt, made or played.
#[derive(Clone, Copy, Debug, PartialEq, Eq)]
pub enum Command {
    /// `check FILE`
    Check,
    /// `show FILE`
    Show,
    /// `rebuild FILE`
    Rebuild,
    /// `make RECIPE`
    Make,
    /// `play BOARD SCRIPT`
    Play,
    /// `load N`
    Load,
}

/// The command of the words. None exactly where they are none of the six.
pub fn command_of(words: &[Text]) -> Option<Command>
    ensures { result ≡ command_of words.now }
{
    match words {
        [command, operand] => command_on(command.as_str(), operand.as_str()),
        [command, _, _] => {
            if command.as_str() == "play" {
                Some(Command::Play)
            } else {
                None
            }
        }
        _ => None,
    }
}

/// The command of two words.
fn command_on(command: &str, operand: &str) -> Option<Command>
    ensures { result ≡ command_of_one command.now operand.now }
{
    if command == "check" {
        Some(Command::Check)
    } else if command == "show" {
        Some(Command::Show)
    } else if command == "rebuild" {
        Some(Command::Rebuild)
    } else if command == "make" {
        Some(Command::Make)
    } else if command == "load" && is_count(operand) {
        Some(Command::Load)
    } else {
        None
    }
}

/// Whether the text is a number from 1 to 1000 in decimal, without a leading zero.
fn is_count(text: &str) -> bool
    ensures { result ≡ is_load_count text.now }
{
    match text.as_bytes() {
        [first, rest @ ..] => {
            text == "1000"
                || (*first >= b'1' && *first <= b'9' && rest.len() <= 2 && are_digits(rest))
        }
        [] => false,
    }
}

/// Whether each byte is a decimal digit.
fn are_digits(text: &[u8]) -> bool
    ensures { result ≡ list_all is_ascii_digit text.now }
{
    text.iter().all(|digit| digit.is_ascii_digit())
}
