//! The names of files and inputs.

ghost use Rattle.std.specs.Prelude.{◌≡◌, IfOk};
ghost use Rattle.std.specs.List.{list_all};
ghost use Rattle.std.specs.Str.{IsAscii};
ghost use Rattle.reset_play.specs.ScriptWords.{is_name_byte, is_file_name, is_input_name};
ghost use Rattle.reset_play.specs.ScriptWords.{is_within};

use super::limits::MAX_INPUT_NAME;
use bench_model::MAX_FILE_NAME;
use cu_base::{NoMemory, Text};
use std::alloc::Global;

fn is_name_byte(b: u8) -> bool
    ensures { result ≡ is_name_byte b }
{
    matches!(b, b'A'..=b'Z' | b'a'..=b'z' | b'0'..=b'9' | b'.' | b'_' | b'-')
}

fn has_name_bytes(word: &[u8]) -> bool
    ensures { result ≡ list_all is_name_byte word.now }
{
    word.iter().all(|b| is_name_byte(*b))
}

fn has_visible_bytes(word: &[u8]) -> bool
    ensures { result ≡ list_all (is_within 0x21 0x7E) word.now }
{
    word.iter().all(|b| matches!(*b, 0x21..=0x7E))
}

/// Whether a word is a file name: 1 to 40 letters, digits, `.`, `_` and `-`.
pub(crate) fn is_file_name(word: &[u8]) -> bool
    ensures { result ≡ is_file_name word.now }
{
    1 <= word.len() && word.len() <= MAX_FILE_NAME && has_name_bytes(word)
}

/// Whether a word is the name of an input: 1 to 64 printable bytes but spaces.
pub(crate) fn is_input_name(word: &[u8]) -> bool
    ensures { result ≡ is_input_name word.now }
{
    1 <= word.len() && word.len() <= MAX_INPUT_NAME && has_visible_bytes(word)
}

/// The text of a word.
pub(crate) fn text_of(alloc: Global, word: &[u8]) -> Result<Text, NoMemory>
    requires { IsAscii word.now }
    ensures { IfOk result (λ text. text ≡ word.now) }
{
    match str::from_utf8(word) {
        Ok(text) => Text::from_str(alloc, text),
        Err(_) => unreachable!(),
    }
}
