//! The operands of an event, as borrowed words.

ghost use Rattle.std.specs.Prelude.{◌≡◌, ◌∷◌, [], MatchOption, option_copied, option_map};
ghost use Rattle.reset_play.specs.ScriptWords.{words_behind};
ghost use Rattle.reset_play.specs.ScriptEvents.{only, both};

use super::parts::cut;

/// The first of the words that a rest has, and the rest behind it.
pub(crate) fn next_word(rest: &[u8]) -> Option<(&[u8], &[u8])>
    ensures { MatchOption result (words_behind rest.now ≡ [])
        (λ found. words_behind rest.now ≡ found.0.now ∷ words_behind found.1.now) }
{
    match rest {
        [] => None,
        [_, text @ ..] => Some(cut(text, b' ')),
    }
}

/// The one word of a rest.
pub(crate) fn only_word(rest: &[u8]) -> Option<&[u8]>
    ensures { option_copied result ≡ only (words_behind rest.now) }
{
    let (word, more) = next_word(rest)?;
    match next_word(more) {
        None => Some(word),
        Some(_) => None,
    }
}

/// The two words of a rest.
pub(crate) fn both_words(rest: &[u8]) -> Option<(&[u8], &[u8])>
    ensures { option_map (λ p. (p.0.now, p.1.now)) result ≡ both (words_behind rest.now) }
{
    let (first, more) = next_word(rest)?;
    let second = only_word(more)?;
    Some((first, second))
}
