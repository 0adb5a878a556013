//! The parts of a text, as borrowed slices.

ghost use Rattle.std.specs.Prelude.{◌≡◌, ◌<◌, ◌+◌, ◌∷◌, not, ◌==◌, length};
ghost use Rattle.std.specs.List.{prefix_len};
ghost use Rattle.reset_play.specs.ScriptWords.{parts, parts_behind};

// How many bytes stand before the first that is the mark.
fn length_before(text: &[u8], mark: u8) -> usize
    ensures { result ≡ prefix_len (λ b. not (b == mark)) text.now }
{
    text.iter().take_while(|b| **b != mark).count()
}

/// The first part of a text, and the rest from the mark behind it on.
pub(crate) fn cut(text: &[u8], mark: u8) -> (&[u8], &[u8])
    ensures parts { parts mark text.now ≡ result.0.now ∷ parts_behind mark result.1.now }
    ensures length { length result.0.now + length result.1.now ≡ length text.now }
{
    let at = length_before(text, mark);
    if at < text.len() {
        (&text[..at], &text[at..])
    } else {
        (text, &[])
    }
}
