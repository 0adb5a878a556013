ghost use Rattle.std.specs.Prelude.{◌≡◌};
ghost use Rattle.capsule_tool.specs.Verdicts.{verdict_of, MayBeWhole};

use capsule_grammar::Refusal;

/// What checking the bytes of a file finds.
#[derive(Clone, Copy, Debug, PartialEq, Eq)]
pub enum Verdict {
    /// They are one capsule of this many bytes.
    Whole(usize),
    /// They are refused as a capsule.
    Refused(Refusal),
    /// Bytes follow the capsule, from this place on.
    Trailing(usize),
}

/// Whether the bytes are one capsule and no more.
pub fn judge(bytes: &[u8]) -> Verdict
    ensures value { result ≡ verdict_of bytes.now }
    ensures whole { MayBeWhole result bytes.now }
{
    match capsule_grammar::check(bytes) {
        Ok(length) => {
            if length < bytes.len() {
                Verdict::Trailing(length)
            } else {
                Verdict::Whole(length)
            }
        }
        Err(refusal) => Verdict::Refused(refusal),
    }
}
