//! The order of capsule files.

ghost use Rattle.std.specs.Prelude.{◌≡◌};
ghost use Rattle.std.specs.Cmp.Lexicographic.{slice_cmp};
ghost use Rattle.std.specs.Ordering.{nat_cmp};
ghost use Rattle.std.specs.Str.{str_to_ascii_uppercase};

use std::cmp::Ordering;

/// How two names stand to each other as their upper-cased bytes do: the order in which files are
/// taken.
pub fn compare_names(a: &str, b: &str) -> Ordering
    ensures { result
        ≡ slice_cmp nat_cmp (str_to_ascii_uppercase a.now) (str_to_ascii_uppercase b.now) }
{
    let left = a.bytes().map(|byte| byte.to_ascii_uppercase());
    left.cmp(b.bytes().map(|byte| byte.to_ascii_uppercase()))
}
