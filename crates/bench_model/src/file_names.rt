ghost use Rattle.std.specs.Prelude.{◌≡◌};
ghost use Rattle.bench_model.specs.Files.{is_file_name, is_same_name};

use crate::MAX_FILE_NAME;
use crate::names::are_name_bytes;

/// Whether the text is the name of a file: 1 to 40 of ASCII letters, digits, `.`, `_` and `-`.
pub fn is_file_name(name: &str) -> bool
    ensures { result ≡ is_file_name name.now }
{
    let bytes = name.as_bytes();
    !bytes.is_empty() && bytes.len() <= MAX_FILE_NAME && are_name_bytes(bytes)
}

/// Whether two names name one file: they differ in case alone.
pub fn is_same_name(a: &str, b: &str) -> bool
    ensures { result ≡ is_same_name a.now b.now }
{
    let mut left = a.as_bytes();
    let mut right = b.as_bytes();
    'bytes: loop {
        match (left.split_first(), right.split_first()) {
            (None, None) => return true,
            (Some((x, xs)), Some((y, ys))) => {
                if x.to_ascii_uppercase() != y.to_ascii_uppercase() {
                    return false;
                }
                left = xs;
                right = ys;
            }
            (None, Some(_)) => return false,
            (Some(_), None) => return false,
        }
    }
}
