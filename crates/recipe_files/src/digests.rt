ghost use Rattle.std.specs.Prelude.{◌≡◌, Some, None, MatchResult, map};
ghost use Rattle.std.specs.List.{list_all};
ghost use Rattle.toml.specs.View.{view};
ghost use Rattle.recipe_files.specs.Digests.{is_lower_digit, digest_of, digest_of_text};
ghost use Rattle.recipe_files.specs.Faults.{Reads};
ghost use Rattle.recipe_files.specs.Tests.{digest_test, digests_test};

use crate::faults::{BadKind, Fault, Stop};
use crate::keys::Key;
use bench_model::Digests;
use cu_base::Digest;
use hex::FromHex;
use std::alloc::Global;
use toml::Value;
use toml::value::Array;

fn are_lower_digits(text: &[u8]) -> bool
    ensures { result ≡ list_all is_lower_digit text.now }
{
    text.iter().all(|c| matches!(*c, b'0'..=b'9' | b'a'..=b'f'))
}

fn digest_of_text(text: &str) -> Option<Digest>
    ensures { result ≡ digest_of_text text.now }
{
    if !are_lower_digits(text.as_bytes()) {
        return None;
    }
    match <[u8; 32] as FromHex>::from_hex(text) {
        Ok(bytes) => Some(Digest { bytes }),
        Err(_) => None,
    }
}

#[tactic(auto, unfolding(crate::specs::Tests::digest_test, crate::specs::Digests::digest_of))]
fn digest_of(value: &Value) -> Result<Digest, Fault>
    ensures { MatchResult result
        (λ digest. (digest_test (view value.now) ≡ None) × (digest_of (view value.now) ≡ digest))
        (λ fault. digest_test (view value.now) ≡ Some fault) }
{
    let Some(text) = value.as_str() else {
        return Err(Fault {
            kind: BadKind::WrongKind,
            key: Key::Digests,
        });
    };
    match digest_of_text(text) {
        Some(digest) => Ok(digest),
        None => Err(Fault {
            kind: BadKind::OutOfRange,
            key: Key::Digests,
        }),
    }
}

/// The digests of a list.
#[tactic(auto, using(crate::proofs::FaultLemmas::digests_test_is))]
pub(crate) fn read_digests(alloc: Global, list: &Array) -> Result<Digests, Stop>
    ensures { Reads (digests_test (map view list.now.items))
        (λ digests. digests.items ≡ map digest_of (map view list.now.items)) result }
{
    let mut digests = Digests::new(alloc);
    for value in list {
        digests.push(digest_of(value)?)?;
    }
    Ok(digests)
}
