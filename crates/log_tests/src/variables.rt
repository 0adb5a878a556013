//! Cases worked by hand.

use cu_base::{Blob, Guid, NoMemory, Text};
use std::alloc::Global;
use var_log::{Batch, Change, is_name};

/// A GUID of equal bytes.
fn guid(byte: u8) -> Guid {
    Guid { bytes: [byte; 16] }
}

#[test]
fn names_of_variables(rt: HostRuntime) {
    for (name, want) in [
        ("", false),
        ("A", true),
        ("!~", true),
        ("OsIndications", true),
        (
            "0123456789abcdef0123456789abcdef0123456789abcdef0123456789abcdef",
            true,
        ),
        (
            "0123456789abcdef0123456789abcdef0123456789abcdef0123456789abcdef0",
            false,
        ),
        ("two words", false),
        ("del\u{7f}", false),
        ("tab\t", false),
        ("s\u{e9}s", false),
    ] {
        assert_eq!(rt; is_name(name.as_bytes()), want, "at {name}");
    }
}

/// A set of this data.
fn set(alloc: Global, data: &[u8]) -> Result<Change, NoMemory> {
    Ok(Change::Set {
        name: Text::from_str(alloc, "A")?,
        guid: guid(7),
        attributes: 3,
        value: Blob::from_slice(alloc, data)?,
    })
}

#[test]
fn data_at_its_limit(rt: HostRuntime) -> Result<(), NoMemory> {
    let at = set(rt.alloc(), &[0; 16_384])?;
    assert!(rt; at.keeps_limits());
    let past = set(rt.alloc(), &[0; 16_385])?;
    assert!(rt; !past.keeps_limits());
    Ok(())
}

#[test]
fn one_name_under_two_guids_is_two_variables(rt: HostRuntime) -> Result<(), NoMemory> {
    let alloc = rt.alloc();
    let mut batch = Batch::new(alloc);
    assert!(rt; !batch.has_key("A", &guid(1)));
    batch.push(Change::Delete {
        name: Text::from_str(alloc, "A")?,
        guid: guid(1),
    })?;
    assert!(rt; batch.has_key("A", &guid(1)));
    assert!(rt; !batch.has_key("A", &guid(2)));
    assert!(rt; !batch.has_key("B", &guid(1)));
    Ok(())
}
