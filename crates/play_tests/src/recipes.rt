//! A capsule that is built whole, which no command does; in pieces it is shown by runs of the built
//! program.

use capsule_grammar::encode;
use cu_base::{Blob, Text};
use cu_io::Loaded;
use recipe_files::{build, read_recipe};
use std::alloc::Global;
use std::process::Abort;
use std::test::Fail;

/// Two drivers, of which the first is empty, and an item with each part.
const RECIPE: &str = "guid = \"6dcbd5ed-e82d-4c44-bda1-7194199ad92a\"
flags = 0x50000
drivers = [\"e\", \"d\"]
[[item]]
header = 3
type = \"aaaaaaaa-0000-0000-0000-000000000001\"
index = 1
instance = 5
auth = true
fw_version = 4
lowest = 3
payload = \"p\"
vendor = \"ee\"
monotonic = 7
cert_type = \"00010203-0405-0607-0809-0a0b0c0d0e0f\"
cert = \"C0c1\"
dep = \"060D\"
";

/// Its capsule: the headers and offsets, the drivers, the header of the image, and the image with
/// authentication data, section, payload header and payload, and the vendor code.
const CAPSULE: &[u8] = b"\xed\xd5\xcb\x6d\x2d\xe8\x44\x4c\xbd\xa1\x71\x94\x19\x9a\xd9\x2a\
    \x1c\0\0\0\0\0\x05\0\xa7\0\0\0\x01\0\0\0\x02\0\x01\0\
    \x20\0\0\0\0\0\0\0\x21\0\0\0\0\0\0\0\x24\0\0\0\0\0\0\0\0\x01\x02\x03\
    \x03\0\0\0\xaa\xaa\xaa\xaa\0\0\0\0\0\0\0\0\0\0\0\x01\x01\0\0\0\
    \x36\0\0\0\x01\0\0\0\x05\0\0\0\0\0\0\0\x03\0\0\0\0\0\0\0\
    \x07\0\0\0\0\0\0\0\x1a\0\0\0\0\x02\xf1\x0e\
    \x03\x02\x01\0\x05\x04\x07\x06\x08\x09\x0a\x0b\x0c\x0d\x0e\x0f\xc0\xc1\x06\x0d\
    MSS1\x10\0\0\0\x04\0\0\0\x03\0\0\0PQ\xee";

/// Loads an input, if its name is new.
fn load(alloc: Global, loaded: &mut Loaded, name: &str, bytes: &[u8]) -> Result<(), Fail> {
    if loaded.get(name).is_none() {
        loaded.push((
            Text::from_str(alloc, name)?,
            Blob::from_slice(alloc, bytes)?,
        ))?;
    }
    Ok(())
}

#[test]
fn a_capsule_is_built_whole(rt: HostRuntime) -> Result<(), Fail> {
    let alloc = rt.alloc();
    let recipe = read_recipe(alloc, RECIPE.as_bytes())
        .ok()
        .expect(&rt, "a recipe");
    let mut loaded = Loaded::new(alloc);
    load(alloc, &mut loaded, "e", &[])?;
    load(alloc, &mut loaded, "d", &[1, 2, 3])?;
    load(alloc, &mut loaded, "p", b"PQ")?;
    let capsule = build(alloc, &recipe, &loaded).ok().expect(&rt, "a capsule");
    let bytes = encode(alloc, &capsule)?;
    assert!(rt; bytes.as_slice() == CAPSULE);
    Ok(())
}
