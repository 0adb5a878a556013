//! Names, GUIDs and attributes.

use cu_base::Guid;
use std::process::Abort;
use std::test::Fail;
use stored_vars::StoredVar;

/// 7a1c3b52-0d4e-4f86-9b27-5e6f1a2d3c40, 8be4df61-93ca-11d2-aa0d-00e098032b8c and
/// 39b68c46-f7fb-441b-b6ec-16b0f69821f3.
const TEXTS: [&str; 3] = [
    "7a1c3b52-0d4e-4f86-9b27-5e6f1a2d3c40",
    "8be4df61-93ca-11d2-aa0d-00e098032b8c",
    "39b68c46-f7fb-441b-b6ec-16b0f69821f3",
];

#[test]
fn each_variable(rt: HostRuntime) -> Result<(), Fail> {
    for (variable, name, guid, attributes) in [
        (StoredVar::Device(0), "Dev0", TEXTS[0], 3),
        (StoredVar::Device(9), "Dev9", TEXTS[0], 3),
        (StoredVar::Device(10), "DevA", TEXTS[0], 3),
        (StoredVar::Device(15), "DevF", TEXTS[0], 3),
        (StoredVar::Progress, "Progress", TEXTS[0], 3),
        (StoredVar::Serial, "Serial", TEXTS[0], 3),
        (StoredVar::Stage(0), "Stage0", TEXTS[0], 3),
        (StoredVar::Stage(7), "Stage7", TEXTS[0], 3),
        (StoredVar::OsIndications, "OsIndications", TEXTS[1], 7),
        (StoredVar::CapsuleMax, "CapsuleMax", TEXTS[2], 7),
        (StoredVar::CapsuleLast, "CapsuleLast", TEXTS[2], 7),
        (StoredVar::Outcome(0), "Capsule0000", TEXTS[2], 7),
        (StoredVar::Outcome(0x01AF), "Capsule01AF", TEXTS[2], 7),
    ] {
        let text = variable.text(rt.alloc())?;
        assert_eq!(&rt; text.as_str(), name);
        assert_eq!(&rt; variable.guid(), Guid::from_text(guid)?);
        assert_eq!(&rt; variable.attributes(), attributes);
    }
    assert_eq!(&rt; StoredVar::Device(11).name(), "DevB");
    assert_eq!(&rt; StoredVar::Stage(3).name(), "Stage3");
    Ok(())
}
