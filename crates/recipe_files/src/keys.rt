ghost use Rattle.std.specs.Prelude.{◌≡◌};
ghost use Rattle.recipe_files.specs.Keys.{key_name};

/// A key of a board's or a recipe's text, or the whole text.
#[derive(Clone, Copy, Debug, PartialEq, Eq)]
pub(crate) enum Key {
    Whole,
    Bank,
    Store,
    Layout,
    ResultMax,
    Digests,
    Device,
    Name,
    TypeId,
    Index,
    Instance,
    FwType,
    Capacity,
    Version,
    Floor,
    Flags,
    CapsuleGuid,
    Ext,
    Body,
    Drivers,
    Item,
    Header,
    Auth,
    FwVersion,
    Lowest,
    Payload,
    Vendor,
    Monotonic,
    CertType,
    Cert,
    Dep,
}

/// The plain name of the key, and `-` for the whole text.
pub(crate) fn key_name(key: Key) -> &'static str
    ensures { result.now ≡ key_name key }
{
    match key {
        Key::Whole => "-",
        Key::Bank => "bank",
        Key::Store => "store",
        Key::Layout => "layout",
        Key::ResultMax => "result_max",
        Key::Digests => "digests",
        Key::Device => "device",
        Key::Name => "name",
        Key::TypeId => "type",
        Key::Index => "index",
        Key::Instance => "instance",
        Key::FwType => "fw_type",
        Key::Capacity => "capacity",
        Key::Version => "version",
        Key::Floor => "floor",
        Key::Flags => "flags",
        Key::CapsuleGuid => "guid",
        Key::Ext => "ext",
        Key::Body => "body",
        Key::Drivers => "drivers",
        Key::Item => "item",
        Key::Header => "header",
        Key::Auth => "auth",
        Key::FwVersion => "fw_version",
        Key::Lowest => "lowest",
        Key::Payload => "payload",
        Key::Vendor => "vendor",
        Key::Monotonic => "monotonic",
        Key::CertType => "cert_type",
        Key::Cert => "cert",
        Key::Dep => "dep",
    }
}
