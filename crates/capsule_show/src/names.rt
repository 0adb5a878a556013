//! The names of the causes for which an update image is refused, as they are printed.

ghost use Rattle.std.specs.Prelude.{◌≡◌};
ghost use Rattle.capsule_show.specs.Names.{dep_name, part_name};

use dep_code::DepWhy;
use image_parts::PartWhy;

pub fn part_name(why: PartWhy) -> &'static str
    ensures { result.now ≡ part_name why }
{
    match why {
        PartWhy::ShortAuth => "ShortAuth",
        PartWhy::BadRevision => "BadRevision",
        PartWhy::BadCertType => "BadCertType",
        PartWhy::BadAuthLength => "BadAuthLength",
        PartWhy::Dep(why) => dep_name(why),
        PartWhy::ShortPayloadHeader => "ShortPayloadHeader",
        PartWhy::BadSignature => "BadSignature",
        PartWhy::BadPayloadHeaderSize => "BadPayloadHeaderSize",
    }
}

fn dep_name(why: DepWhy) -> &'static str
    ensures { result.now ≡ dep_name why }
{
    match why {
        DepWhy::NoEnd => "NoEnd",
        DepWhy::BadOpcode => "BadOpcode",
        DepWhy::CutOperand => "CutOperand",
        DepWhy::LateDeclare => "LateDeclare",
        DepWhy::WrongDeclare => "WrongDeclare",
        DepWhy::BadTypes => "BadTypes",
        DepWhy::NotOneBool => "NotOneBool",
        DepWhy::TooLong => "TooLong",
    }
}
