//! Which capsule stands at the front.

ghost use Rattle.std.specs.Prelude.{◌≡◌, None};
ghost use Rattle.cu_base.specs.Fields.{field};
ghost use Rattle.capsule_grammar.specs.Refusals.{is_fmp_guid, refusal};

use capsule_grammar::accepted::capsule_header;
use capsule_grammar::is_fmp_guid;

/// Whether the capsule at the front is an FMP capsule.
pub fn is_fmp(bytes: &[u8]) -> bool
    requires { refusal bytes.now ≡ None }
    ensures { result ≡ is_fmp_guid (field bytes.now 0 16) }
{
    is_fmp_guid(&capsule_header(bytes).guid)
}
