//! The authentication data at the front of an image.

ghost use Rattle.std.specs.Prelude.{◌≡◌, ◌≤◌, ◌<◌, ◌^◌, length, IfOk, IsTrue, option_map};
ghost use Rattle.cu_base.specs.Refusals.{first_refusal};
ghost use Rattle.image_parts.specs.Authentication.{authentication_at, authentication_rows_of};
ghost use Rattle.image_parts.specs.Authentication.{authentication_size, certificate_rows};
ghost use Rattle.image_parts.specs.Cuts.{auth_at, auth_end, auth_rows, auth_rows_of};
ghost use Rattle.image_parts.specs.Refusals.{Answers};
ghost use Rattle.image_parts.specs.Support.{has_authentication};
ghost use Rattle.image_parts.specs.Values.{auth_seen};

use crate::support::has_authentication;
use crate::{AuthParts, PartFault, PartWhy};
use cu_base::{guid_at, u16_at, u32_at, u64_at};

/// The bytes up to CertData: MonotonicCount and the fields of WIN_CERTIFICATE_UEFI_GUID.
pub const AUTHENTICATION_BYTES: usize = 32;

/// The place of MonotonicCount.
const MONOTONIC_COUNT_AT: usize = 0;

/// The place of dwLength.
const LENGTH_AT: usize = 8;

/// The place of wRevision.
const REVISION_AT: usize = 12;

/// The place of wCertificateType.
const CERTIFICATE_TYPE_AT: usize = 14;

/// The place of CertType.
const CERT_TYPE_AT: usize = 16;

/// The bytes before dwLength, which it does not count.
const BEFORE_LENGTH: usize = 8;

/// wRevision.
const REVISION: u16 = 0x0200;

/// WIN_CERT_TYPE_EFI_GUID, wCertificateType.
const CERTIFICATE_TYPE: u16 = 0x0EF1;

/// The authentication data, where it is due, and where it ends.
pub fn read_auth(image: &[u8], support: u64) -> Result<(Option<AuthParts<'_>>, usize), PartFault>
    ensures rows { Answers result (first_refusal (auth_rows image.now support)) }
    ensures end { IfOk result (λ x. x.1 ≡ auth_end image.now support) }
    ensures within { IfOk result (λ x. x.1 ≤ length image.now) }
    ensures value { IfOk result (λ x. option_map auth_seen x.0 ≡ auth_at image.now support) }
{
    if !has_authentication(support) {
        return Ok((None, 0));
    }
    let end = check_authentication(image, image.len())?;
    Ok((Some(authentication_at(image, end)), end))
}

/// Where the authentication data at the front of an image of `size` bytes ends: at its start where
/// none is due.
pub fn auth_size(front: &[u8], size: usize, support: u64) -> Result<usize, PartFault>
    requires front { AUTHENTICATION_BYTES ≤ size → AUTHENTICATION_BYTES ≤ length front.now }
    ensures rows { Answers result (first_refusal (auth_rows_of front.now size support)) }
    ensures end { IfOk result (λ n. n ≡ auth_end front.now support) }
    ensures fields { IfOk result (λ n. IsTrue (has_authentication support) → AUTHENTICATION_BYTES ≤ n) }
    ensures within { IfOk result (λ n. n ≤ size) }
{
    if !has_authentication(support) {
        return Ok(0);
    }
    check_authentication(front, size)
}

/// Where the authentication data ends, or what is wrong with it. `front` has the fields of an image
/// of `size` bytes.
fn check_authentication(front: &[u8], size: usize) -> Result<usize, PartFault>
    requires front { AUTHENTICATION_BYTES ≤ size → AUTHENTICATION_BYTES ≤ length front.now }
    ensures rows { Answers result (first_refusal (authentication_rows_of front.now size)) }
    ensures end { IfOk result (λ n. n ≡ authentication_size front.now) }
    ensures fields { IfOk result (λ n. AUTHENTICATION_BYTES ≤ n) }
    ensures within { IfOk result (λ n. n ≤ size) }
{
    if size < AUTHENTICATION_BYTES {
        return Err(PartFault::new(0, PartWhy::ShortAuth));
    }
    let end = stated_end(front);
    if end < AUTHENTICATION_BYTES || size < end {
        return Err(PartFault::new(LENGTH_AT as u32, PartWhy::BadAuthLength));
    }
    check_certificate(front)?;
    Ok(end)
}

/// Where the authentication data ends by its dwLength.
pub fn stated_end(front: &[u8]) -> usize
    requires { AUTHENTICATION_BYTES ≤ length front.now }
    ensures value { result ≡ authentication_size front.now }
    ensures bound { result < 2 ^ 33 }
{
    BEFORE_LENGTH + u32_at(front, LENGTH_AT) as usize
}

/// Whether wRevision and wCertificateType are those of WIN_CERTIFICATE_UEFI_GUID.
fn check_certificate(front: &[u8]) -> Result<(), PartFault>
    requires { AUTHENTICATION_BYTES ≤ length front.now }
    ensures { Answers result (first_refusal (certificate_rows front.now)) }
{
    if u16_at(front, REVISION_AT) != REVISION {
        return Err(PartFault::new(REVISION_AT as u32, PartWhy::BadRevision));
    }
    if u16_at(front, CERTIFICATE_TYPE_AT) != CERTIFICATE_TYPE {
        return Err(PartFault::new(CERTIFICATE_TYPE_AT as u32, PartWhy::BadCertType));
    }
    Ok(())
}

/// The authentication data that ends there.
fn authentication_at(image: &[u8], end: usize) -> AuthParts<'_>
    requires end { end ≡ authentication_size image.now }
    requires fields { AUTHENTICATION_BYTES ≤ end }
    requires within { end ≤ length image.now }
    ensures { auth_seen result ≡ authentication_at image.now }
{
    AuthParts {
        monotonic: u64_at(image, MONOTONIC_COUNT_AT),
        cert_type: guid_at(image, CERT_TYPE_AT),
        cert: &image[AUTHENTICATION_BYTES..end],
    }
}
