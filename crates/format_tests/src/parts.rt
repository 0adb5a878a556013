//! Images written by hand from the tables of UEFI 2.10, 23.1 and 23.2 and of EDK II's payload
//! header, and admission by digests that another program computed. Which images are refused is shown
//! by runs of the built program.

use crate::texts::expect_text;
use cu_base::{Blob, Digest, Guid};
use dep_code::DepWhy;
use image_parts::{
    AuthParts, PartFault, PartRefusal, PartWhy, Parts, PayloadHead, is_admitted, split,
};
use std::alloc::Global;
use std::process::Abort;
use std::test::Fail;

const TYPE: Guid = Guid {
    bytes: [
        0x9d, 0xd2, 0xaf, 0x4a, 0xdf, 0x68, 0xee, 0x49, 0x8a, 0xa9, 0x34, 0x7d, 0x37, 0x56, 0x65,
        0xa7,
    ],
};

/// MonotonicCount 7 and a certificate of three bytes.
const AUTH: [u8; 35] = [
    7, 0, 0, 0, 0, 0, 0, 0, 27, 0, 0, 0, 0, 2, 0xf1, 0x0e, 0x9d, 0xd2, 0xaf, 0x4a, 0xdf, 0x68,
    0xee, 0x49, 0x8a, 0xa9, 0x34, 0x7d, 0x37, 0x56, 0x65, 0xa7, 0xc1, 0xc2, 0xc3,
];

/// PUSH_VERSION 7, PUSH_GUID, GTE, END.
const SECTION: [u8; 24] = [
    1, 7, 0, 0, 0, 0, 0xbb, 0xbb, 0xbb, 0xbb, 0, 0, 0, 0, 0, 0, 0, 0, 0, 0, 0, 2, 0x0a, 0x0d,
];

/// FwVersion 4, LowestSupportedVersion 3, and the payload `PQ`.
const PLAIN: [u8; 18] = [
    0x4d, 0x53, 0x53, 0x31, 16, 0, 0, 0, 4, 0, 0, 0, 3, 0, 0, 0, 0x50, 0x51,
];

/// The same with four bytes more in the payload header.
const WITH_EXTRA: [u8; 22] = [
    0x4d, 0x53, 0x53, 0x31, 20, 0, 0, 0, 4, 0, 0, 0, 3, 0, 0, 0, 0xe1, 0xe2, 0xe3, 0xe4, 0x50, 0x51,
];

/// The SHA-256 of `PLAIN`.
const DIGEST_OF_PLAIN: Digest = Digest {
    bytes: [
        0x8b, 0x97, 0x91, 0xe1, 0xfa, 0x66, 0x75, 0xc2, 0x95, 0xe4, 0xf7, 0x92, 0xe6, 0x24, 0xdb,
        0xc9, 0x14, 0x55, 0x0d, 0xb4, 0xb0, 0x56, 0xc2, 0xf9, 0x16, 0x61, 0xb1, 0x9d, 0xfc, 0xbd,
        0x2d, 0x04,
    ],
};

/// The SHA-256 of `PQ`.
const DIGEST_OF_PAYLOAD: Digest = Digest {
    bytes: [
        0x86, 0xfa, 0x5a, 0x5b, 0x7a, 0x83, 0x3a, 0xe8, 0x0e, 0xb7, 0x2a, 0x99, 0x37, 0x43, 0x56,
        0x00, 0x85, 0x35, 0x95, 0xe7, 0x56, 0xed, 0xc0, 0xeb, 0xe8, 0xfb, 0x5d, 0x25, 0x10, 0xc6,
        0xbf, 0xa6,
    ],
};

/// The parts of an image of payload `PQ`, FwVersion 4 and LowestSupportedVersion 3.
fn parts<'a>(
    auth: Option<AuthParts<'a>>,
    dep: Option<&'a [u8]>,
    header_size: u32,
    extra: &'a [u8],
) -> Parts<'a> {
    Parts {
        auth,
        dep,
        head: PayloadHead {
            header_size,
            version: 4,
            lowest: 3,
        },
        extra,
        payload: b"PQ",
    }
}

/// The authentication data of `AUTH`.
fn auth<'a>() -> AuthParts<'a> {
    AuthParts {
        monotonic: 7,
        cert_type: TYPE,
        cert: &[0xc1, 0xc2, 0xc3],
    }
}

fn accepted(rt: &impl Abort, alloc: Global, image: &[u8], support: u64, parts: Parts<'_>) {
    assert!(rt; image.len() < 0x1_0000_0000);
    match split(alloc, image, support) {
        Ok(found) => assert!(rt; found == parts),
        Err(refusal) => panic!(rt; "{refusal}"),
    }
}

#[test]
fn a_plain_image(rt: HostRuntime) {
    let alloc = rt.alloc();
    let plain = parts(None, None, 16, &[]);
    accepted(&rt, alloc, &PLAIN, 0, plain);
    accepted(&rt, alloc, &PLAIN, 0xffff_ffff_ffff_fffc, plain);
    let with_extra = parts(None, None, 20, &[0xe1, 0xe2, 0xe3, 0xe4]);
    accepted(&rt, alloc, &WITH_EXTRA, 0, with_extra);
}

/// Pieces one behind another.
fn joined(alloc: Global, pieces: &[&[u8]]) -> Result<Blob, Fail> {
    let mut bytes = Blob::new(alloc);
    for piece in pieces {
        bytes.push_slice(piece)?;
    }
    Ok(bytes)
}

#[test]
fn images_with_authentication_and_sections(rt: HostRuntime) -> Result<(), Fail> {
    let alloc = rt.alloc();
    let signed = joined(alloc, &[&AUTH, &PLAIN])?;
    accepted(
        &rt,
        alloc,
        signed.as_slice(),
        1,
        parts(Some(auth()), None, 16, &[]),
    );
    let depends = joined(alloc, &[&SECTION, &PLAIN])?;
    accepted(
        &rt,
        alloc,
        depends.as_slice(),
        2,
        parts(None, Some(&SECTION), 16, &[]),
    );
    let both = joined(alloc, &[&AUTH, &SECTION, &WITH_EXTRA])?;
    let extra = [0xe1, 0xe2, 0xe3, 0xe4];
    accepted(
        &rt,
        alloc,
        both.as_slice(),
        3,
        parts(Some(auth()), Some(&SECTION), 20, &extra),
    );
    Ok(())
}

#[test]
fn the_digest_of_the_whole_image_admits_it(rt: HostRuntime) {
    assert!(rt; is_admitted(&[DIGEST_OF_PLAIN], &PLAIN));
    assert!(rt; is_admitted(&[DIGEST_OF_PAYLOAD, DIGEST_OF_PLAIN], &PLAIN));
    assert!(rt; !is_admitted(&[DIGEST_OF_PAYLOAD], &PLAIN));
    assert!(rt; is_admitted(&[DIGEST_OF_PAYLOAD], &PLAIN[16..]));
    assert!(rt; !is_admitted(&[], &PLAIN));
}

#[test]
fn causes_have_a_text(rt: HostRuntime) -> Result<(), Fail> {
    let cases = [
        (
            PartWhy::ShortAuth,
            "the image ends before the fields of its authentication data do",
        ),
        (
            PartWhy::BadRevision,
            "wRevision of the certificate is not 0x0200",
        ),
        (
            PartWhy::BadCertType,
            "wCertificateType of the certificate is not 0x0EF1",
        ),
        (
            PartWhy::BadAuthLength,
            "dwLength of the certificate is below 24 or passes the end of the image",
        ),
        (
            PartWhy::Dep(DepWhy::NoEnd),
            "dependency section: the bytes end before the operation END",
        ),
        (
            PartWhy::ShortPayloadHeader,
            "the image ends before the fields of its payload header do",
        ),
        (
            PartWhy::BadSignature,
            "the signature of the payload header is not MSS1",
        ),
        (
            PartWhy::BadPayloadHeaderSize,
            "HeaderSize of the payload header is below 16 or passes the end of the image",
        ),
    ];
    for (why, text) in cases {
        expect_text(&rt, &why, text)?;
    }
    Ok(())
}

#[test]
fn refusals_have_a_text(rt: HostRuntime) -> Result<(), Fail> {
    let refusal = PartRefusal::Part(PartFault {
        at: 35,
        why: PartWhy::BadSignature,
    });
    expect_text(
        &rt,
        &refusal,
        "refused at 35: the signature of the payload header is not MSS1",
    )?;
    expect_text(&rt, &PartRefusal::Memory, "out of memory")?;
    Ok(())
}
