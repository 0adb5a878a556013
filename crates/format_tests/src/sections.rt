//! Sections written by hand from the table of operations: what they compute, and one call with ample
//! memory of each function that may want memory. Which are refused is shown by runs of the built
//! program.

use crate::texts::expect_text;
use cu_base::{Blob, Guid};
use dep_code::{
    CompareKind, Compared, DepFault, DepRefusal, DepTree, DepWhy, Op, Ops, Versions, eval,
    read_ops, tree_of, write_ops,
};
use std::alloc::Global;
use std::process::Abort;
use std::test::Fail;

const X: Guid = Guid {
    bytes: [0xaa, 0xaa, 0xaa, 0xaa, 0, 0, 0, 0, 0, 0, 0, 0, 0, 0, 0, 1],
};

const Y: Guid = Guid {
    bytes: [0xaa, 0xaa, 0xaa, 0xaa, 0, 0, 0, 0, 0, 0, 0, 0, 0, 0, 0, 2],
};

/// PUSH_VERSION 5, PUSH_GUID X, GTE, END.
const AT_LEAST_5: [u8; 24] = [
    1, 5, 0, 0, 0, 0, 0xaa, 0xaa, 0xaa, 0xaa, 0, 0, 0, 0, 0, 0, 0, 0, 0, 0, 0, 1, 0x0a, 0x0d,
];

/// PUSH_GUID X, PUSH_VERSION 1, EQ, NOT, END.
const NOT_1: [u8; 25] = [
    0, 0xaa, 0xaa, 0xaa, 0xaa, 0, 0, 0, 0, 0, 0, 0, 0, 0, 0, 0, 1, 1, 1, 0, 0, 0, 8, 5, 0x0d,
];

/// The section at the front, which is accepted with this length.
fn accepted(rt: &impl Abort, alloc: Global, bytes: &[u8], size: usize) -> Ops {
    match read_ops(alloc, bytes) {
        Ok((ops, length)) => {
            assert_eq!(rt; length, size);
            ops
        }
        Err(refusal) => panic!(rt; "{refusal}"),
    }
}

/// A list with these pairs.
fn versions(alloc: Global, pairs: &[(Guid, u32)]) -> Result<Versions, Fail> {
    let mut list = Versions::new(alloc);
    for pair in pairs {
        list.push((pair.0, pair.1))?;
    }
    Ok(list)
}

#[test]
fn a_version_is_at_least_another(rt: HostRuntime) -> Result<(), Fail> {
    let alloc = rt.alloc();
    let ops = accepted(&rt, alloc, &AT_LEAST_5, 24);
    for (version, answer) in [(4u32, false), (5, true), (6, true)] {
        let list = versions(alloc, &[(X, version)])?;
        assert_eq!(rt; eval(alloc, &ops, &list)?, answer, "{version}");
    }
    Ok(())
}

#[test]
fn a_missing_guid_fails_whatever_the_tree_says(rt: HostRuntime) -> Result<(), Fail> {
    let alloc = rt.alloc();
    let ops = accepted(&rt, alloc, &NOT_1, 25);
    let none = versions(alloc, &[])?;
    assert!(rt; !eval(alloc, &ops, &none)?);
    let other = versions(alloc, &[(Y, 7)])?;
    assert!(rt; !eval(alloc, &ops, &other)?);
    let there = versions(alloc, &[(Y, 7), (X, 7)])?;
    assert!(rt; eval(alloc, &ops, &there)?);
    Ok(())
}

#[test]
fn a_guid_has_the_version_of_its_first_pair(rt: HostRuntime) -> Result<(), Fail> {
    let alloc = rt.alloc();
    let ops = accepted(&rt, alloc, &AT_LEAST_5, 24);
    let low_first = versions(alloc, &[(Y, 9), (X, 4), (X, 6)])?;
    assert!(rt; !eval(alloc, &ops, &low_first)?);
    let high_first = versions(alloc, &[(X, 6), (X, 4)])?;
    assert!(rt; eval(alloc, &ops, &high_first)?);
    Ok(())
}

#[test]
fn each_operation_computes(rt: HostRuntime) -> Result<(), Fail> {
    let alloc = rt.alloc();
    let none = versions(alloc, &[])?;
    let cases: [(&[u8], bool); 10] = [
        (&[0x06, 0x0d], true),
        (&[0x07, 0x0d], false),
        (&[0x07, 0x05, 0x0d], true),
        (&[0x06, 0x07, 0x03, 0x0d], false),
        (&[0x06, 0x07, 0x04, 0x0d], true),
        (&[1, 1, 0, 0, 0, 1, 2, 0, 0, 0, 0x09, 0x0d], true),
        (&[1, 1, 0, 0, 0, 1, 2, 0, 0, 0, 0x0b, 0x0d], false),
        (&[1, 2, 0, 0, 0, 1, 2, 0, 0, 0, 0x0c, 0x0d], true),
        (&[1, 2, 0, 0, 0, 1, 0, 2, 0, 0, 0x08, 0x0d], false),
        (&[2, 0x61, 0x62, 0, 0x06, 0x0d], true),
    ];
    for (bytes, answer) in cases {
        let ops = accepted(&rt, alloc, bytes, bytes.len());
        assert_eq!(rt; eval(alloc, &ops, &none)?, answer, "{bytes:?}");
    }
    Ok(())
}

#[test]
fn a_section_is_written_again_and_has_its_tree(rt: HostRuntime) -> Result<(), Fail> {
    let alloc = rt.alloc();
    let ops = accepted(&rt, alloc, &AT_LEAST_5, 24);
    let written = write_ops(alloc, &ops)?;
    assert!(rt; written.as_slice() == AT_LEAST_5.as_slice());
    match tree_of(alloc, &ops)? {
        DepTree::Compare(kind, left, right) => {
            assert_eq!(rt; kind, CompareKind::Gte);
            assert_eq!(rt; left, Compared::Guid(X));
            assert_eq!(rt; right, Compared::Version(5));
        }
        _ => panic!(rt; "another tree"),
    }
    Ok(())
}

#[test]
fn operations_have_their_places(rt: HostRuntime) {
    let ops = accepted(&rt, rt.alloc(), &[2, 0x61, 0, 0x07, 0x05, 0x0d], 6);
    let mut places = [9u32; 4];
    for (k, item) in ops.as_slice().iter().enumerate() {
        if k < 4 {
            places[k] = item.0;
        }
    }
    assert_eq!(rt; places, [0, 3, 4, 5]);
    match ops.as_slice().get(0) {
        Some((_, Op::VersionStr(text))) => assert!(rt; text.as_slice() == b"a".as_slice()),
        _ => panic!(rt; "another operation"),
    }
}

#[test]
fn the_deepest_tree_is_built_and_computed(rt: HostRuntime) -> Result<(), Fail> {
    let alloc = rt.alloc();
    let mut bytes = Blob::from_slice(alloc, &[0x07])?;
    for _ in 0..4093 {
        bytes.push_slice(&[0x05])?;
    }
    bytes.push_slice(&[0x0d])?;
    let ops = accepted(&rt, alloc, bytes.as_slice(), 4095);
    let none = versions(alloc, &[])?;
    assert!(rt; eval(alloc, &ops, &none)?);
    let tree = tree_of(alloc, &ops)?;
    assert!(rt; matches!(tree, DepTree::Not(_)));
    Ok(())
}

#[test]
fn causes_have_a_text(rt: HostRuntime) -> Result<(), Fail> {
    let cases = [
        (DepWhy::NoEnd, "the bytes end before the operation END"),
        (DepWhy::BadOpcode, "there is no operation of this byte"),
        (DepWhy::CutOperand, "the bytes end before the operand does"),
        (
            DepWhy::LateDeclare,
            "DECLARE_LENGTH stands behind another operation",
        ),
        (
            DepWhy::WrongDeclare,
            "the declared length is not that of the section",
        ),
        (
            DepWhy::BadTypes,
            "an operand of the operation is missing or of the other type",
        ),
        (
            DepWhy::NotOneBool,
            "the section does not leave exactly one truth value",
        ),
        (DepWhy::TooLong, "the section is longer than 4096 bytes"),
    ];
    for (why, text) in cases {
        expect_text(&rt, &why, text)?;
    }
    Ok(())
}

#[test]
fn refusals_have_a_text(rt: HostRuntime) -> Result<(), Fail> {
    let refusal = DepRefusal::Dep(DepFault {
        at: 6,
        why: DepWhy::BadOpcode,
    });
    expect_text(
        &rt,
        &refusal,
        "refused at 6: there is no operation of this byte",
    )?;
    expect_text(&rt, &DepRefusal::Memory, "out of memory")?;
    Ok(())
}
