//! What comes out of what goes in, with bytes from outside.

use crate::{MemInputs, passed};
use document_framing::Framing;
use std::test::Fail;
use store_commands::StoreShape;

/// The files of the tests.
pub(crate) const FILES: &[(&str, &[u8])] = &[
    ("lines", b"one\n\nthree is long"),
    ("none", b""),
    ("four", b"four\n"),
    ("nul", b"a\nb\0\0c"),
    ("lengths", b"\x03\0\0\0abc\0\0\0\0\x01\0\0\0\n"),
    ("cut", b"\x03\0\0\0ab"),
];

// What is printed of these inputs, in blocks of a few documents; nothing where that fails.
fn printed(rt: &HostRuntime, framing: Framing, paths: &[&str]) -> Option<Vec<u8>> {
    let inputs = MemInputs {
        files: FILES,
        standard: b"read\nlast",
    };
    passed(rt, framing, StoreShape::new(16, 2)?, inputs, paths).ok()
}

#[test]
fn lines_come_back_with_an_end_each(rt: HostRuntime) -> Result<(), Fail> {
    let out = printed(&rt, Framing::Lines, &["lines", "none", "four"]);
    assert!(rt; out == Some(b"one\n\nthree is long\nfour\n".to_vec(rt.alloc())?));
    Ok(())
}

#[test]
fn text_comes_back_as_it_was(rt: HostRuntime) -> Result<(), Fail> {
    let out = printed(&rt, Framing::Text, &["four", "lines"]);
    assert!(rt; out == Some(b"four\none\n\nthree is long".to_vec(rt.alloc())?));
    Ok(())
}

#[test]
fn bytes_zero_end_documents(rt: HostRuntime) -> Result<(), Fail> {
    let out = printed(&rt, Framing::Nul, &["nul"]);
    assert!(rt; out == Some(b"a\nb\0\0c\0".to_vec(rt.alloc())?));
    Ok(())
}

#[test]
fn lengths_come_first(rt: HostRuntime) -> Result<(), Fail> {
    let out = printed(&rt, Framing::Lengths, &["lengths"]);
    assert!(rt; out == Some(b"\x03\0\0\0abc\0\0\0\0\x01\0\0\0\n".to_vec(rt.alloc())?));
    assert!(rt; printed(&rt, Framing::Lengths, &["cut"]).is_none());
    Ok(())
}

#[test]
fn files_are_documents(rt: HostRuntime) -> Result<(), Fail> {
    let out = printed(&rt, Framing::Files, &["four", "none", "lines"]);
    assert!(rt; out == Some(b"four\none\n\nthree is long".to_vec(rt.alloc())?));
    Ok(())
}

#[test]
fn the_standard_input_is_read_once(rt: HostRuntime) -> Result<(), Fail> {
    let out = printed(&rt, Framing::Lines, &["-", "four", "-"]);
    assert!(rt; out == Some(b"read\nlast\nfour\n".to_vec(rt.alloc())?));
    assert!(rt; printed(&rt, Framing::Lines, &["missing"]).is_none());
    Ok(())
}
