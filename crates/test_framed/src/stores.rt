//! What commands make of a store of a system in memory, each in a process of its own.

use crate::MemInputs;
use crate::tests::FILES;
use document_framing::{DocumentForm, Framing};
use program_base::output_path::OutputPath;
use program_base::progress::Progress;
use program_base::store_file::StorePath;
use program_base::store_output::OutputPlace;
use program_stores::append::append;
use program_stores::cat::Printing;
use program_stores::export::export;
use program_stores::get::print_named;
use program_stores::merge::{Merging, merge};
use program_stores::pack::{PackingOptions, pack};
use std::test::Fail;
use store_commands::StoreShape;
use system_model::MemSystem;

// The store of the three lines of a file.
const STORE: StorePath<'static> = StorePath {
    path: "folder/a.store",
    is_tantivy: false,
};

type Place = Box<OutputPlace<MemSystem>>;

fn inputs() -> MemInputs<'static> {
    MemInputs {
        files: FILES,
        standard: b"",
    }
}

// A new file of this path.
fn output(path: &str) -> OutputPath<'_> {
    OutputPath {
        path,
        replaces: false,
    }
}

// How this number of lines is packed.
fn lines(expected: u64) -> PackingOptions {
    PackingOptions {
        framing: Framing::Lines,
        expected: Some(expected),
        is_quiet: true,
    }
}

// The system in which the store was packed; nothing where that fails, here and below.
fn packed(rt: &HostRuntime) -> Option<Place> {
    let system = MemSystem::new(rt.alloc(), "folder").ok()?;
    let (output, shape) = (output(STORE.path), StoreShape::new(16, 2)?);
    pack(rt, system, inputs(), output, shape, &["lines"], lines(3)).ok()
}

// The same, as another process finds it.
fn found(rt: &HostRuntime) -> Option<MemSystem> {
    packed(rt)?.folder.system().again().ok()
}

// What `get` prints by these words of the store, each document under its number.
fn given(rt: &HostRuntime, words: &[&str]) -> Option<Vec<u8>> {
    let place = packed(rt)?;
    let form = DocumentForm::Numbered(Framing::Lines);
    let mut out = Vec::new(rt.alloc());
    print_named(
        rt.alloc(),
        place.folder.system(),
        STORE,
        form,
        words,
        &mut out,
    )
    .ok()?;
    Some(out)
}

#[test]
fn words_name_documents_in_their_order(rt: HostRuntime) -> Result<(), Fail> {
    let out = given(&rt, &["2", "..1", "0..2"]);
    assert!(rt; out == Some(b"2\tthree is long\n0\tone\n0\tone\n1\t\n".to_vec(rt.alloc())?));
    assert!(rt; given(&rt, &["2..4"]).is_none() && given(&rt, &["x"]).is_none());
    Ok(())
}

// What `cat` prints of a store that was published.
fn printed(rt: &HostRuntime, place: Option<Place>, store: StorePath<'_>) -> Option<Vec<u8>> {
    let place = place?;
    let printing = Printing {
        form: DocumentForm::Framed(Framing::Lines),
        without: &[],
        keeps_going: false,
    };
    let mut out = Vec::new(rt.alloc());
    let _damaged = printing
        .print(rt.alloc(), place.folder.system(), store, &mut out)
        .ok()?;
    Some(out)
}

// A line is appended to the store.
fn appended(rt: &HostRuntime) -> Option<Place> {
    append(
        rt,
        found(rt)?,
        inputs(),
        STORE.path,
        16,
        &["four"],
        lines(1),
    )
    .ok()
}

#[test]
fn a_line_is_appended_to_a_store(rt: HostRuntime) -> Result<(), Fail> {
    let out = printed(&rt, appended(&rt), STORE);
    assert!(rt; out == Some(b"one\n\nthree is long\nfour\n".to_vec(rt.alloc())?));
    Ok(())
}

// The store is merged with itself into a new one.
fn merged(rt: &HostRuntime, path: &str) -> Option<Place> {
    let merging = Merging {
        paths: &[STORE.path, STORE.path],
        without: &[],
        is_tantivy: false,
    };
    let (shape, progress) = (StoreShape::new(16, 2)?, Progress::begin(rt, true, None));
    merge(rt, found(rt)?, output(path), shape, merging, progress).ok()
}

#[test]
fn a_store_is_merged_with_itself(rt: HostRuntime) -> Result<(), Fail> {
    let (path, is_tantivy) = ("folder/b.store", false);
    let out = printed(&rt, merged(&rt, path), StorePath { path, is_tantivy });
    let lines = b"one\n\nthree is long\none\n\nthree is long\n";
    assert!(rt; out == Some(lines.to_vec(rt.alloc())?));
    Ok(())
}

// The store is written as a file that tantivy opens.
fn exported(rt: &HostRuntime, path: &str) -> Option<Place> {
    let progress = Progress::begin(rt, true, None);
    export(rt, found(rt)?, STORE, output(path), &progress).ok()
}

#[test]
fn a_store_is_exported_and_printed(rt: HostRuntime) -> Result<(), Fail> {
    let (path, is_tantivy) = ("folder/t.store", false);
    let out = printed(&rt, exported(&rt, path), StorePath { path, is_tantivy });
    assert!(rt; out == Some(b"one\n\nthree is long\n".to_vec(rt.alloc())?));
    Ok(())
}
