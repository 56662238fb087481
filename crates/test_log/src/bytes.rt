//! The bytes of a tail, as FORMAT.md shows them.

use log_tail::{TailView, new_tail};
use segmented_log::{Commit, LogError, SegmentedLog, TAIL};
use std::alloc::Global;
use std::test::Fail;
use store_folder::{Folder, MemFolder, ReadableFolder};

// A header whose first number is 7, a batch of `hello` and an empty record, and a batch of `log`, each after its head.
// The sums are those that CPython 3.11 computes with the hash seed 0.
const EXAMPLE: &[u8] = b"zevklog\x01\x07\0\0\0\0\0\0\0\
    \x01\x20\0\0\0\x15\xb0\x41\x4f\x5f\x0b\x45\x5e\xff\xff\xff\xff\
    \x07\0\0\0\0\0\0\0\x10\0\0\0\0\0\0\0\x0d\0\0\0\
    \x01\x15\0\0\0\x34\xd2\x20\xe5\x9a\x85\x8d\x9e\x05\0\0\0hello\0\0\0\0\
    \x01\x20\0\0\0\x7c\x4f\x1b\x1c\x4d\x34\xc6\xeb\xff\xff\xff\xff\
    \x07\0\0\0\0\0\0\0\x4f\0\0\0\0\0\0\0\x07\0\0\0\
    \x01\x0f\0\0\0\x5e\xf0\x1b\x3e\x14\x7f\x64\x35\x03\0\0\0log";

// Where the batches and their heads end.
const ENDS: [usize; 5] = [16, 53, 79, 116, 136];

type Log = SegmentedLog<MemFolder>;

// A log whose tail has these bytes.
fn open(alloc: Global, bytes: &[u8], commit: Commit) -> Result<Log, LogError> {
    let mut folder = MemFolder::new(alloc);
    folder.create(TAIL)?;
    folder.append(TAIL, bytes)?;
    SegmentedLog::open(alloc, folder, 1000, commit).map_err(|refusal| refusal.0)
}

// Makes the calls of the example.
fn write(log: &mut Log) -> Result<(), LogError> {
    log.append(b"hello")?;
    log.append(b"")?;
    log.sync()?;
    log.append(b"log")?;
    log.sync()
}

// Whether the tail after these calls has the bytes of the example.
fn is_written(alloc: Global, commit: Commit) -> Result<bool, LogError> {
    let mut log = open(alloc, &new_tail(alloc, 7)?, commit)?;
    write(&mut log)?;
    let tail = log.into_folder().read(alloc, TAIL)?;
    Ok(tail.is_some_and(|tail| tail.as_slice() == EXAMPLE))
}

#[test]
fn a_tail_has_the_bytes_of_the_example(rt: HostRuntime) -> Result<(), Fail> {
    let alloc = rt.alloc();
    assert!(rt; is_written(alloc, Commit::OneSync)? && is_written(alloc, Commit::TwoSyncs)?);
    Ok(())
}

// How many bytes of a tail are whole, and whether the others are damaged, or none if it is no tail.
fn end_of(alloc: Global, bytes: &[u8]) -> Option<(usize, bool)> {
    match TailView::new(alloc, bytes) {
        Ok(Some(view)) => Some((view.whole_len(), view.is_damaged())),
        _ => None,
    }
}

// The last of the places where a batch or a head ends that is not after this one.
fn end_before(at: usize) -> usize {
    let mut found = 16;
    for end in ENDS {
        if end <= at {
            found = end;
        }
    }
    found
}

#[test]
fn a_changed_byte_ends_the_tail_before_its_batch(rt: HostRuntime) -> Result<(), Fail> {
    let alloc = rt.alloc();
    assert!(rt; end_of(alloc, EXAMPLE) == Some((EXAMPLE.len(), false)));
    for at in 16..EXAMPLE.len() {
        let mut bytes = EXAMPLE.to_vec(alloc)?;
        if let Some(byte) = bytes.get_mut(at) {
            *byte ^= 0x10;
        }
        assert!(rt; end_of(alloc, &bytes) == Some((end_before(at), at < 79)));
    }
    Ok(())
}

#[test]
fn a_tail_that_ends_in_its_last_batch_is_not_damaged(rt: HostRuntime) -> Result<(), Fail> {
    let alloc = rt.alloc();
    for len in 16..EXAMPLE.len() {
        let bytes = EXAMPLE.get(..len).unwrap_or(&[]);
        assert!(rt; end_of(alloc, bytes) == Some((end_before(len), false)));
    }
    Ok(())
}

// Whether a view has the records of the example under their numbers.
fn is_viewed(view: &TailView<'_>) -> bool {
    view.first() == 7
        && view.get(6).is_none()
        && view.get(7) == Some(b"hello".as_slice())
        && view.get(8) == Some(b"".as_slice())
        && view.get(9) == Some(b"log".as_slice())
        && view.get(10).is_none()
}

#[test]
fn a_view_has_the_records_of_the_example(rt: HostRuntime) -> Result<(), Fail> {
    let view = TailView::new(rt.alloc(), EXAMPLE)?;
    assert!(rt; view.is_some_and(|view| is_viewed(&view)));
    Ok(())
}
