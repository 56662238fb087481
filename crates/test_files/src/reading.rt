//! A file on disk that is read in parts and as a whole, and a source that is read to its end.

use crate::folder::{count, make, remove};
use docstore::FileHandle;
use std::io::Read;
use std::test::Fail;
use std::{fs, io};
use store_files::{DiskFile, HostFiles, OsFile, SystemFiles, load, read_all};

const BYTES: &[u8] = b"0123456789";

// Whether a file gives these bytes from an offset on.
fn gives(rt: &HostRuntime, file: &mut DiskFile<OsFile>, offset: u64, bytes: &[u8]) -> bool {
    let end = offset.saturating_add(bytes.len() as u64);
    if end > FileHandle::len(file) {
        return false;
    }
    match file.read_bytes(rt.alloc(), offset..end) {
        Ok(read) => read.as_slice() == bytes,
        Err(_) => false,
    }
}

// Whether a file is read in parts, and no longer once it is cut off while it is open.
fn is_read(rt: &HostRuntime, path: &str) -> io::Result<bool> {
    fs::write(rt, path, BYTES)?;
    let mut file = Box::new(rt.alloc(), DiskFile::new(OsFile::open(rt, path)?)?)?;
    let is_whole = FileHandle::len(&*file) == 10
        && gives(rt, &mut file, 3, b"3456")
        && gives(rt, &mut file, 0, BYTES)
        && gives(rt, &mut file, 10, b"");
    fs::write(rt, path, b"cut".as_slice())?;
    Ok(is_whole && !gives(rt, &mut file, 3, b"3456"))
}

#[test]
fn a_file_is_read_in_parts(rt: HostRuntime) -> Result<(), Fail> {
    make(&rt, "test_files_parts")?;
    assert!(rt; is_read(&rt, "test_files_parts/a.store")?);
    Ok(remove(&rt, "test_files_parts")?)
}

#[test]
fn a_file_is_loaded_whole(rt: HostRuntime) -> Result<(), Fail> {
    make(&rt, "test_files_loaded")?;
    fs::write(&rt, "test_files_loaded/a.store", BYTES)?;
    assert!(rt; load(&rt, "test_files_loaded/a.store")?.as_slice() == BYTES);
    Ok(remove(&rt, "test_files_loaded")?)
}

/// A source that fills each buffer as long as it has bytes, and counts its reads.
#[derive(Drop)]
struct CountedSource {
    left: usize,
    reads: usize,
}

impl Read for CountedSource {
    fn read(&mut self, buf: &mut [u8]) -> io::Result<usize> {
        self.reads = self.reads.saturating_add(1);
        let filled = buf.len().min(self.left);
        self.left -= filled;
        Ok(filled)
    }
}

// Whether a source of this many bytes is read to its end by one call for each 8 KiB and at most eight more: the first
// ones have little room, and the last one finds the end.
fn is_read_quickly(rt: &HostRuntime, len: usize) -> bool {
    let mut source = CountedSource {
        left: len,
        reads: 0,
    };
    let is_whole = match read_all(rt.alloc(), &mut source) {
        Ok(bytes) => bytes.len() == len,
        Err(_) => false,
    };
    is_whole && 1 <= source.reads && source.reads <= len / 8192 + 8
}

#[test]
fn a_source_is_read_by_one_call_for_eight_kibibytes(rt: HostRuntime) {
    for len in [0usize, 1, 8191, 8192, 8193, 30000, 1048576] {
        assert!(rt; is_read_quickly(&rt, len));
    }
}

// How many files this process has open before a file is read a hundred times at once, during that, and after it.
fn open_counts(rt: &HostRuntime, path: &str) -> Result<[usize; 3], Fail> {
    let system = HostFiles::new(rt)?;
    let before = count(rt, "/proc/self/fd")?;
    let mut files = Vec::new(rt.alloc());
    for _ in 0..100 {
        files.push(system.open_to_read(path)?)?;
    }
    let during = count(rt, "/proc/self/fd")?;
    drop(files);
    Ok([before, during, count(rt, "/proc/self/fd")?])
}

#[test]
fn few_files_that_are_read_are_open_and_none_after_it(rt: HostRuntime) -> Result<(), Fail> {
    make(&rt, "test_files_few")?;
    fs::write(&rt, "test_files_few/a", BYTES)?;
    let [before, during, after] = open_counts(&rt, "test_files_few/a")?;
    assert!(rt; during.saturating_sub(before) == 64 && after == before);
    Ok(remove(&rt, "test_files_few")?)
}
