//! Outputs on disk: when they take their names.

use crate::folder::{count, holds, make, remove};
use docstore::TerminatingWrite;
use std::fs;
use std::test::Fail;
use store_files::{CreateError, DiskSink, HostFiles};

const OLD: &[u8] = b"old";

const WHOLE: &[u8] = b"0123456789";

type Sink = Box<DiskSink<HostFiles>>;

// Begins an output.
fn begun(rt: &HostRuntime, path: &str) -> Result<Sink, Fail> {
    Ok(Box::new(
        rt.alloc(),
        DiskSink::create(rt.alloc(), HostFiles::new(rt)?, path)?,
    )?)
}

// Whether an output leaves the old file until its end, and takes its name then.
fn takes_its_name(rt: &HostRuntime, path: &str) -> Result<bool, Fail> {
    fs::write(rt, path, OLD)?;
    let mut sink = begun(rt, path)?;
    sink.write_all(WHOLE)?;
    let was_old = holds(rt, path, OLD)?;
    sink.terminate()?;
    Ok(was_old && holds(rt, path, WHOLE)?)
}

#[test]
fn an_output_takes_its_name_at_the_end(rt: HostRuntime) -> Result<(), Fail> {
    make(&rt, "test_files_named")?;
    assert!(rt; takes_its_name(&rt, "test_files_named/a.store")?);
    assert!(rt; count(&rt, "test_files_named")? == 1);
    Ok(remove(&rt, "test_files_named")?)
}

// Ends an output, begins the next one of its name, and drops the first. Returns whether the next one ends.
fn is_followed(rt: &HostRuntime, path: &str) -> Result<bool, Fail> {
    let mut first = begun(rt, path)?;
    first.write_all(OLD)?;
    first.terminate()?;
    let mut next = begun(rt, path)?;
    drop(first);
    Ok(next.write_all(WHOLE).is_ok() && next.terminate().is_ok())
}

#[test]
fn an_output_that_has_its_name_leaves_the_next_one_alone(rt: HostRuntime) -> Result<(), Fail> {
    let path = "test_files_next/a.store";
    make(&rt, "test_files_next")?;
    assert!(rt; is_followed(&rt, path)? && holds(&rt, path, WHOLE)?);
    assert!(rt; count(&rt, "test_files_next")? == 1);
    Ok(remove(&rt, "test_files_next")?)
}

// Begins an output that may replace no file.
fn begun_new(rt: &HostRuntime, path: &str) -> Result<Sink, Fail> {
    Ok(Box::new(
        rt.alloc(),
        DiskSink::create_new(rt.alloc(), HostFiles::new(rt)?, path)?,
    )?)
}

// Whether a new output is refused where a file has the name, and leaves the file.
fn new_is_refused(rt: &HostRuntime, path: &str) -> Result<bool, Fail> {
    fs::write(rt, path, OLD)?;
    let is_refused = match DiskSink::create_new(rt.alloc(), HostFiles::new(rt)?, path) {
        Err(CreateError::Exists) => true,
        _ => false,
    };
    Ok(is_refused && holds(rt, path, OLD)?)
}

// Whether a new output takes a name that is free, and leaves a file that came to it meanwhile.
fn new_leaves_a_late_file(rt: &HostRuntime, path: &str, is_late: bool) -> Result<bool, Fail> {
    let mut sink = begun_new(rt, path)?;
    sink.write_all(WHOLE)?;
    if is_late {
        fs::write(rt, path, OLD)?;
    }
    let has_ended = sink.terminate().is_ok();
    drop(sink);
    Ok(has_ended != is_late && holds(rt, path, if is_late { OLD } else { WHOLE })?)
}

#[test]
fn a_new_output_replaces_no_file(rt: HostRuntime) -> Result<(), Fail> {
    make(&rt, "test_files_new")?;
    assert!(rt; new_is_refused(&rt, "test_files_new/a.store")?);
    assert!(rt; new_leaves_a_late_file(&rt, "test_files_new/b.store", false)?);
    assert!(rt; new_leaves_a_late_file(&rt, "test_files_new/c.store", true)?);
    assert!(rt; count(&rt, "test_files_new")? == 3);
    Ok(remove(&rt, "test_files_new")?)
}
