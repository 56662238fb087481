//! Outputs that are written in folders in memory.

ghost use Rattle.std.specs.Prelude.{◌≡◌, [], IfOk};

use docstore::TerminatingWrite;
use std::alloc::Global;
use std::io;
use std::test::Fail;
use store_folder::{Folder, MemFolder, Publication, ReadableFolder, replace};
use torn_folder::TornFolder;

// A folder with one file.
fn with_file(alloc: Global, name: &str, bytes: &[u8]) -> io::Result<MemFolder> {
    let mut folder = MemFolder::new(alloc);
    folder.create(name)?;
    folder.append(name, bytes)?;
    Ok(folder)
}

// Whether the file of this name has these bytes.
fn holds(alloc: Global, folder: &MemFolder, name: &str, bytes: &[u8]) -> io::Result<bool> {
    Ok(
        folder
            .read(alloc, name)?
            .is_some_and(|found| found.as_slice() == bytes),
    )
}

// Whether the file `a` has these bytes, and there is none beside it.
fn has_whole(alloc: Global, folder: &MemFolder, bytes: &[u8]) -> io::Result<bool> {
    Ok(holds(alloc, folder, "a", bytes)? && folder.read(alloc, "a.part")?.is_none())
}

// Begins an output `a`, of nothing yet.
fn begun<F: Folder>(alloc: Global, folder: F) -> io::Result<Publication<F>>
    ensures { IfOk result (λ output. output.content ≡ []) }
{
    match Publication::create(alloc, folder, "a") {
        Ok(output) => Ok(output),
        Err(_) => Err(io::ErrorKind::Other.into()),
    }
}

// Whether an output of `a` leaves the old file until its end, takes its name then, and takes no call after it. A file
// that a crash left beside its name is taken over.
fn takes_its_name(alloc: Global) -> Result<bool, Fail> {
    let mut folder = with_file(alloc, "a.part", b"torn")?;
    replace(&mut folder, "b.part", "a", b"old")?;
    let mut output = begun(alloc, folder)?;
    output.write_all(b"ne")?;
    output.write_all(b"w")?;
    let was_old = holds(alloc, output.folder(), "a", b"old")?;
    output.terminate()?;
    let is_ended = output.write_all(b"more").is_err() && output.terminate().is_err();
    Ok(was_old && is_ended && has_whole(alloc, output.folder(), b"new")?)
}

// Whether an output ends in a folder that tears.
fn ends_in_a_folder_that_tears(alloc: Global) -> Result<bool, Fail> {
    let mut output = begun(alloc, TornFolder::new(alloc))?;
    output.write_all(b"new")?;
    output.terminate()?;
    Ok(output.write_all(b"more").is_err())
}

#[test]
fn an_output_takes_its_name_at_the_end(rt: HostRuntime) -> Result<(), Fail> {
    assert!(rt; takes_its_name(rt.alloc())? && ends_in_a_folder_that_tears(rt.alloc())?);
    Ok(())
}
