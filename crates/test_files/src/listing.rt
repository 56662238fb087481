//! What is listed and read of folders in memory.

use docstore::FileHandle;
use std::alloc::Global;
use std::io;
use std::io::ErrorKind;
use std::test::Fail;
use store_folder::{Folder, MemFolder, ReadableFolder};
use torn_folder::{Event, TornFolder};

// Writes a file in two pieces, renames another, and removes a third.
fn fill<F: Folder>(folder: &mut F) -> io::Result<()> {
    folder.create("a")?;
    folder.append("a", b"x")?;
    folder.append("a", b"yz")?;
    folder.create("b.part")?;
    folder.sync_file("b.part")?;
    folder.rename("b.part", "b")?;
    folder.create("c")?;
    folder.remove("c")?;
    folder.sync()
}

// Whether both files are listed, and no other.
fn has_two_names<F: ReadableFolder>(alloc: Global, folder: &F) -> io::Result<bool> {
    let names = folder.names(alloc)?;
    let has = |name: &str| names.iter().any(|known| known.as_str() == name);
    Ok(names.len() == 2 && has("a") && has("b"))
}

// Whether the file that was written is read, at once and in parts.
fn has_bytes<F: ReadableFolder>(alloc: Global, folder: &F) -> Result<bool, Fail> {
    let whole = folder
        .read(alloc, "a")?
        .is_some_and(|whole| whole.as_slice() == b"xyz".as_slice());
    let mut file = folder.open(alloc, "a")?;
    if file.len() != 3 {
        return Ok(false);
    }
    Ok(whole && file.read_bytes(alloc, 1..3)?.as_slice() == b"yz".as_slice())
}

// Whether a file that was removed and one that was renamed are not found.
fn has_no_other<F: ReadableFolder>(alloc: Global, folder: &F) -> io::Result<bool> {
    let is_refused = match folder.open(alloc, "c") {
        Ok(_) => false,
        Err(error) => error.kind() == ErrorKind::NotFound,
    };
    Ok(is_refused && folder.read(alloc, "c")?.is_none() && folder.read(alloc, "b.part")?.is_none())
}

// Fills a folder. Returns whether it is listed and read as it was filled.
fn is_listed_and_read<F: ReadableFolder>(alloc: Global, folder: &mut F) -> Result<bool, Fail> {
    fill(folder)?;
    Ok(has_two_names(alloc, folder)? && has_bytes(alloc, folder)? && has_no_other(alloc, folder)?)
}

#[test]
fn a_folder_that_keeps_everything_is_listed_and_read(rt: HostRuntime) -> Result<(), Fail> {
    let alloc = rt.alloc();
    assert!(rt; is_listed_and_read(alloc, &mut MemFolder::new(alloc))?);
    Ok(())
}

#[test]
fn a_folder_that_tears_is_listed_and_read(rt: HostRuntime) -> Result<(), Fail> {
    let alloc = rt.alloc();
    let mut folder = TornFolder::new(alloc);
    assert!(rt; is_listed_and_read(alloc, &mut folder)?);
    assert!(rt; folder.events().len() == 9 && matches!(folder.events()[8], Event::FolderSynced));
    Ok(())
}
