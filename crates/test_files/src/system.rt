//! A system in memory: each of its calls, and a store that is published in a folder of it.

ghost use Rattle.std.specs.Prelude.{◌≡◌, ℕ, List, []};
ghost use Rattle.system_model.specs.System.{changes_in};

use std::alloc::Global;
use std::fs::TryLockError;
use std::io;
use std::io::ErrorKind;
use std::rc::Rc;
use std::test::Fail;
use store_files::{DiskFolder, SystemFiles};
use store_folder::{Folder, ReadableFolder};
use store_published::{DocumentList, publish_store};
use system_model::MemSystem;

// A system that has the folder f.
fn system(alloc: Global) -> Result<Box<MemSystem>, Fail> {
    Ok(Box::new(alloc, MemSystem::new(alloc, "f")?)?)
}

// Makes a file, writes and syncs it, and gives it its name.
fn write(system: &mut MemSystem) -> io::Result<()> {
    system.create("f/a.part")?;
    let mut file = system.open_to_append("f/a.part")?;
    system.write(&mut file, b"abc")?;
    system.cut(&file, 3)?;
    system.sync_file(&file)?;
    system.rename("f/a.part", "f/a")?;
    let folder = system.open_folder("f")?;
    system.sync_folder(&folder)
}

// Whether that file is listed, found and read.
fn is_written(alloc: Global, system: &MemSystem) -> io::Result<bool> {
    let file = system.open("f/a")?;
    let names = system.names(alloc, "f")?;
    let is_found = system.find("f/a")?.is_some() && system.has_path(&file, "f/a")?;
    let is_listed = names.len() == 1 && names[0].as_str() == "a";
    let is_read = system.len(&file)? == 3
        && system.open_to_read("f/a")?.as_slice() == b"abc".as_slice();
    Ok(is_found && is_listed && is_read)
}

// Whether a file is made only where there is none, and is gone once it is removed.
fn makes_and_removes(alloc: Global, system: &mut MemSystem) -> io::Result<bool> {
    let file = system.create_new("f/b", 0o600)?;
    let is_refused = system.create_new("f/b", 0o600).is_err();
    system.set_mode("f/b", 0o644)?;
    system.set_owner("f/b", None, Some(0))?;
    let has_path = system.real_path(alloc, "f/b")?.as_str() == "f/b";
    system.remove("f/b")?;
    Ok(is_refused && has_path && !system.has_path(&file, "f/b")? && system.find("f/b")?.is_none())
}

#[test]
fn each_call_of_a_system_in_memory_succeeds(rt: HostRuntime) -> Result<(), Fail> {
    let mut system = system(rt.alloc())?;
    write(&mut system)?;
    assert!(rt; is_written(rt.alloc(), &system)?);
    assert!(rt; makes_and_removes(rt.alloc(), &mut system)?);
    assert!(rt; system.make_folder("g").is_ok() && system.make_folder("f").is_err());
    Ok(())
}

#[test]
fn a_lock_of_a_system_in_memory_is_given_once(rt: HostRuntime) -> Result<(), Fail> {
    let system = system(rt.alloc())?;
    let lock = system.open_lock("f/lock")?;
    assert!(rt; system.try_lock(&lock).is_ok());
    assert!(rt; matches!(system.try_lock(&lock), Err(TryLockError::WouldBlock)));
    assert!(rt; system.find_mark(rt.alloc(), &lock, "f/lock", "f").is_ok());
    Ok(())
}

// Publishes a store in a folder of a system in memory, and returns whether it is there, and nothing beside it.
fn is_published(alloc: Global) -> Result<bool, Fail> {
    let system = MemSystem::new(alloc, "f")?;
    let (folder, name) = DiskFolder::of_file(alloc, system, "f/a.store")?;
    let mut folder = Box::new(alloc, folder)?;
    let mut documents = Vec::new(alloc);
    documents.push(b"abc".to_vec(alloc)?)?;
    let mut filling = DocumentList {
        documents: &documents,
    };
    let Ok(written) = publish_store(alloc, &mut *folder, name.as_str(), 16384, 8, &mut filling)
    else {
        return Ok(false);
    };
    let found = folder.read(alloc, "a.store")?;
    Ok(
        found.is_some_and(|bytes| bytes.len() as u64 == written.bytes)
            && folder.read(alloc, "a.store.part")?.is_none(),
    )
}

#[test]
fn a_store_is_published_in_a_folder_of_a_system_in_memory(rt: HostRuntime) -> Result<(), Fail> {
    assert!(rt; is_published(rt.alloc())?);
    Ok(())
}

// Whether a folder is changed by its writer, and not by one that only reads it.
fn is_changed_by_its_writer(alloc: Global) -> Result<bool, Fail> {
    let written = DiskFolder::open(alloc, MemSystem::new(alloc, "f")?, "f")?;
    let mut written = Box::new(alloc, written)?;
    written.create("a")?;
    let read = DiskFolder::open_to_read(alloc, MemSystem::new(alloc, "f")?, "f")?;
    let mut read = Box::new(alloc, read)?;
    let is_refused = read.create("a").is_err() && read.is_read_only() && !read.keeps_mark();
    let is_written = written.read(alloc, "a")?.is_some() && written.keeps_mark();
    Ok(is_refused && is_written && !written.is_read_only() && read.read(alloc, "a")?.is_none())
}

#[test]
fn a_folder_in_memory_is_changed_by_its_writer_alone(rt: HostRuntime) -> Result<(), Fail> {
    assert!(rt; is_changed_by_its_writer(rt.alloc())?);
    Ok(())
}

// Whether two folders are open over one system that is shared, and neither they nor the system itself change it.
fn is_only_read(alloc: Global, mut system: Rc<MemSystem, Global>) -> Result<bool, Fail>
    requires { (d : List ℕ) → changes_in system.value d ≡ [] }
{
    let first = DiskFolder::open_to_read(alloc, system.clone()?, "f")?;
    let mut first = Box::new(alloc, first)?;
    let second = DiskFolder::open_to_read(alloc, system.clone()?, "f")?;
    let second = Box::new(alloc, second)?;
    let is_refused = first.create("a").is_err() && SystemFiles::create(&mut system, "f/a").is_err();
    Ok(is_refused && first.names(alloc)?.is_empty() && second.read(alloc, "a")?.is_none())
}

#[test]
fn a_system_that_is_shared_is_only_read(rt: HostRuntime) -> Result<(), Fail> {
    let alloc = rt.alloc();
    let system = Rc::new(alloc, MemSystem::new(alloc, "f")?)?;
    assert!(rt; is_only_read(alloc, system)?);
    Ok(())
}

#[test]
fn what_is_elsewhere_is_no_file_of_the_folder(rt: HostRuntime) -> Result<(), Fail> {
    let mut system = system(rt.alloc())?;
    for path in ["a", "g/a", "f/g/a", "f/", "f/..", "f/lock"] {
        let error = system.create(path);
        assert!(rt; error.is_err_and(|error| error.kind() == ErrorKind::InvalidInput));
    }
    Ok(())
}
