//! A system in memory, which keeps every promise of a system.

ghost use Rattle.std.specs.Prelude.{◌≡◌, ◌≢◌, ◌∷◌, ℕ, List, [], Some, None, true, false, string_bytes};
ghost use Rattle.std.specs.Prelude.{IfOk, IfErr, OnOk, OnErr};
ghost use Rattle.std.specs.IoError.{error_kind};
ghost use Rattle.store_folder.specs.Folder.{bytes_of};
ghost use Rattle.store_files.specs.Disk.{replay, seen};
ghost use Rattle.store_files.specs.Paths.{IsPath, IsIn};
ghost use Rattle.system_model.specs.Made.{empty};
ghost use Rattle.store_files.specs.Mark.{IsBlank};
ghost use Rattle.system_model.specs.System.{changes_in, change_of, are_made, made_by, WasSo};

use crate::content::{Content, Step, name_of, number_of};
use std::alloc::{AllocError, Global};
use std::cell::Cell;
use std::fs::TryLockError;
use std::io;
use std::io::ErrorKind;
use std::marker::Model;
use store_files::mark::Mark;
use store_files::{FileKind, FoundFile, FoundMark, SystemFiles};
use store_folder::ReadableFolder;

/// A system in memory that has the files of one folder; other folders can be synced. What a crash may leave of it is
/// what the model allows at worst. A call fails for lack of memory, and then each later call on a file does.
#[derive(Drop)]
pub struct MemSystem {
    alloc: Global,
    folder: String,
    content: Content,
    steps: Vec<Step>,
    // The other folders that were synced.
    others: Vec<String>,
    is_broken: bool,
    is_locked: Cell<bool>,
    mark: Mark,
}

/// Clauses see the folder, the changes that were made in it, the syncs of others, and its mark.
impl Model for MemSystem {
    ghost use Rattle.std.specs.Prelude.{◌≡◌, true, false, string_bytes};
    ghost use Rattle.store_files.specs.Disk.{replay};
    ghost use Rattle.system_model.specs.Made.{empty};
    ghost use Rattle.system_model.specs.System.{MemDisk, Holds, are_made, made_by, synced_by};

    ghost Value = { MemDisk };

    ghost view = { λ s. record {
      folder = string_bytes s.folder;
      changes = made_by s.steps.items;
      others = synced_by s.others.items;
      mark = s.mark;
    } };

    ghost invariant = { λ s. (are_made (made_by s.steps.items) ≡ true)
        × (s.is_broken ≡ false → Holds s.content (replay (made_by s.steps.items) empty)) };
}

/// A file of a system in memory that is open, or its folder.
#[derive(Drop)]
pub struct MemSystemFile {
    path: String,
    number: u64,
    /// The folder of which it is the file `lock`, if it is one.
    locks: Option<String>,
}

// The name of the file of a path in a folder.
fn name_in<'a>(folder: &str, path: &'a str) -> io::Result<&'a str>
    ensures name { IfOk result (λ name. IsPath folder.now name.now path.now) }
    ensures kind { IfErr result (λ e. error_kind e ≢ ErrorKind.NotFound) }
{
    let Some(rest) = path.strip_prefix(folder) else {
        return Err(ErrorKind::InvalidInput.into());
    };
    let Some(name) = rest.strip_prefix('/') else {
        return Err(ErrorKind::InvalidInput.into());
    };
    if name.is_empty() || name == "." || name == ".." || name == "lock" {
        return Err(ErrorKind::InvalidInput.into());
    }
    if name.as_bytes().contains(&b'/') {
        return Err(ErrorKind::InvalidInput.into());
    }
    Ok(name)
}

// Fails after a call for which there was no memory.
fn check(is_broken: bool) -> io::Result<()>
    ensures whole { OnOk result (is_broken ≡ false) }
    ensures kind { IfErr result (λ e. error_kind e ≢ ErrorKind.NotFound) }
{
    match is_broken {
        true => Err(ErrorKind::OutOfMemory.into()),
        false => Ok(()),
    }
}

impl MemSystem {
    /// A system with an empty folder of this path.
    pub fn new(alloc: Global, folder: &str) -> Result<MemSystem, AllocError>
        ensures folder { IfOk result (λ s. s.folder ≡ folder.now) }
        ensures mark { IfOk result (λ s. IsBlank s.mark) }
        ensures changes { IfOk result (λ s. s.changes ≡ []) }
        ensures unchanged { IfOk result (λ s. (d : List ℕ) → changes_in s d ≡ []) }
        ensures so { IfOk result (λ s. (d : List ℕ) → WasSo s d) }
    {
        Ok(MemSystem {
            alloc,
            folder: String::from_str(alloc, folder)?,
            content: Content::new(alloc),
            steps: Vec::new(alloc),
            others: Vec::new(alloc),
            is_broken: false,
            is_locked: Cell::new(false),
            mark: Mark::blank(alloc),
        })
    }

    /// The system as another process finds it: with the changes that were made in its folder, a blank mark and all
    /// locks free. That other folders were synced is forgotten.
    pub fn again(&self) -> io::Result<MemSystem>
        ensures folder { IfOk result (λ s. s.folder ≡ self.now.folder) }
        ensures changes { IfOk result (λ s. s.changes ≡ self.now.changes) }
        ensures so { IfOk result (λ s. (d : List ℕ) → WasSo s d) }
    {
        let mut system = MemSystem::new(self.alloc, self.folder.as_str())?;
        for step in self.steps() {
            system.make(step.copy(self.alloc)?)?;
        }
        Ok(system)
    }

    /// The changes that were made, the first of them first.
    pub fn steps(&self) -> &[Step]
        ensures { made_by result.now ≡ self.now.changes }
    {
        &self.steps
    }

    // The name of the file of a path.
    fn name_at(&self, path: &str) -> io::Result<String>
        ensures name { IfOk result (λ name. IsPath self.now.folder (string_bytes name) path.now) }
        ensures kind { IfErr result (λ e. error_kind e ≢ ErrorKind.NotFound) }
    {
        let name = name_in(self.folder.as_str(), path)?;
        Ok(String::from_str(self.alloc, name)?)
    }

    // Makes a change.
    fn make(&mut self, step: Step) -> io::Result<()>
        ensures made { OnOk result (self.new.changes ≡ change_of step ∷ self.old.changes) }
        ensures possible { OnOk result (are_made self.new.changes ≡ true) }
        ensures kept { OnErr result (self.new.changes ≡ self.old.changes) }
        ensures folder { self.new.folder ≡ self.old.folder }
        ensures others { self.new.others ≡ self.old.others }
        ensures mark { self.new.mark ≡ self.old.mark }
    {
        check(self.is_broken)?;
        self.is_broken = true;
        self.content.apply(self.alloc, &step)?;
        self.steps.push(step)?;
        self.is_broken = false;
        Ok(())
    }

    // Notes the sync of another folder.
    fn sync_other(&mut self, path: &str) -> io::Result<()>
        ensures synced { OnOk result (self.new.others ≡ path.now ∷ self.old.others) }
        ensures kept { OnErr result (self.new ≡ self.old) }
        ensures folder { self.new.folder ≡ self.old.folder }
        ensures changes { self.new.changes ≡ self.old.changes }
        ensures mark { self.new.mark ≡ self.old.mark }
    {
        self.others.push(String::from_str(self.alloc, path)?)?;
        Ok(())
    }

    // The number of the file of a path, if there is one.
    fn number_at(&self, path: &str) -> io::Result<Option<u64>>
        ensures found { IfOk result (λ found. (d n : List ℕ) → IsPath d n path.now
            → (replay (changes_in self.now d) empty).file_of n ≡ found) }
        ensures kind { IfErr result (λ e. error_kind e ≢ ErrorKind.NotFound) }
    {
        let name = name_in(self.folder.as_str(), path)?;
        check(self.is_broken)?;
        Ok(number_of(&self.content.names, name))
    }

    // The file of a path, open.
    fn file_at(&self, path: &str) -> io::Result<MemSystemFile>
        ensures opened { IfOk result (λ file. string_bytes file.path ≡ path.now) }
        ensures number { IfOk result (λ file. (d n : List ℕ) → IsPath d n path.now
            → (replay (changes_in self.now d) empty).file_of n ≡ Some file.number) }
    {
        let Some(number) = self.number_at(path)? else {
            return Err(ErrorKind::NotFound.into());
        };
        let path = String::from_str(self.alloc, path)?;
        Ok(MemSystemFile {
            path,
            number,
            locks: None,
        })
    }

    // The bytes of the file of a path, if there is one.
    fn bytes_at(&self, path: &str) -> io::Result<Option<Vec<u8>>>
        ensures found { IfOk result (λ found. (d n : List ℕ) → IsPath d n path.now
            → seen (replay (changes_in self.now d) empty) n ≡ bytes_of found) }
        ensures kind { IfErr result (λ e. error_kind e ≢ ErrorKind.NotFound) }
    {
        let name = name_in(self.folder.as_str(), path)?;
        check(self.is_broken)?;
        match self.content.files.read(self.alloc, name) {
            Ok(found) => Ok(found),
            Err(_) => Err(ErrorKind::OutOfMemory.into()),
        }
    }

    // The bytes of a file that is open and has a name.
    fn bytes_of_open(&self, file: &MemSystemFile) -> io::Result<Vec<u8>>
        ensures { IfOk result (λ found. (d : List ℕ) → IsIn d (string_bytes file.now.path)
            → (replay (changes_in self.now d) empty).bytes file.now.number ≡ found.items) }
    {
        let _name = self.name_at(file.path.as_str())?;
        check(self.is_broken)?;
        let Some(name) = name_of(self.alloc, &self.content.names, file.number)? else {
            return Err(ErrorKind::NotFound.into());
        };
        match self.content.files.read(self.alloc, name.as_str())? {
            Some(bytes) => Ok(bytes),
            None => Err(ErrorKind::NotFound.into()),
        }
    }
}

impl SystemFiles for MemSystem {
    ghost use Rattle.std.specs.Prelude.{[], true, option_map, string_bytes};
    ghost use Rattle.store_files.specs.Mark.{claims_of};
    ghost use Rattle.system_model.specs.Made.{empty};
    ghost use Rattle.system_model.specs.System.{changes_in, WasSo};
    ghost use Rattle.system_model.specs.Sound.{changes_are_sound, first_so};

    type File = MemSystemFile;

    type Reader = Vec<u8>;

    ghost honest = { true };

    ghost start = { λ _. empty };

    ghost changes = { changes_in };

    ghost opened_as = { λ f. string_bytes f.path };

    ghost number = { λ f. f.number };

    ghost is_locked = { λ _. true };

    ghost locks = { λ f. option_map string_bytes f.locks };

    ghost place = { λ _. ([], []) };

    ghost claims = { λ s _. claims_of s.mark };

    ghost was_so = { WasSo };

    ghost first_so = { λ s d _. first_so s d };

    ghost sound = { changes_are_sound };

    fn make_folder(&self, path: &str) -> io::Result<()> {
        match path == self.folder.as_str() {
            true => Err(ErrorKind::AlreadyExists.into()),
            false => Ok(()),
        }
    }

    fn find(&self, path: &str) -> io::Result<Option<FoundFile>> {
        let found = FoundFile {
            kind: FileKind::Plain,
            mode: 0o644,
            owner: 0,
            group: 0,
        };
        match self.number_at(path) {
            Ok(Some(_)) => Ok(Some(found)),
            _ => Ok(None),
        }
    }

    fn real_path(&self, alloc: Global, path: &str) -> io::Result<String> {
        Ok(String::from_str(alloc, path)?)
    }

    fn set_owner(&self, _path: &str, _owner: Option<u32>, _group: Option<u32>) -> io::Result<()> {
        Ok(())
    }

    fn set_mode(&self, _path: &str, _mode: u32) -> io::Result<()> {
        Ok(())
    }

    fn open_folder(&self, path: &str) -> io::Result<MemSystemFile> {
        let path = String::from_str(self.alloc, path)?;
        Ok(MemSystemFile {
            path,
            number: 0,
            locks: None,
        })
    }

    fn open(&self, path: &str) -> io::Result<MemSystemFile> {
        self.file_at(path)
    }

    fn open_to_append(&self, path: &str) -> io::Result<MemSystemFile> {
        self.file_at(path)
    }

    fn create(&mut self, path: &str) -> io::Result<()> {
        let name = self.name_at(path)?;
        self.make(Step::Created(name))
    }

    fn create_new(&mut self, path: &str, _mode: u32) -> io::Result<MemSystemFile> {
        if self.number_at(path)?.is_some() {
            return Err(ErrorKind::AlreadyExists.into());
        }
        SystemFiles::create(self, path)?;
        self.file_at(path)
    }

    fn len(&self, file: &MemSystemFile) -> io::Result<u64> {
        Ok(self.bytes_of_open(file)?.len() as u64)
    }

    fn write(&mut self, file: &mut MemSystemFile, bytes: &[u8]) -> io::Result<()> {
        let _name = self.name_at(file.path.as_str())?;
        let bytes = bytes.to_vec(self.alloc)?;
        self.make(Step::Appended(file.number, bytes))
    }

    fn cut(&mut self, _file: &MemSystemFile, _len: u64) -> io::Result<()> {
        Ok(())
    }

    fn sync_file(&mut self, file: &MemSystemFile) -> io::Result<()> {
        let _name = self.name_at(file.path.as_str())?;
        self.make(Step::FileSynced(file.number))
    }

    fn rename(&mut self, from: &str, to: &str) -> io::Result<()> {
        let (from, to) = (self.name_at(from)?, self.name_at(to)?);
        self.make(Step::Moved(from, to))
    }

    fn remove(&mut self, path: &str) -> io::Result<()> {
        if self.number_at(path)?.is_none() {
            return Err(ErrorKind::NotFound.into());
        }
        let name = self.name_at(path)?;
        self.make(Step::Removed(name))
    }

    fn sync_folder(&mut self, folder: &MemSystemFile) -> io::Result<()> {
        match folder.path.as_str() == self.folder.as_str() {
            true => self.make(Step::FolderSynced),
            false => self.sync_other(folder.path.as_str()),
        }
    }

    fn open_lock(&self, path: &str) -> io::Result<MemSystemFile> {
        let Some(folder) = path.strip_suffix("/lock") else {
            return Err(ErrorKind::InvalidInput.into());
        };
        Ok(MemSystemFile {
            path: String::from_str(self.alloc, path)?,
            number: 0,
            locks: Some(String::from_str(self.alloc, folder)?),
        })
    }

    fn try_lock(&self, _file: &MemSystemFile) -> Result<(), TryLockError> {
        match self.is_locked.replace(true) {
            true => Err(TryLockError::WouldBlock),
            false => Ok(()),
        }
    }

    fn has_path(&self, file: &MemSystemFile, path: &str) -> io::Result<bool> {
        match self.number_at(path) {
            Ok(found) => Ok(found == Some(file.number)),
            Err(_) => Ok(file.path.as_str() == path),
        }
    }

    fn find_mark(
        &self,
        alloc: Global,
        _lock: &MemSystemFile,
        _lock_path: &str,
        _folder: &str,
    ) -> io::Result<FoundMark> {
        Ok(FoundMark {
            mark: self.mark.clone()?,
            boot: Vec::new(alloc),
            inode: String::new(alloc),
        })
    }

    fn write_mark(
        &mut self,
        lock: &mut MemSystemFile,
        _boot: &[u8],
        _inode: &str,
        mark: &Mark,
    ) -> io::Result<()> {
        match &lock.locks {
            Some(folder) if folder.as_str() == self.folder.as_str() => {
                self.mark = mark.clone()?;
                Ok(())
            }
            _ => Err(ErrorKind::InvalidInput.into()),
        }
    }

    fn names(&self, alloc: Global, path: &str) -> io::Result<Vec<String>> {
        if path != self.folder.as_str() {
            return Err(ErrorKind::NotFound.into());
        }
        check(self.is_broken)?;
        self.content.files.names(alloc)
    }

    fn open_to_read(&self, path: &str) -> io::Result<Vec<u8>> {
        match self.bytes_at(path)? {
            Some(bytes) => Ok(bytes),
            None => Err(ErrorKind::NotFound.into()),
        }
    }
}
