//! The calls of a system by which files are kept, and what each of them promises.

ghost use Rattle.std.specs.Prelude.{◌≡◌, ◌≢◌, ℕ, List, [], Bool, IsTrue, IfOk, IfErr, OnOk, is_ok, length, Option};
ghost use Rattle.std.specs.Prelude.{Some, None, map, string_bytes};
ghost use Rattle.std.specs.IoError.{error_kind};
ghost use Rattle.store_folder.specs.Folder.{AreNames};
ghost use Rattle.store_files.specs.Paths.{IsPath, IsIn, lock_of};
ghost use Rattle.store_files.specs.Disk.{Change, Created, Moved, Removed, FolderSynced, Adds, Writes, Cuts, Syncs};
ghost use Rattle.store_files.specs.Disk.{Disk, replay, seen, IsSound};
ghost use Rattle.store_files.specs.Known.{Claims, AreSo, Replaces, KeepsMarks};
ghost use Rattle.store_files.specs.Mark.{claims_of};

use crate::mark::Mark;
use crate::read_at::ReadAt;
use std::alloc::Global;
use std::fs::TryLockError;
use std::io;
use std::io::ErrorKind;

/// A mark that was found in a file `lock`, the number of the machine's start, and that file's inode.
#[derive(Drop)]
pub struct FoundMark {
    pub mark: Mark,
    pub boot: Vec<u8>,
    pub inode: String,
}

/// What kind of file has a path, where a link at the path is not followed.
#[derive(Clone, Copy, PartialEq, Eq)]
pub enum FileKind {
    Plain,
    Link,
    /// A folder, a pipe, a device or another thing.
    Other,
}

/// What the system says of the file at a path.
#[derive(Clone, Copy)]
pub struct FoundFile {
    pub kind: FileKind,
    /// Its permissions.
    pub mode: u32,
    pub owner: u32,
    pub group: u32,
}

/// The calls of a system by which files are kept. Each is one call of the system, and its clauses say what the system
/// and its disk promise of that call: which change it makes to the folder of a path. What is read of a folder after
/// changes, and what a crash may leave of it, is their definition (`specs/Disk.antt`).
///
/// Not in the model: hard links, other processes that change the folder, modes and owners, what is no plain file, and
/// of the file `lock` all but its mark.
pub trait SystemFiles: Drop {
    /// A file or a folder that is open.
    type File: Drop;

    /// A file that is open to be read.
    type Reader: ReadAt;

    /// Whether systems of this type keep these promises. A real system has false here, since no program can check it.
    ghost honest: { Bool };

    /// What was in the folder of a path at first.
    ghost start: { List ℕ → Disk };

    /// The changes that were made in the folder of a path since, the last of them first.
    ghost changes: { Self → List ℕ → List Change };

    /// The path by which it was opened.
    ghost opened_as: { Self.File → List ℕ };

    /// The number of the file in its folder.
    ghost number: { Self.File → ℕ };

    /// Whether the file was locked by this open of it. No clause says that the lock keeps others out: that is left to
    /// the system.
    ghost is_locked: { Self.File → Bool };

    /// The folder of which it is the file `lock`, if it is one.
    ghost locks: { Self.File → Option (List ℕ) };

    /// By which number of the machine's start, and of the file, a mark in it is believed.
    ghost place: { Self.File → List ℕ × List ℕ };

    /// What the mark claims that is in the file `lock` of a folder.
    ghost claims: { Self → List ℕ → Claims };

    /// That what the mark of a folder claims was so at each moment.
    ghost was_so: { Self → List ℕ → Type 0 };

    /// Makes a folder: `mkdir`.
    fn make_folder(&self, path: &str) -> io::Result<()>;

    /// What is at a path, where a link is not followed: `lstat`. None where nothing is.
    fn find(&self, path: &str) -> io::Result<Option<FoundFile>>;

    /// The path without links: `realpath`.
    fn real_path(&self, alloc: Global, path: &str) -> io::Result<String>;

    /// Gives a file another owner, or another group: `chown`.
    fn set_owner(&self, path: &str, owner: Option<u32>, group: Option<u32>) -> io::Result<()>;

    /// Gives a file other permissions: `chmod`.
    fn set_mode(&self, path: &str, mode: u32) -> io::Result<()>;

    /// Opens a folder that is there, to sync it: `open`.
    fn open_folder(&self, path: &str) -> io::Result<Self::File>
        ensures opened { IsTrue honest → IfOk result (λ file. opened_as file ≡ path.now) };

    /// Opens a file that is there, to sync it: `open`.
    fn open(&self, path: &str) -> io::Result<Self::File>
        ensures opened { IsTrue honest → IfOk result (λ file. opened_as file ≡ path.now) }
        ensures number { IsTrue honest → (d n : List ℕ) → IsPath d n path.now
            → IfOk result (λ file. (replay (changes self.now d) (start d)).file_of n ≡ Some (number file)) };

    /// Opens a file that is there, so that each write goes to its end: `open` with `O_APPEND`.
    fn open_to_append(&self, path: &str) -> io::Result<Self::File>
        ensures opened { IsTrue honest → IfOk result (λ file. opened_as file ≡ path.now) }
        ensures number { IsTrue honest → (d n : List ℕ) → IsPath d n path.now
            → IfOk result (λ file. (replay (changes self.now d) (start d)).file_of n ≡ Some (number file)) };

    /// Makes an empty file, or empties the one that is there: `open` with `O_CREAT` and `O_TRUNC`.
    fn create(&mut self, path: &str) -> io::Result<()>
        ensures made { IsTrue honest → (d n : List ℕ) → IsPath d n path.now
            → Adds (is_ok result) (Created n) (changes self.old d) (changes self.new d) }
        ensures mark { IsTrue honest → KeepsMarks claims was_so changes start self.old self.new };

    /// Makes an empty file with these permissions, where nothing has the path, and opens it as `open_to_append` does:
    /// `open` with `O_CREAT` and `O_EXCL`.
    fn create_new(&mut self, path: &str, mode: u32) -> io::Result<Self::File>
        ensures made { IsTrue honest → (d n : List ℕ) → IsPath d n path.now
            → Adds (is_ok result) (Created n) (changes self.old d) (changes self.new d) }
        ensures mark { IsTrue honest → KeepsMarks claims was_so changes start self.old self.new };

    /// The length of a file: `fstat`.
    fn len(&self, file: &Self::File) -> io::Result<u64>
        ensures { IsTrue honest → (d : List ℕ) → IsIn d (opened_as file.now)
            → IfOk result (λ n. n ≡ length ((replay (changes self.now d) (start d)).bytes (number file.now))) };

    /// Writes all of the bytes to a file that was opened so that they go to its end: `write`, until they are written or
    /// one fails.
    fn write(&mut self, file: &mut Self::File, bytes: &[u8]) -> io::Result<()>
        ensures written { IsTrue honest → (d : List ℕ) → IsIn d (opened_as file.old)
            → Writes (is_ok result) (number file.old) bytes.now (changes self.old d) (changes self.new d) }
        ensures opened { opened_as file.new ≡ opened_as file.old }
        ensures number { number file.new ≡ number file.old }
        ensures mark { IsTrue honest → KeepsMarks claims was_so changes start self.old self.new };

    /// Cuts a file to a length that it had before the last write: `ftruncate`.
    fn cut(&mut self, file: &Self::File, len: u64) -> io::Result<()>
        ensures cut { IsTrue honest → (d : List ℕ) → IsIn d (opened_as file.now)
            → Cuts (number file.now) len (start d) (changes self.old d) (changes self.new d) }
        ensures mark { IsTrue honest → KeepsMarks claims was_so changes start self.old self.new };

    /// Puts the bytes of a file on the disk: `fdatasync`.
    fn sync_file(&mut self, file: &Self::File) -> io::Result<()>
        ensures synced { IsTrue honest → (d : List ℕ) → IsIn d (opened_as file.now)
            → Syncs (is_ok result) (number file.now) (changes self.old d) (changes self.new d) }
        ensures mark { IsTrue honest → KeepsMarks claims was_so changes start self.old self.new };

    /// Renames a file within its folder, and replaces the one that has the new name: `rename`.
    fn rename(&mut self, from: &str, to: &str) -> io::Result<()>
        ensures moved { IsTrue honest → (d n m : List ℕ) → IsPath d n from.now → IsPath d m to.now
            → Adds (is_ok result) (Moved n m) (changes self.old d) (changes self.new d) }
        ensures mark { IsTrue honest → KeepsMarks claims was_so changes start self.old self.new };

    /// Removes the name of a file: `unlink`.
    fn remove(&mut self, path: &str) -> io::Result<()>
        ensures removed { IsTrue honest → (d n : List ℕ) → IsPath d n path.now
            → Adds (is_ok result) (Removed n) (changes self.old d) (changes self.new d) }
        ensures mark { IsTrue honest → KeepsMarks claims was_so changes start self.old self.new };

    /// Puts the entries of a folder on the disk: `fsync`.
    fn sync_folder(&mut self, folder: &Self::File) -> io::Result<()>
        ensures synced { IsTrue honest → (d : List ℕ) → opened_as folder.now ≡ d
            → Adds (is_ok result) FolderSynced (changes self.old d) (changes self.new d) }
        ensures others { IsTrue honest → (d : List ℕ) → opened_as folder.now ≢ d
            → changes self.new d ≡ changes self.old d }
        ensures mark { IsTrue honest → KeepsMarks claims was_so changes start self.old self.new };

    /// Opens a file `lock`, which is made unless it is there: `open` with `O_CREAT`.
    fn open_lock(&self, path: &str) -> io::Result<Self::File>
        ensures { IsTrue honest → (d : List ℕ) → path.now ≡ lock_of d → IfOk result (λ file. locks file ≡ Some d) };

    /// Locks a file until it is closed, unless another open of it holds a lock: `flock`.
    fn try_lock(&self, file: &Self::File) -> Result<(), TryLockError>
        ensures { OnOk result (IsTrue (is_locked file.now)) };

    /// Whether the open file is still the one of this path: `fstat` and `lstat`.
    fn has_path(&self, file: &Self::File, path: &str) -> io::Result<bool>;

    /// The mark in the file `lock` of a folder, which is open and has that path: `fstat`, and `read` of it and of the
    /// number of the machine's start.
    fn find_mark(
        &self,
        alloc: Global,
        lock: &Self::File,
        lock_path: &str,
        folder: &str,
    ) -> io::Result<FoundMark>
        ensures so { IsTrue honest → was_so self.now folder.now → IfOk result (λ found.
            AreSo (claims_of found.mark) (replay (changes self.now folder.now) (start folder.now))) }
        ensures claims { IsTrue honest → locks lock.now ≡ Some folder.now
            → IfOk result (λ found. claims self.now folder.now ≡ claims_of found.mark) }
        ensures place { IsTrue honest
            → IfOk result (λ found. place lock.now ≡ (found.boot.items, string_bytes found.inode)) };

    /// Replaces the mark in a file `lock` by one of this start of the machine and this file, of which what it claims is
    /// so: `lseek`, `write` and `ftruncate`. Where it fails the mark is that one, or the one before.
    fn write_mark(
        &mut self,
        lock: &mut Self::File,
        boot: &[u8],
        inode: &str,
        mark: &Mark,
    ) -> io::Result<()>
        requires { IsTrue honest → (d : List ℕ) → locks lock.old ≡ Some d
            → AreSo (claims_of mark.now) (replay (changes self.old d) (start d)) }
        ensures claims { IsTrue honest → (d : List ℕ) → locks lock.old ≡ Some d → place lock.old ≡ (boot.now, inode.now)
            → Replaces (is_ok result) (claims_of mark.now) (claims self.old d) (claims self.new d) }
        ensures so { IsTrue honest → (d : List ℕ) → was_so self.old d → was_so self.new d }
        ensures changes { changes self.new ≡ changes self.old }
        ensures locked { is_locked lock.new ≡ is_locked lock.old }
        ensures locks { locks lock.new ≡ locks lock.old }
        ensures place { place lock.new ≡ place lock.old };

    /// The names of the files in the folder of this path, but for `lock`: `readdir`.
    fn names(&self, alloc: Global, path: &str) -> io::Result<Vec<String>>
        ensures { IsTrue honest → IfOk result (λ names. AreNames
            (seen (replay (changes self.now path.now) (start path.now))) (map string_bytes names.items)) };

    /// Opens a file that is there, to be read: `open`.
    fn open_to_read(&self, path: &str) -> io::Result<Self::Reader>
        ensures content { IsTrue honest → (d n : List ℕ) → IsPath d n path.now → IfOk result
            (λ file. seen (replay (changes self.now d) (start d)) n ≡ Some (Self.Reader.content file)) }
        ensures honest { IsTrue honest → IfOk result (λ file. IsTrue (Self.Reader.honest file)) }
        ensures absent { IsTrue honest → (d n : List ℕ) → IsPath d n path.now → IfErr result
            (λ e. error_kind e ≡ ErrorKind.NotFound → seen (replay (changes self.now d) (start d)) n ≡ None) };

    /// What a mark claims of a folder is so until this system changes the folder: no one else writes the file `lock`,
    /// and a mark is of one start of the machine and of one file.
    ghost first_so: { (s : Self) (d : List ℕ) → IsTrue honest → changes s d ≡ [] → was_so s d };

    /// At each moment a crash may leave what is read, an entry that is on the disk leads to its file, and a file has at
    /// most one name.
    ghost sound: { (s : Self) (d : List ℕ) → IsSound honest (replay (changes s d) (start d)) };
}
