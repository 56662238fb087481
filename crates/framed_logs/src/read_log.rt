//! A log that is open to be read while a writer may go on.

ghost use Rattle.std.specs.Prelude.{◌≡◌, ◌+◌, ℕ, List, IfOk, IfSome, IsTrue, OnOk, Some, length};
ghost use Rattle.store_format.specs.Block.{Slot, doc};
ghost use Rattle.segmented_log.specs.Log.{IsLog, slot_at};

use segmented_log::laws::folders_are_one_log;
use segmented_log::{LogError, LogReader};
use std::alloc::Global;
use std::io::ErrorKind;
use std::marker::Model;
use store_folder::ReadableFolder;

// How often an opening or a read is tried: a writer may change the log's segments meanwhile.
const TRIES: usize = 1000;

/// Why a log was not opened, or no record read.
#[derive(Drop)]
pub enum ReadError {
    /// The log has no record of this number: its records have the numbers from `first` to before `end`.
    NoRecord { number: u64, first: u64, end: u64 },
    /// The record of this number is damaged.
    Damaged(u64),
    /// A writer changed the log at each try.
    Busy,
    Log(LogError),
}

/// A log that is open to be read, as it was when it was opened first. Its parts are in boxes: a function that owns it
/// moves and drops three values, and not all of theirs.
#[derive(Drop)]
pub struct ReadLog<F: ReadableFolder> {
    alloc: Global,
    folder: Box<F>,
    log: Box<LogReader<F>>,
    end: u64,
}

/// Clauses see what the folder holds, which is a log, and the number after its last record.
impl<F: ReadableFolder> Model for ReadLog<F> {
    ghost use Rattle.std.specs.Prelude.{IsTrue};
    ghost use Rattle.framed_logs.specs.Reading.{ReadView, Reads};

    ghost Value = { ReadView F };

    ghost view = { λ r. record {
      folder = r.folder.value;
      first = r.log.value.first;
      end = r.end;
    } };

    ghost invariant = { λ r. IsTrue F.honest
        → Reads (F.seen r.folder.value) r.log.value.first r.log.value.slots r.end };
}

// Passes over an error where a writer changed the log meanwhile. A segment may be gone since it was listed: the writer
// joined it with others, or removed it.
fn unless_changed(error: LogError) -> Result<(), ReadError> {
    match error {
        LogError::Changed => Ok(()),
        LogError::Failed(reason) if reason.kind() == ErrorKind::NotFound => Ok(()),
        error => Err(ReadError::Log(error)),
    }
}

// Opens the log of a folder.
fn open_reader<F: ReadableFolder>(alloc: Global, folder: &F) -> Result<LogReader<F>, ReadError>
    ensures { IsTrue F.honest → IfOk result (λ log. IsLog log.first log.slots (F.seen folder.now)) }
{
    for _ in 0..TRIES {
        match LogReader::open(alloc, folder) {
            Ok(log) => return Ok(log),
            Err(error) => unless_changed(error)?,
        }
    }
    Err(ReadError::Busy)
}

impl<F: ReadableFolder> ReadLog<F> {
    /// Opens the log of a folder. Of a log whose tail is damaged it has the records before the damage.
    ///
    /// # Errors
    ///
    /// Those of the log, and `Busy`.
    pub fn open(alloc: Global, folder: Box<F>) -> Result<ReadLog<F>, ReadError>
        ensures folder { IfOk result (λ read. read.folder ≡ folder.value) }
    {
        let log = open_reader(alloc, &*folder)?;
        let end = log.end();
        match Box::new(alloc, log) {
            Ok(log) => Ok(ReadLog {
                alloc,
                folder,
                log,
                end,
            }),
            Err(_) => Err(ReadError::Log(LogError::Memory)),
        }
    }

    /// The number of the first record.
    pub fn first(&self) -> u64
        ensures value { result ≡ self.now.first }
        ensures first { IsTrue F.honest → (first : ℕ) (all : List Slot) → IsLog first all (F.seen self.now.folder)
            → result ≡ first }
    {
        folders_are_one_log();
        self.log.first()
    }

    /// The number after the last record.
    pub fn end(&self) -> u64
        ensures value { result ≡ self.now.end }
        ensures end { IsTrue F.honest → (first : ℕ) (all : List Slot) → IsLog first all (F.seen self.now.folder)
            → result ≡ first + length all }
    {
        folders_are_one_log();
        self.end
    }

    /// Whether the tail is damaged after the last record.
    pub fn is_damaged(&self) -> bool {
        self.log.is_damaged()
    }

    // Reads the folder again.
    fn refresh(&mut self) -> Result<(), ReadError>
        ensures folder { self.new.folder ≡ self.old.folder }
        ensures end { self.new.end ≡ self.old.end }
    {
        folders_are_one_log();
        match self.log.refresh(&*self.folder) {
            Ok(()) => Ok(()),
            Err(error) => unless_changed(error),
        }
    }

    // The record of a number, or none where a writer changed the log meanwhile. Then the folder is read again.
    fn try_get(&mut self, number: u64) -> Result<Option<Vec<u8>>, ReadError>
        ensures found { IsTrue F.honest → (first : ℕ) (all : List Slot) → IsLog first all (F.seen self.old.folder)
            → IfOk result (λ found. IfSome found (λ bytes. slot_at first all number ≡ Some (doc bytes.items))) }
        ensures folder { self.new.folder ≡ self.old.folder }
        ensures end { self.new.end ≡ self.old.end }
    {
        folders_are_one_log();
        let (first, end) = (self.log.first(), self.end);
        match self.log.get(number) {
            Ok(Some(found)) => return Ok(Some(found)),
            Ok(None) => return Err(ReadError::NoRecord { number, first, end }),
            Err(LogError::Damaged) => return Err(ReadError::Damaged(number)),
            Err(error) => unless_changed(error)?,
        }
        self.refresh()?;
        Ok(None)
    }

    /// The record of a number. Where a writer has joined its segment with others meanwhile, it is read from the joined
    /// one; where it was removed, the error says from which number on records are left. Of an honest folder, of which
    /// nothing is changed, it is the log's record.
    ///
    /// # Errors
    ///
    /// `NoRecord`, `Damaged`, those of the log, and `Busy`.
    pub fn get(&mut self, number: u64) -> Result<Vec<u8>, ReadError>
        ensures found { IsTrue F.honest → (first : ℕ) (all : List Slot) → IsLog first all (F.seen self.old.folder)
            → IfOk result (λ found. slot_at first all number ≡ Some (doc found.items)) }
        ensures folder { self.new.folder ≡ self.old.folder }
        ensures end { self.new.end ≡ self.old.end }
    {
        for _ in 0..TRIES {
            if let Some(found) = self.try_get(number)? {
                return Ok(found);
            }
        }
        Err(ReadError::Busy)
    }
}
