//! Writes records of a log to an output.

ghost use Rattle.std.specs.Prelude.{◌≡◌, ◌-◌, ℕ, List, IsTrue, OnOk};
ghost use Rattle.store_format.specs.Block.{Slot};
ghost use Rattle.segmented_log.specs.Log.{IsLog};
ghost use Rattle.framed_logs.specs.Reading.{PrintsRecord, PrintsRecords};

use crate::read_log::{ReadError, ReadLog};
use document_framing::{DocumentForm, ShowError};
use std::alloc::Global;
use std::io::Write;
use store_folder::ReadableFolder;

/// Why not all records were written: one was not read, or the output took none.
#[derive(Drop)]
pub enum PrintError {
    Read(ReadError),
    Show(ShowError),
}

// Writes the record of a number.
fn print_record<F: ReadableFolder, W: Write>(
    alloc: Global,
    read: &mut ReadLog<F>,
    form: DocumentForm,
    number: u64,
    output: &mut W,
) -> Result<(), PrintError>
    ensures printed { IsTrue F.honest → (first : ℕ) (all : List Slot) → IsLog first all (F.seen read.old.folder)
        → OnOk result (PrintsRecord form first all number (W.contents output.old) (W.contents output.new)) }
    ensures folder { read.new.folder ≡ read.old.folder }
    ensures end { read.new.end ≡ read.old.end }
{
    let found = match read.get(number) {
        Ok(found) => found,
        Err(error) => return Err(PrintError::Read(error)),
    };
    match form.write(alloc, output, number, &found) {
        Ok(()) => Ok(()),
        Err(error) => Err(PrintError::Show(error)),
    }
}

/// Writes the records of the numbers from this one to before that one, in order, in a form. Where the folder is honest,
/// an Ok says that exactly these records of its log came, each once.
///
/// # Errors
///
/// Why a record was not read, or not written.
pub fn print_records<F: ReadableFolder, W: Write>(
    alloc: Global,
    read: &mut ReadLog<F>,
    form: DocumentForm,
    from: u64,
    to: u64,
    output: &mut W,
) -> Result<(), PrintError>
    ensures printed { IsTrue F.honest → (first : ℕ) (all : List Slot) → IsLog first all (F.seen read.old.folder)
        → OnOk result (PrintsRecords form first all from (to - from)
        (W.contents output.old) (W.contents output.new)) }
    ensures folder { read.new.folder ≡ read.old.folder }
    ensures end { read.new.end ≡ read.old.end }
{
    for number in from..to {
        print_record(alloc, read, form, number, output)?;
    }
    Ok(())
}
