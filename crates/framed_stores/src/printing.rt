//! Writes documents of a store to an output.

ghost use Rattle.std.specs.Prelude.{◌≡◌, ◌≤◌, IsTrue, OnOk};
ghost use Rattle.framed_stores.specs.Printing.{PrintsSlots, slots_among};
ghost use Rattle.store_commands.specs.Documents.{kept_by, numbered};
ghost use Rattle.store_commands.specs.LeftOut.{AreApartFrom};
ghost use Rattle.store_format.specs.Slots.{slots};
ghost use Rattle.store_reader.specs.Reading.{IsSameStore, store_of};

use docstore::{DocId, FileHandle, StoreReader};
use document_framing::{DocumentForm, ShowError};
use std::alloc::Global;
use std::io::Write;
use std::ops::Range;
use store_commands::block_walk::{DocumentTarget, GivingError, give_documents};
use store_commands::left_out::IdSpan;

// An output in which documents are shown. It counts the writes that fail.
#[derive(Drop)]
struct ShownDocuments<'o, W: Write> {
    alloc: Global,
    output: &'o mut W,
    form: DocumentForm,
    failures: u64,
}

impl<'o, W: Write> DocumentTarget for ShownDocuments<'o, W> {
    ghost use Rattle.std.specs.Prelude.{◌≡◌, ⊤};
    ghost use Rattle.std.specs.Io.KnownBytes.{Appends};
    ghost use Rattle.document_framing.specs.Forms.{shown};

    ghost takes = { λ old number document new. (new.output.ghost_name ≡ old.output.ghost_name)
        × (new.form ≡ old.form)
        × Appends (W.contents old.output.now) (W.contents new.output.now) (shown old.form number document) };

    ghost refuses = { λ _ _ _ _. ⊤ };

    ghost failures = { λ output. output.failures };

    type Error = ShowError;

    fn take(&mut self, doc_id: DocId, document: &[u8]) -> Result<(), ShowError> {
        let written = self
            .form
            .write(self.alloc, self.output, u64::from(doc_id), document);
        if written.is_err() {
            self.failures = self.failures.saturating_add(1);
        }
        written
    }
}

/// Why the documents of a store were not all written: the store's error, or the output's.
pub type PrintError = GivingError<ShowError>;

/// Writes the documents of a store to an output, in order, except those of the ranges, which are in order and do not
/// touch. Where the file is honest, an Ok says that exactly these came, each in this form under its number.
pub fn print_store<H: FileHandle, W: Write>(
    alloc: Global,
    reader: &mut StoreReader<H>,
    form: DocumentForm,
    output: &mut W,
    left_out: &[IdSpan],
) -> Result<(), PrintError>
    requires { AreApartFrom 0 left_out.now }
    ensures printed { IsTrue reader.old.file.honest → OnOk result (PrintsSlots form
        (numbered (slots (store_of reader.old)) (kept_by left_out.now))
        (W.contents output.old) (W.contents output.new)) }
    ensures same_store { IsSameStore reader.old reader.new }
{
    let mut target = ShownDocuments {
        alloc,
        output,
        form,
        failures: 0,
    };
    give_documents(alloc, reader, &mut target, left_out)
}

/// Writes the documents of these ids to an output, in order. Where the file is honest, an Ok says that the store has a
/// document for each, and that exactly these came, each in this form under its number.
pub fn print_range<H: FileHandle, W: Write>(
    alloc: Global,
    reader: &mut StoreReader<H>,
    form: DocumentForm,
    output: &mut W,
    ids: Range<DocId>,
) -> Result<(), PrintError>
    ensures printed { IsTrue reader.old.file.honest → OnOk result (ids.start ≤ ids.end → PrintsSlots form
        (slots_among ids.start ids.end (slots (store_of reader.old))) (W.contents output.old) (W.contents output.new)) }
    ensures same_store { IsSameStore reader.old reader.new }
{
    let Range { start, end } = ids;
    for doc_id in start..end {
        let document = reader.get_document_bytes(alloc, doc_id)?;
        let number = u64::from(doc_id);
        if let Err(error) = form.write(alloc, output, number, document.as_slice()) {
            return Err(GivingError::Target(error));
        }
    }
    Ok(())
}
