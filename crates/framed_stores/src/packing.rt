//! Fills a store with those of another one, if there is one, and the documents of inputs.

ghost use Rattle.std.specs.Prelude.{◌≡◌, length, map, OnOk};
ghost use Rattle.document_framing.specs.Feeding.{all_documents};
ghost use Rattle.document_framing.specs.Inputs.{inputs_of};
ghost use Rattle.framed_stores.specs.Packing.{AddsAll};

use docstore::{FileHandle, StoreError, StoreReader, StoreWriter, TerminatingWrite, laws};
use document_framing::{
    DocumentSink, FeedError, FeedProgress, Framing, InputFault, InputFiles, OtherCount,
    check_count, feed_inputs,
};
use std::alloc::Global;
use store_commands::copied_store::copy_store;
use store_commands::merging::MergeFailure;
use store_published::{Filling, store_document};

/// Why not all documents came into a store.
#[derive(Drop)]
pub enum PackError<H: FileHandle> {
    /// The store before them was not copied.
    Copy(MergeFailure<H>),
    /// An input was not opened or read.
    Input(InputFault),
    /// The store took no further document.
    Store(StoreError),
    /// Another number of documents came than was expected.
    OtherCount(OtherCount),
}

impl<H: FileHandle> From<FeedError<InputFault, StoreError>> for PackError<H> {
    fn from(error: FeedError<InputFault, StoreError>) -> PackError<H> {
        match error {
            FeedError::Input(fault) => PackError::Input(fault),
            FeedError::Sink(error) => PackError::Store(error),
        }
    }
}

// A writer of a store, as what takes documents.
#[derive(Drop)]
struct StoredDocuments<'w, 'p, W: TerminatingWrite, P: FeedProgress> {
    writer: &'w mut StoreWriter<W>,
    progress: &'p mut P,
}

impl<'w, 'p, W: TerminatingWrite, P: FeedProgress> DocumentSink for StoredDocuments<'w, 'p, W, P> {
    ghost use Rattle.std.specs.Prelude.{◌≡◌, refl};
    ghost use Rattle.std.proofs.Common.{◌∙◌};
    ghost use Rattle.store_published.specs.Filling.{AddsDocuments};
    ghost use Rattle.store_published.proofs.FileLemmas.{adds_more};
    ghost use Rattle.framed_stores.specs.Packing.{adds_no_document};

    type Error = StoreError;

    ghost adds = { λ old documents new. (new.writer.ghost_name ≡ old.writer.ghost_name)
        × AddsDocuments documents old.writer.now new.writer.now };

    ghost fails = { λ old new. new.writer.ghost_name ≡ old.writer.ghost_name };

    fn take(&mut self, document: &[u8]) -> Result<(), StoreError> {
        store_document(self.writer, document)?;
        self.progress.note(document.len());
        Ok(())
    }

    fn before_waiting(&mut self) -> Result<(), StoreError> {
        Ok(())
    }

    ghost adds_none = { λ sink. (refl, adds_no_document sink.writer.now) };

    ghost adds_more = { λ old middle new first next p q. (
      q.0 ∙ p.0,
      adds_more first next old.writer.now middle.writer.now new.writer.now p.1 q.1,
    ) };
}

/// The documents of a store, if there is one, and then those of inputs, as what fills a new one; `-` names the standard
/// input.
#[derive(Drop)]
pub struct PackedInputs<'p, 'w, H: FileHandle, F: InputFiles + Drop, P: FeedProgress + Drop> {
    pub alloc: Global,
    /// The store, until it is copied.
    pub store: Option<StoreReader<H>>,
    /// How many bytes of it are in memory at a time.
    pub part_bytes: usize,
    pub framing: Framing,
    pub files: F,
    pub paths: &'p [&'w str],
    /// How many documents of the inputs have to come, if that is said.
    pub expected: Option<u64>,
    pub progress: P,
}

// Puts the documents of inputs after those of a writer.
fn store_inputs<F: InputFiles, P: FeedProgress, W: TerminatingWrite>(
    alloc: Global,
    framing: Framing,
    files: &mut F,
    paths: &[&str],
    progress: &mut P,
    writer: &mut StoreWriter<W>,
) -> Result<(), FeedError<InputFault, StoreError>>
    ensures { OnOk result (AddsAll None (all_documents framing
        (inputs_of (F.holds files.old) (map (λ path. path.now) paths.now))) writer.old writer.new) }
{
    let mut sink = StoredDocuments { writer, progress };
    feed_inputs(alloc, framing, files, paths, &mut sink)
}

impl<'p, 'w, H: FileHandle, F: InputFiles + Drop, P: FeedProgress + Drop> PackedInputs<
    'p,
    'w,
    H,
    F,
    P,
> {
    // Puts the documents of the inputs after those of a writer. An Ok says that all came, and as many as were expected.
    fn store_inputs<W: TerminatingWrite>(
        &mut self,
        writer: &mut StoreWriter<W>,
    ) -> Result<(), PackError<H>>
        ensures { OnOk result (AddsAll self.old.expected (all_documents self.old.framing
            (inputs_of (F.holds self.old.files) (map (λ path. path.now) self.old.paths.now))) writer.old writer.new) }
    {
        laws::ids_are_given_in_order();
        let before = writer.num_docs();
        store_inputs(
            self.alloc,
            self.framing,
            &mut self.files,
            self.paths,
            &mut self.progress,
            writer,
        )?;
        let came = writer.num_docs().saturating_sub(before);
        match check_count(self.expected, u64::from(came)) {
            Ok(()) => Ok(()),
            Err(count) => Err(PackError::OtherCount(count)),
        }
    }
}

/// It brings the slots of the store, and then exactly the documents of the inputs, in order.
impl<'p, 'w, H: FileHandle, F: InputFiles + Drop, P: FeedProgress + Drop> Filling
    for PackedInputs<'p, 'w, H, F, P> {
    ghost use Rattle.std.specs.Prelude.{map};
    ghost use Rattle.document_framing.specs.Feeding.{all_documents};
    ghost use Rattle.document_framing.specs.Inputs.{inputs_of};
    ghost use Rattle.framed_stores.specs.Packing.{ArePacked};

    type Error = PackError<H>;

    ghost brings = { λ old new slots. ArePacked old.store old.expected (all_documents old.framing
        (inputs_of (F.holds old.files) (map (λ path. path.now) old.paths.now))) slots };

    fn fill<W: TerminatingWrite>(
        &mut self,
        writer: &mut StoreWriter<W>,
    ) -> Result<(), PackError<H>> {
        if let Some(store) = self.store.take() {
            if let Err(failure) = copy_store(self.alloc, writer, store, self.part_bytes) {
                return Err(PackError::Copy(failure));
            }
        }
        self.store_inputs(writer)
    }
}
