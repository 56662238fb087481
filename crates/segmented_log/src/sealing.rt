//! The store of a segment, made of a tail's records.

ghost use Rattle.std.specs.Prelude.{◌≡◌, ◌⊎◌, ◌≤◌, ◌+◌, ◌^◌, [], length, All, OnOk, IsErrOf};
ghost use Rattle.std.specs.List.{Any};
ghost use Rattle.docstore.specs.Laws.{taken};
ghost use Rattle.log_tail.specs.Place.{contents, EndsBy};
ghost use Rattle.store_published.specs.Filling.{AddsDocuments};
ghost use Rattle.segmented_log.specs.Causes.{IsOfSeals, IsFillingOf, IsOfFolder, IsFailure};

use crate::error::LogError;
use docstore::{StoreError, StoreWriter, TerminatingWrite, laws};
use log_tail::Place;
use store_published::{FillError, Filling, store_document};

/// The block size of a segment.
pub const BLOCK_SIZE: usize = 16384;

// Why a log could not be sealed whose records a store does not take.
fn store_error(error: StoreError) -> LogError
    ensures full { result ≡ LogError.Full → (error ≡ StoreError.TooManyDocs) ⊎ (error ≡ StoreError.BlockTooLarge) }
    ensures failed { IsFailure result → ⊥ }
    ensures kind { IsOfSeals result }
{
    match error {
        StoreError::TooManyDocs | StoreError::BlockTooLarge => LogError::Full,
        // An output in memory fails for lack of memory alone.
        _ => LogError::Memory,
    }
}

// Puts the records at these places after those of a writer.
fn store_records<W: TerminatingWrite>(
    writer: &mut StoreWriter<W>,
    tail: &[u8],
    places: &[Place],
) -> Result<(), StoreError>
    requires within { All (EndsBy (length tail.now)) places.now }
    ensures stored { OnOk result (AddsDocuments (contents tail.now places.now) writer.old writer.new) }
    ensures too_many { IsErrOf result StoreError.TooManyDocs → taken writer.old ≡ [] → 2 ^ 32 ≤ length places.now }
    ensures too_large { IsErrOf result StoreError.BlockTooLarge → Any
        (λ bytes. 2 ^ 32 ≤ writer.old.block_size + length bytes + 8) (contents tail.now places.now) }
{
    laws::ids_are_given_in_order();
    for place in places {
        store_document(writer, &tail[place.start..place.end])?;
    }
    Ok(())
}

/// The records at these places of a tail, as what fills the store of a segment.
#[derive(Drop)]
pub(crate) struct TailRecords<'a> {
    pub(crate) tail: &'a [u8],
    pub(crate) places: &'a [Place],
    pub(crate) ghost within: { All (EndsBy (length tail.now)) places.now },
}

impl<'a> Filling for TailRecords<'a> {
    ghost use Rattle.std.specs.Prelude.{◌≡◌, map};
    ghost use Rattle.store_format.specs.Block.{doc};
    ghost use Rattle.docstore.specs.Trace.{AreFlushed};
    ghost use Rattle.log_tail.specs.Place.{contents};
    ghost use Rattle.segmented_log.specs.Causes.{RefusesRecords};

    type Error = StoreError;

    ghost brings = { λ old new slots. slots ≡ map doc (contents old.tail.now old.places.now) };

    ghost cuts = { λ old size blocks. AreFlushed size (contents old.tail.now old.places.now) blocks };

    ghost refuses = { λ old new block_size. RefusesRecords block_size (contents old.tail.now old.places.now) };

    fn fill<W: TerminatingWrite>(&mut self, writer: &mut StoreWriter<W>) -> Result<(), StoreError> {
        store_records(writer, self.tail, self.places)
    }
}

/// Why the store of a segment was not published.
pub(crate) fn fill_error(error: FillError<StoreError>) -> LogError
    ensures full { result ≡ LogError.Full → IsFillingOf (λ e.
        (e ≡ StoreError.TooManyDocs) ⊎ (e ≡ StoreError.BlockTooLarge)) error }
    ensures failed { IsFailure result → IsOfFolder error }
    ensures kind { IsOfSeals result }
{
    match error {
        FillError::Filling(error) => store_error(error),
        FillError::Folder(error) => LogError::from(error),
        // An output that no call of the folder failed fails for lack of memory alone.
        FillError::Store(_) => LogError::Memory,
    }
}
