//! Laws of writers, of stackings and of whole lists; those of files and of reading are exported again.
ghost use Rattle.docstore.specs.EndToEnd.{DocumentsHaveTheirIds, WrittenListsAreFound};
ghost use Rattle.docstore.specs.Run.{BlocksMeanTheirCalls};
ghost use Rattle.docstore.specs.Laws.{WrittenDocumentsAreFound, DocumentsAreTakenInOrder, IdsAreGivenInOrder};
ghost use Rattle.docstore.specs.Laws.{FlushesKeepSlots, StoresAreStackedInOrder, StackedSlotsAreCounted};
ghost use Rattle.docstore.specs.Laws.{StackedFilesAreJoined, StackingIsAssociative, StackedAloneIsTheSame};

pub use store_format::laws::{
    blocks_have_their_lengths, blocks_hold_documents, files_are_stores, stores_are_apart,
};
pub use store_reader::laws::{
    answers_are_exact, look_ups_are_counted, looks_are_recent, slots_decide_answers,
    stats_are_added, stored_documents_are_got, walks_look_up,
};

/// Whatever store is found in the file of a close, its slots are what the writer had taken.
pub fn written_documents_are_found()
    ensures { WrittenDocumentsAreFound }
{}

/// One more document appends its slot, whether it fills a block or not.
pub fn documents_are_taken_in_order()
    ensures { DocumentsAreTakenInOrder }
{}

/// There is a slot for each document that was taken, so the next document's id is its place.
pub fn ids_are_given_in_order()
    ensures { IdsAreGivenInOrder }
{}

/// Pending documents that are written as a block keep their slots.
pub fn flushes_keep_slots()
    ensures { FlushesKeepSlots }
{}

/// The slots of a store that is stacked are appended.
pub fn stores_are_stacked_in_order()
    ensures { StoresAreStackedInOrder }
{}

/// Whatever came of a reader's file has as many slots as the reader has documents.
pub fn stacked_slots_are_counted()
    ensures { StackedSlotsAreCounted }
{}

/// Where nothing is pending, a close after stackings writes the file of all their blocks, joined.
pub fn stacked_files_are_joined()
    ensures { StackedFilesAreJoined }
{}

/// It doesn't matter which of three stores were stacked to one before.
pub fn stacking_is_associative()
    ensures { StackingIsAssociative }
{}

/// A store that is stacked alone is written as the file that it was read from, at one period.
pub fn stacked_alone_is_the_same()
    ensures { StackedAloneIsTheSame }
{}

/// The slots of the blocks that calls may leave are what the calls brought, whatever the block size.
pub fn blocks_mean_their_calls()
    ensures { BlocksMeanTheirCalls }
{}

/// Whatever store `StoreReader::open` finds in the file of a list of writing calls, it has the list's period and
/// version 3, and its slots are what the calls brought, whatever the block size.
pub fn written_lists_are_found()
    ensures { WrittenListsAreFound }
{}

/// The document that a call brought has the id that was next, whatever was called before and after.
pub fn documents_have_their_ids()
    ensures { DocumentsHaveTheirIds }
{}
