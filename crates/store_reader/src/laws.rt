//! What look-ups do, and what decides an answer.
ghost use Rattle.std.specs.Prelude.{ℕ};
ghost use Rattle.store_reader.specs.CacheSums.{StatsAreAdded};
ghost use Rattle.store_reader.specs.LookLaws.{LooksAreRecent, LookUpsAreCounted, WalksLookUp};
ghost use Rattle.store_reader.specs.CallAnswers.{AnswersAreExact, SlotsDecideAnswers};
ghost use Rattle.store_reader.specs.Laws.{StoredDocumentsAreGot};
ghost use Rattle.store_reader.specs.SliceLaws.{SlicesGiveEachSlot};
ghost use Rattle.store_reader.specs.StoreTails.{TailsAreWantedOnce};
ghost use Rattle.store_reader.specs.TwoReads.{BlocksSayCounts};

use store_base::StoredDocument;

/// Blocks that are looked up one after the other take the cache through the definition's steps, and the file is read
/// once for each that isn't kept.
pub fn looks_are_recent()
    ensures { LooksAreRecent }
{}

/// An iteration has looked up the blocks that the definition says for the number of its items.
pub fn walks_look_up()
    ensures { WalksLookUp }
{}

/// Hits and misses together are the number of look-ups, while both are below their greatest value.
pub fn look_ups_are_counted()
    ensures { LookUpsAreCounted }
{}

/// What two caches did adds to the same in either order, and what three did in either grouping.
pub fn stats_are_added()
    ensures { StatsAreAdded }
{}

/// Where the slot of an id has the bytes of a document, `StoreReader::get` gives its stored form, failed reads and
/// memory aside. Documents of the versions 2 and 3 are read as version 2.
pub fn stored_documents_are_got<D: StoredDocument>()
    ensures { StoredDocumentsAreGot D.doc_bytes (D.reading 2) D.stored }
{}

/// A block of documents says the count of its checkpoint, so `StoreReader::read_document_bytes` reads no more of it
/// than the entries from the document's on and the document.
pub fn blocks_say_counts()
    ensures { BlocksSayCounts }
{}

/// The slots decide what a list of reading calls answers where no read failed and memory was found: neither the cache
/// nor its capacity, nor what was called before.
pub fn slots_decide_answers()
    ensures { SlotsDecideAnswers }
{}

/// Where no read failed and memory was found, what a list of reading calls answers is a function of the slots and the
/// calls: a document's bytes, or the refusal of the id where there is no document or it is damaged.
pub fn answers_are_exact()
    ensures { AnswersAreExact }
{}

/// What `StoreSlice::iter` gives to its end is what each slot answers, in order. An iteration that begins at a later
/// document gives what the slots from that document on answer.
pub fn slices_give_each_slot()
    ensures { SlicesGiveEachSlot }
{}

/// `StoreTail::new` wants more of a tail with a footer at most once: with as many bytes as it wants, it is not too
/// short again.
pub fn tails_are_wanted_once()
    ensures { TailsAreWantedOnce }
{}
