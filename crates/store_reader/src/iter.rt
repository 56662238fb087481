//! Iterations over the documents that a reader has. `Items` is the iterator, and its `Walk` is its position. Those of
//! slices are in `slice_documents`.
ghost use Rattle.std.specs.Prelude.{◌≡◌};
ghost use Rattle.store_reader.specs.Walking.{set_of, set_in};

use crate::document_reading::read_document;
use crate::reader::StoreReader;
use crate::walk::{DocWalk, Walk, answer_of, walk_on};
use std::alloc::Global;
use store_base::{AliveBitSet, DocumentDeserialize, FileHandle, OwnedBytes, StoreError};

/// An iterator over the documents of a store that are alive, in the order of the ids.
///
/// It holds its current block once, and takes no memory but a share of it for each document. A block whose read failed
/// is not read again: each of its documents is answered by that refusal. The live set is a slice of one set or none,
/// and the walk a type of its own, so that a caller who drops an iterator knows how it left the reader.
pub struct Items<'a, H: FileHandle, W: Drop> {
    pub(crate) reader: &'a mut StoreReader<H>,
    pub(crate) alloc: Global,
    pub(crate) alive: &'a [AliveBitSet],
    pub(crate) walk: W,
}

/// The bytes of each document that is alive, in the order of the ids.
pub type RawIter<'a, H> = Items<'a, H, Walk>;

/// Each document that is alive, in the order of the ids.
pub type DocIter<'a, H, D> = Items<'a, H, DocWalk<D>>;

/// The reader is as the last call left it.
impl<'a, H: FileHandle, W: Drop> Drop for Items<'a, H, W> {
    fn drop(self)
        ensures { self.exit.0.now ≡ self.entry.reader.now }
    {
        let Items {
            reader: _reader,
            alloc: _,
            alive: _,
            walk: _walk,
        } = self;
    }
}

// A set or none, as a slice.
pub(crate) fn sets_of<'a>(alive: Option<&'a AliveBitSet>) -> &'a [AliveBitSet]
    ensures { set_in result.now ≡ set_of alive.entry }
{
    match alive {
        Some(alive) => std::slice::from_ref(alive),
        None => &[],
    }
}

impl<'a, H: FileHandle> Iterator for Items<'a, H, Walk> {
    ghost use Rattle.std.specs.Prelude.{◌≡◌, ◌-◌};
    ghost use Rattle.std.specs.Iterator.{at_most};
    ghost use Rattle.store_reader.specs.Reading.{num_docs};
    ghost use Rattle.store_reader.specs.Walking.{set_in, IsWalk, GivesNext};

    type Item = Result<OwnedBytes, StoreError>;

    ghost can_next = { λ s. IsWalk s.reader.now s.walk };

    ghost remaining = { λ s. at_most (num_docs s.reader.now - s.walk.next) };

    ghost next_gives = { λ s r t. GivesNext (set_in s.alive.now) s.reader.now s.walk r t.reader.now t.walk
        × (t.alive ≡ s.alive) × (t.reader.ghost_name ≡ s.reader.ghost_name) };

    fn next(&mut self) -> Option<Result<OwnedBytes, StoreError>> {
        let doc_id = walk_on(self.reader, self.alloc, self.alive, &mut self.walk)?;
        Some(answer_of(&self.walk, doc_id))
    }
}

impl<'a, H: FileHandle, D: DocumentDeserialize> Iterator for Items<'a, H, DocWalk<D>> {
    ghost use Rattle.std.specs.Prelude.{◌≡◌, ◌-◌};
    ghost use Rattle.std.specs.Iterator.{at_most};
    ghost use Rattle.store_reader.specs.Documents.{document_version};
    ghost use Rattle.store_reader.specs.Reading.{num_docs};
    ghost use Rattle.store_reader.specs.Walking.{set_in, IsWalk, GivesDocument};

    type Item = Result<D, StoreError>;

    ghost can_next = { λ s. IsWalk s.reader.now s.walk.raw };

    ghost remaining = { λ s. at_most (num_docs s.reader.now - s.walk.raw.next) };

    ghost next_gives = { λ s r t. GivesDocument (D.reading (document_version s.reader.now.version))
        (set_in s.alive.now) s.reader.now s.walk.raw r t.reader.now t.walk.raw
        × (t.alive ≡ s.alive) × (t.reader.ghost_name ≡ s.reader.ghost_name) };

    fn next(&mut self) -> Option<Result<D, StoreError>> {
        let version = self.reader.version();
        let doc_id = walk_on(self.reader, self.alloc, self.alive, &mut self.walk.raw)?;
        let bytes = answer_of(&self.walk.raw, doc_id);
        Some(read_document(self.alloc, version, bytes))
    }
}
