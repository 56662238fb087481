//! What a store keeps: documents, by the bytes that they write and are read from.
//!
//! A type that is stored implements `Document`. One that is also read implements `DocumentDeserialize`, and
//! `StoredDocument` if what is read is known by what was stored. Documents that are bytes already need none of these.

ghost use Rattle.std.specs.Prelude.{◌≡◌, ◌≤◌, ℕ, List, Option, Some, None, IfOk, OnOk, IsErrOf, vec_capacity};
ghost use Rattle.store_base.specs.Documents.{Appends, BeginsWith};

use crate::fault::DocFault;
use crate::schema::Schema;
use std::alloc::Global;

/// A document that can be written as bytes.
pub trait Document: Drop {
    /// The document's bytes in a schema of this many fields, if it has any.
    ghost doc_bytes: { Self → ℕ → Option (List ℕ) };

    /// Appends the document's bytes.
    ///
    /// An error may leave bytes after the old end of `out`. `Refused` comes exactly if the document has no bytes in the
    /// schema, unless memory runs out first. The capacity of `out` never falls.
    fn serialize_doc(&self, schema: &Schema, out: &mut Vec<u8>) -> Result<(), DocFault>
        ensures ok { OnOk result (Appends (doc_bytes self.now schema.now) out.old.items out.new.items) }
        ensures refused { IsErrOf result DocFault.Refused → doc_bytes self.now schema.now ≡ None }
        ensures kept { BeginsWith out.old.items out.new.items }
        ensures capacity { vec_capacity out.old ≤ vec_capacity out.new };
}

/// A document that can be read from bytes.
pub trait DocumentDeserialize: Drop {
    /// The document that bytes of a version are read as, if they are read.
    ghost reading: { ℕ → List ℕ → Option Self };

    /// Reads a document from all of the bytes. `Refused` comes exactly if they are no document, unless memory runs out
    /// first.
    fn deserialize(alloc: Global, bytes: &[u8], version: u32) -> Result<Self, DocFault>
        ensures ok { IfOk result (λ document. reading version bytes.now ≡ Some document) }
        ensures refused { IsErrOf result DocFault.Refused → reading version bytes.now ≡ None };
}

/// A document that is read again as its stored form.
pub trait StoredDocument: Document + DocumentDeserialize {
    /// What is stored of a document.
    ghost stored: { Self → Self };

    /// Reading a document's bytes as version 2 gives its stored form.
    ghost read_back: { (d : Self) (schema : ℕ) (bytes : List ℕ) → Self.doc_bytes d schema ≡ Some bytes
        → Self.reading 2 bytes ≡ Some (stored d) };
}
