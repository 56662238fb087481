//! Which documents of a store are merged, where `--without` leaves some out.

ghost use Rattle.std.specs.Prelude.{◌≡◌, ◌<◌, ◌*◌, IfOk, IfErr, IfSome, length};
ghost use Rattle.store_merge.specs.Inputs.{HasWholeSet};
ghost use Rattle.store_reader.specs.Reading.{num_docs, store_of};
ghost use Rattle.store_format.specs.Slots.{slots};
ghost use Rattle.store_commands.specs.Merging.{KeepsDocuments, RefusesSet, bytes_of};

use crate::left_out::{alive_without, left_out};
use crate::request_error::RequestError;
use docstore::{AliveBitSet, DocId, FileHandle, StoreReader};
use std::alloc::Global;
use store_merge::MergeInput;

/// The documents that are kept where words leave some out, in a store of `num_docs` documents whose blocks and index
/// have `bytes` bytes. Returns `None` if there are no words, and all are kept. A store with eight documents for each
/// byte, or more, is refused before a set is made.
pub fn kept_of(
    alloc: Global,
    num_docs: DocId,
    bytes: u64,
    words: &[&str],
) -> Result<Option<AliveBitSet>, RequestError>
    ensures kept { IfOk result (KeepsDocuments words.now num_docs) }
    ensures few { IfOk result (λ kept. IfSome kept (λ _. 0 < num_docs → num_docs < 8 * bytes)) }
    ensures refused { IfErr result (RefusesSet words.now num_docs bytes) }
{
    if words.is_empty() {
        return Ok(None);
    }
    let spans = left_out(alloc, words, num_docs)?;
    if u64::from(num_docs) / 8 >= bytes && num_docs > 0 {
        return Err(RequestError::TooManyDocuments { num_docs, bytes });
    }
    Ok(Some(alive_without(alloc, &spans, num_docs)?))
}

/// A store as one that is merged, without the documents that words leave out.
pub fn input_without<H: FileHandle>(
    alloc: Global,
    reader: StoreReader<H>,
    words: &[&str],
) -> Result<MergeInput<H>, RequestError>
    ensures whole { IfOk result HasWholeSet }
    ensures reader { IfOk result (λ input. input.reader ≡ reader) }
    ensures kept { IfOk result (λ input. KeepsDocuments words.now (num_docs reader) input.alive) }
    ensures slots { num_docs reader ≡ length (slots (store_of reader)) }
    ensures refused { IfErr result (RefusesSet words.now (num_docs reader) (bytes_of reader)) }
{
    let bytes = reader.space_usage().total();
    let alive = kept_of(alloc, reader.num_docs(), bytes, words)?;
    Ok(MergeInput { reader, alive })
}
