//! About where rows have a document. A seek begins there, and no answer depends on it.
ghost use Rattle.std.specs.Prelude.{◌≡◌, ◌<◌};
ghost use Rattle.layered_index.specs.Rows.{ends_in};

use crate::row::Row;
use crate::rows::docs_of;
use store_base::DocId;

// How many rows a guess looks at. A stretch has fewer checkpoints on the average, or as many.
const FEW: usize = 4;

// The documents are parted into stretches of equally many, a power of two: fewer stretches than there are rows, and at
// least a quarter of that. The exponent says how many documents a stretch has.
fn stretch_exponent(rows: usize, docs: DocId) -> u32
    ensures { result < 32 }
{
    let doc_digits = u32::BITS - docs.leading_zeros();
    let row_digits = usize::BITS - rows.leading_zeros();
    (doc_digits + 1)
        .saturating_sub(row_digits)
        .min(u32::BITS - 1)
}

// How many checkpoints end before a document or with it, where `known` are known to.
fn ends_before(rows: &[Row], known: usize, doc: u64) -> usize {
    let mut count = known;
    while count < rows.len() && u64::from(rows[count].end_doc) <= doc {
        count += 1;
    }
    count
}

/// Writes the guide of each row: how many checkpoints end before the stretch with its index, or with its first
/// document.
pub fn write_guides(rows: &mut [Row])
    ensures { ends_in rows.new ≡ ends_in rows.old }
{
    let exponent = stretch_exponent(rows.len(), docs_of(rows));
    let mut count = 0;
    for stretch in 0..rows.len() {
        count = ends_before(rows, count, (stretch as u64) << exponent);
        rows[stretch].guide = u32::try_from(count).unwrap_or(0);
    }
}

// How many checkpoints end before a document, if all have equally many.
fn even_share(rows: usize, docs: DocId, doc: DocId) -> usize {
    let share = u64::from(doc).saturating_mul(rows as u64) / u64::from(docs.max(1));
    share as usize
}

// How many checkpoints end before a document at least: so the guide of its stretch says. Where there is none, they are
// one fewer than an even share.
fn known_before(rows: &[Row], doc: DocId) -> usize {
    let docs = docs_of(rows);
    let stretch = doc >> stretch_exponent(rows.len(), docs);
    match rows.get(stretch as usize) {
        Some(row) if row.guide > 0 || stretch == 0 => row.guide as usize,
        _ => even_share(rows.len(), docs, doc).saturating_sub(1),
    }
}

/// About how many checkpoints end before a document: those that do so at least, and those of the next few rows. That
/// these are all looked at costs less than to foresee wrongly which is the last.
pub(crate) fn guess(rows: &[Row], doc: DocId) -> usize {
    let known = known_before(rows, doc);
    let rest = rows.get(known..).unwrap_or(&[]);
    let Some(few) = rest.get(..FEW) else {
        return known;
    };
    let mut count = known;
    for row in few {
        count = count.wrapping_add(usize::from(row.end_doc <= doc));
    }
    count
}
