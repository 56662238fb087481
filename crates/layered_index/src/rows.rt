//! The seek in the rows of a layer, from a guess on.
ghost use Rattle.std.specs.Prelude.{◌≡◌, ◌≤◌, ◌+◌, ◌-◌, ◌*◌, ℕ, List, length, map, slice_get};
ghost use Rattle.store_base.specs.Counts.{raised};
ghost use Rattle.layered_index.specs.declared.checkpoint.Checkpoint.{Checkpoint};
ghost use Rattle.layered_index.specs.Checkpoint.{IsInLineFrom, docs_end, first_past};
ghost use Rattle.layered_index.specs.Layers.{digit_count};
ghost use Rattle.layered_index.specs.Rows.{AreRowsOf, ends_in, rows_looked_at, start_in};
ghost use Rattle.layered_index.specs.Seeking.{LiesBetween, looks_to_spare};

use crate::checkpoint::Checkpoint;
use crate::looks::{SPARE_BASE, SPARE_SHARE, Steps};
use crate::row::{Row, RowEnd};
use crate::row_guide::guess;
use store_base::DocId;

// How many rows a guess and the test of it look at: the last one, that of a stretch, the next four, and the guessed one
// with the one before it. After a guess that fails two more are looked at than the seek counts.
const GUESSED: u64 = 8;

const TOLD: u64 = 2;

// Where the first checkpoint whose documents end past a target lies, and how many rows were looked at to find it.
#[derive(Clone, Copy)]
struct Between {
    low: usize,
    high: usize,
    looks: u64,
}

// How many checkpoints end up to a target, and how many rows were looked at to find that out.
#[derive(Clone, Copy)]
struct Found {
    at: usize,
    looks: u64,
}

/// Where the checkpoint at a position begins.
pub fn start_of(rows: &[Row], at: usize) -> RowEnd
    requires { at ≤ length rows.now }
    ensures { result ≡ start_in (record { end_doc = 0; end_byte = 0 }) (ends_in rows.now) at }
{
    match at.checked_sub(1) {
        Some(before) => rows[before].end(),
        None => RowEnd::ZERO,
    }
}

/// How many documents the checkpoints of these rows have.
pub fn docs_of(rows: &[Row]) -> DocId
    ensures { (cs : List Checkpoint) → AreRowsOf cs rows.now → result ≡ docs_end 0 cs }
{
    match rows.last() {
        Some(last) => last.end_doc,
        None => 0,
    }
}

// Where the answer lies, by looks where the guess is and from there on in growing steps, until the target lies between
// two looks or no look is to spare.
fn narrow_near(rows: &[Row], target: DocId, guess: usize) -> Between
    ensures order { result.low ≤ result.high }
    ensures within { result.high ≤ length rows.now }
    ensures between { (cs : List Checkpoint) → AreRowsOf cs rows.now → IsInLineFrom 0 0 cs
        → LiesBetween cs target result.low result.high }
    ensures most { result.looks + digit_count 2 (result.high - result.low)
        ≤ digit_count 2 (length rows.now) + looks_to_spare (length rows.now) }
{
    let mut low = 0;
    let mut high = rows.len();
    let mut looks: u64 = 0;
    let mut probe = guess.min(high.saturating_sub(1));
    let mut step: usize = 0;
    let mut spare = high / SPARE_SHARE;
    while spare > 0 && low <= probe && probe < high {
        spare /= SPARE_BASE;
        looks = looks.saturating_add(1);
        step = step.saturating_mul(2).max(1);
        if rows[probe].end_doc > target {
            high = probe;
            probe = probe.saturating_sub(step);
        } else {
            low = probe + 1;
            probe = probe.saturating_add(step);
        }
    }
    Between { low, high, looks }
}

// The answer, by halving what lies between.
fn halve(rows: &[Row], target: DocId, between: Between) -> Found
    requires order { between.low ≤ between.high }
    requires within { between.high ≤ length rows.now }
    ensures few { result.at ≤ length rows.now }
    ensures answer { (cs : List Checkpoint) → AreRowsOf cs rows.now → IsInLineFrom 0 0 cs
        → LiesBetween cs target between.low between.high → slice_get cs result.at ≡ first_past cs target }
    ensures most { result.looks ≤ between.looks + digit_count 2 (between.high - between.low) }
{
    let mut low = between.low;
    let mut high = between.high;
    let mut looks = between.looks;
    while low < high {
        let middle = low + (high - low) / 2;
        looks = looks.saturating_add(1);
        if rows[middle].end_doc > target {
            high = middle;
        } else {
            low = middle + 1;
        }
    }
    Found { at: low, looks }
}

// The index of the first checkpoint whose documents end past the target, or how many there are, sought from a guess on.
// A guess near the answer takes few looks. For every guess, and all rows, they are at most p for each base-p digit of
// their number, for every p from 2 on.
fn seek_near(rows: &[Row], target: DocId, guess: usize) -> Found
    ensures few { result.at ≤ length rows.now }
    ensures answer { (cs : List Checkpoint) → AreRowsOf cs rows.now → IsInLineFrom 0 0 cs
        → slice_get cs result.at ≡ first_past cs target }
    ensures most { (p : ℕ) → 2 ≤ p → result.looks ≤ p * digit_count p (length rows.now) }
{
    let between = narrow_near(rows, target, guess);
    halve(rows, target, between)
}

// The checkpoint of a row.
fn row_at(rows: &[Row], at: usize) -> Option<Checkpoint>
    ensures { (cs : List Checkpoint) → AreRowsOf cs rows.now → IsInLineFrom 0 0 cs
        → result ≡ slice_get cs at }
{
    let row = rows.get(at)?;
    let start = start_of(rows, at);
    let end = row.end();
    Some(Checkpoint {
        doc_range: start.end_doc..end.end_doc,
        byte_range: start.end_byte..end.end_byte,
    })
}

/// The first checkpoint whose documents end past the target, by rows. A guide says where it is likely to be; if it
/// isn't there, the seek goes on from there. It counts the rows that it looks at: at most 10, and p for each base-p
/// digit of their number, for every p from 2 on.
#[inline(always)]
pub fn seek_rows(rows: &[Row], target: DocId, steps: &mut Steps) -> Option<Checkpoint>
    ensures answer { (cs : List Checkpoint) → AreRowsOf cs rows.now → IsInLineFrom 0 0 cs
        → result ≡ first_past cs target }
    ensures most { (p : ℕ) → 2 ≤ p → steps.new ≤ steps.old + rows_looked_at p (length rows.now) }
    ensures least { raised steps.old 1 ≤ steps.new }
    ensures more { steps.old ≤ steps.new }
{
    let near = guess(rows, target);
    steps.add(GUESSED);
    if let Some(checkpoint) = row_at(rows, near) {
        if checkpoint.doc_range.start <= target && target < checkpoint.doc_range.end {
            return Some(checkpoint);
        }
    }
    let found = seek_near(rows, target, near);
    steps.add(found.looks.saturating_add(TOLD));
    row_at(rows, found.at)
}
