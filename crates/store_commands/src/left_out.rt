//! The documents that `--without` leaves out, as ranges of ids.

ghost use Rattle.std.specs.Prelude.{◌≡◌, ◌<◌, ◌≤◌, ◌&&◌, ℕ, IfOk, IfErr, OnOk, IfSome, MatchOption, length};
ghost use Rattle.std.specs.Prelude.{not, nat_lt, if◌then◌else◌, ◌||◌, true, false, map};
ghost use Rattle.std.specs.List.{AllByRecursion};
ghost use Rattle.std.specs.List.Sorted.{IsNonDecreasingBy};
ghost use Rattle.store_base.specs.AliveBitSet.{is_alive_at};
ghost use Rattle.store_commands.specs.LeftOut.{is_in, is_among, AreApartFrom, parts_of, word_names, words_name};
ghost use Rattle.store_commands.specs.LeftOut.{HasId, part_names, RefusesOnePart, RefusesParts, RefusesWords};

use crate::number_range::range_of;
use crate::request_error::RequestError;
use docstore::{AliveBitSet, DocId, NoMemory};
use std::alloc::{AllocError, Global};
use std::fmt;
use std::ops::Range;

/// The ids from `start` up to `end`, which is excluded.
#[derive(Clone, Copy)]
pub struct IdSpan {
    pub start: DocId,
    pub end: DocId,
}

/// As `--without` takes it: `7`, or `3..9`.
impl fmt::Display for IdSpan {
    fn fmt<W: fmt::Write>(&self, f: &mut fmt::Formatter<W>) -> fmt::Result {
        let IdSpan { start, end } = *self;
        if end.saturating_sub(start) == 1 {
            write!(f, "{start}")
        } else {
            write!(f, "{start}..{end}")
        }
    }
}

// Adds the ids that a part of a word names, in a store of `num_docs` documents.
fn add_part(
    alloc: Global,
    spans: &mut Vec<IdSpan>,
    part: &str,
    num_docs: DocId,
) -> Result<(), RequestError>
    requires { AllByRecursion HasId spans.old.items }
    ensures added { OnOk result ((id : ℕ) → is_among spans.new.items id
        ≡ (is_among spans.old.items id || (part_names part.now id && nat_lt id num_docs))) }
    ensures filled { AllByRecursion HasId spans.new.items }
    ensures refused { IfErr result (RefusesOnePart num_docs part.now) }
{
    let Range { start, end } = range_of(alloc, part)?.among(0, u64::from(num_docs))?;
    if start < end {
        spans.push(IdSpan {
            start: start as DocId,
            end: end as DocId,
        })?;
    }
    Ok(())
}

// The parts of a word between commas.
fn parts_in<'a>(alloc: Global, word: &'a str) -> Result<Vec<&'a str>, AllocError>
    ensures { IfOk result (λ parts. map (λ part. part.now) parts.items ≡ parts_of word.entry.now) }
{
    word.split(',').collect(alloc)
}

// Adds the ids that a word names, in a store of `num_docs` documents.
fn add_spans(
    alloc: Global,
    spans: &mut Vec<IdSpan>,
    word: &str,
    num_docs: DocId,
) -> Result<(), RequestError>
    requires { AllByRecursion HasId spans.old.items }
    ensures added { OnOk result ((id : ℕ) → is_among spans.new.items id
        ≡ (is_among spans.old.items id || (word_names word.now id && nat_lt id num_docs))) }
    ensures filled { AllByRecursion HasId spans.new.items }
    ensures refused { IfErr result (RefusesParts num_docs word.now) }
{
    let parts = parts_in(alloc, word)?;
    for part in &parts {
        add_part(alloc, spans, part, num_docs)?;
    }
    Ok(())
}

// The ids that words name, in a store of `num_docs` documents, as ranges in any order.
fn spans_of(alloc: Global, words: &[&str], num_docs: DocId) -> Result<Vec<IdSpan>, RequestError>
    ensures named { IfOk result (λ spans. (id : ℕ) → is_among spans.items id
        ≡ (words_name words.now id && nat_lt id num_docs)) }
    ensures filled { IfOk result (λ spans. AllByRecursion HasId spans.items) }
    ensures refused { IfErr result (RefusesWords words.now num_docs) }
{
    let mut spans = Vec::new(alloc);
    for word in words {
        add_spans(alloc, &mut spans, word, num_docs)?;
    }
    Ok(spans)
}

// The same ids as those of ranges by their starts, by ranges that do not touch.
fn merged(alloc: Global, spans: &[IdSpan]) -> Result<Vec<IdSpan>, NoMemory>
    requires filled { AllByRecursion HasId spans.now }
    requires sorted { IsNonDecreasingBy (λ span. span.start) spans.now }
    ensures same { IfOk result (λ merged. (id : ℕ) → is_among merged.items id ≡ is_among spans.now id) }
    ensures apart { IfOk result (λ merged. AreApartFrom 0 merged.items) }
{
    let mut merged = Vec::new(alloc);
    let Some((first, others)) = spans.split_first() else {
        return Ok(merged);
    };
    let mut last = *first;
    for span in others {
        if span.start <= last.end {
            last.end = last.end.max(span.end);
        } else {
            merged.push(last)?;
            last = *span;
        }
    }
    merged.push(last)?;
    Ok(merged)
}

/// The same ids as those of ranges in any order, by ranges in order that do not touch.
pub fn in_order(alloc: Global, mut spans: Vec<IdSpan>) -> Result<Vec<IdSpan>, NoMemory>
    requires { AllByRecursion HasId spans.items }
    ensures same { IfOk result (λ merged. (id : ℕ) → is_among merged.items id ≡ is_among spans.items id) }
    ensures apart { IfOk result (λ merged. AreApartFrom 0 merged.items) }
{
    spans.sort_unstable_by_key(|span| span.start);
    merged(alloc, &spans)
}

/// The ids of both, by ranges in order that do not touch.
pub fn joined(alloc: Global, some: &[IdSpan], others: &[IdSpan]) -> Result<Vec<IdSpan>, NoMemory>
    requires some { AreApartFrom 0 some.now }
    requires others { AreApartFrom 0 others.now }
    ensures both { IfOk result (λ spans. (id : ℕ) → is_among spans.items id
        ≡ (is_among some.now id || is_among others.now id)) }
    ensures apart { IfOk result (λ spans. AreApartFrom 0 spans.items) }
{
    let mut spans = Vec::new(alloc);
    spans.extend_from_slice(some)?;
    spans.extend_from_slice(others)?;
    in_order(alloc, spans)
}

/// The documents that words leave out of a store of `num_docs` documents: exactly the ids that one of the words names,
/// as ranges in order that do not touch.
pub fn left_out(alloc: Global, words: &[&str], num_docs: DocId) -> Result<Vec<IdSpan>, RequestError>
    ensures named { IfOk result (λ spans. (id : ℕ) → is_among spans.items id
        ≡ (words_name words.now id && nat_lt id num_docs)) }
    ensures apart { IfOk result (λ spans. AreApartFrom 0 spans.items) }
    ensures refused { IfErr result (RefusesWords words.now num_docs) }
{
    let spans = spans_of(alloc, words, num_docs)?;
    Ok(in_order(alloc, spans)?)
}

/// The range that has this id, if there is one.
pub fn span_with(spans: &[IdSpan], doc_id: DocId) -> Option<IdSpan>
    requires { AreApartFrom 0 spans.now }
    ensures has { MatchOption result (is_among spans.now doc_id ≡ false) (λ span. is_in span doc_id ≡ true) }
    ensures among { IfSome result (λ span. (k : ℕ) → is_in span k ≡ true → is_among spans.now k ≡ true) }
{
    let place = spans.partition_point(|span| span.end <= doc_id);
    let span = *spans.get(place)?;
    if doc_id < span.start {
        return None;
    }
    Some(span)
}

// Deletes the documents of a range.
fn delete_span(set: &mut AliveBitSet, span: IdSpan)
    ensures len { length set.new ≡ length set.old }
    ensures each { (k : ℕ) → is_alive_at set.new k
        ≡ (if is_in span k then false else is_alive_at set.old k) }
{
    for doc_id in span.start..span.end {
        set.delete(doc_id);
    }
}

/// All of `num_docs` documents but those of the ranges.
pub fn alive_without(
    alloc: Global,
    spans: &[IdSpan],
    num_docs: DocId,
) -> Result<AliveBitSet, NoMemory>
    ensures len { IfOk result (λ set. length set ≡ num_docs) }
    ensures each { IfOk result (λ set. (id : ℕ) → id < num_docs
        → is_alive_at set id ≡ not (is_among spans.now id)) }
{
    let mut set = AliveBitSet::all(alloc, num_docs)?;
    for span in spans {
        delete_span(&mut set, *span);
    }
    Ok(set)
}
