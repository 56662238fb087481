//! Ranges of documents or records by their numbers, as arguments give them.

ghost use Rattle.std.specs.Prelude.{◌≡◌, ◌<◌, ◌≤◌, ◌&&◌, ℕ, IfOk, IfErr, OnOk, Some, true, map, Any};
ghost use Rattle.std.specs.Option.{option_map};
ghost use Rattle.store_commands.specs.NumberRanges.{names, is_within, is_forward, IsFirstMissing, RefusesRange};
ghost use Rattle.store_commands.specs.NumberRanges.{number_named, around_dots, bound_named, range_named, RefusesWord};

use crate::request_error::RequestError;
use std::alloc::Global;
use std::marker::Model;
use std::ops::Range;

/// A range of numbers. Without a start it begins at the first number that is there, and without an end it reaches to
/// the last one.
#[derive(Clone, Copy)]
pub struct NumberRange {
    start: Option<u64>,
    end: Option<u64>,
}

/// Clauses see the start and the end.
impl Model for NumberRange {
    ghost use Rattle.std.specs.Prelude.{ℕ, Option};

    ghost Value = { Option ℕ × Option ℕ };

    ghost view = { λ range. (range.start, range.end) };

    ghost inverse = { λ value. record { start = value.0; end = value.1 } };
}

// The number that a text spells.
fn number_in(text: &str) -> Option<u64>
    ensures { result ≡ number_named text.now }
{
    text.parse::<u64>().ok()
}

// The texts before and after the first `..` of a word.
fn split_at_dots<'a>(word: &'a str) -> Option<(&'a str, &'a str)>
    ensures { option_map (λ x. (x.0.now, x.1.now)) result ≡ around_dots word.entry.now }
{
    word.split_once("..")
}

// The bound that the text on one side of `..` names; `Some(None)` where there is none.
fn bound_in(text: &str) -> Option<Option<u64>>
    ensures { result ≡ bound_named text.now }
{
    if text.is_empty() {
        return Some(None);
    }
    let number = number_in(text)?;
    Some(Some(number))
}

impl NumberRange {
    // The range that a word like `7`, `3..9`, `5..` or `..9` names. The end is excluded.
    fn from_word(word: &str) -> Option<NumberRange>
        ensures { result ≡ range_named word.now }
    {
        let Some((before, after)) = split_at_dots(word) else {
            let number = number_in(word)?;
            let (start, end) = (Some(number), Some(number.checked_add(1)?));
            return Some(NumberRange { start, end });
        };
        let start = bound_in(before)?;
        let end = bound_in(after)?;
        Some(NumberRange { start, end })
    }

    // Whether it does not end before it begins.
    fn is_forward(self) -> bool
        ensures { result ≡ is_forward self }
    {
        match (self.start, self.end) {
            (Some(start), Some(end)) => start <= end,
            _ => true,
        }
    }

    /// The numbers of it where those from `first` to before `end` are there. A range that names another number is
    /// refused, with the first such one; where it has no end, no number past the last one is named.
    pub fn among(self, first: u64, end: u64) -> Result<Range<u64>, RequestError>
        ensures numbers { IfOk result (λ numbers. (k : ℕ) → is_within numbers k
            ≡ (names first self k && is_within (record { start = first; end = end }) k)) }
        ensures forward { IfOk result (λ numbers. numbers.start ≤ numbers.end) }
        ensures within { IfOk result (λ numbers. numbers.start < numbers.end
            → (first ≤ numbers.start) × (numbers.end ≤ end)) }
        ensures found { first ≤ end → OnOk result ((k : ℕ) → IsFirstMissing self first end k → ⊥) }
        ensures missing { IfErr result (RefusesRange self first end) }
    {
        let from = self.start.unwrap_or(first);
        let to = self.end.unwrap_or(end).max(from);
        if from < to && (from < first || to > end) {
            let number = if from < first { from } else { end.max(from) };
            return Err(RequestError::NoDocument { number, first, end });
        }
        Ok(from..to)
    }
}

/// The range that a word names. One that ends before it begins is refused.
pub fn range_of(alloc: Global, word: &str) -> Result<NumberRange, RequestError>
    ensures named { IfOk result (λ range. range_named word.now ≡ Some range) }
    ensures forward { IfOk result (λ range. is_forward range ≡ true) }
    ensures refused { IfErr result (RefusesWord word.now) }
{
    let text = match NumberRange::from_word(word) {
        Some(range) if range.is_forward() => return Ok(range),
        Some(_) => format!(in alloc; "'{word}' ends before it begins")?,
        None => format!(in alloc; "'{word}' is not a number or a range")?,
    };
    Err(RequestError::NoRange(text))
}

/// The ranges that words name, in order.
pub fn ranges_of(alloc: Global, words: &[&str]) -> Result<Vec<NumberRange>, RequestError>
    ensures named { IfOk result (λ ranges. map (λ word. range_named word.now) words.now ≡ map Some ranges.items) }
    ensures refused { IfErr result (λ e. Any (λ word. RefusesWord word.now e) words.now) }
{
    let mut ranges = Vec::new(alloc);
    for word in words {
        ranges.push(range_of(alloc, word)?)?;
    }
    Ok(ranges)
}
