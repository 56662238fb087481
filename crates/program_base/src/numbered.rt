//! What has documents or records with numbers, and how it prints those that words name.

ghost use Rattle.std.specs.Prelude.{OnOk};

use crate::failure::{FailureCause, to_output};
use crate::listed_numbers::ListedNumbers;
use document_framing::DocumentForm;
use std::alloc::Global;
use std::io::{Read, Write};
use store_commands::NumberRange;
use store_commands::number_range::range_of;

/// Documents of a store, or records of a log, which are printed by their numbers.
pub trait Numbered {
    ghost use Rattle.std.specs.Prelude.{ℕ, List, [], ◌∷◌, ◌++◌, Option, OnOk};
    ghost use Rattle.std.specs.Io.KnownBytes.{Keeps};
    ghost use Rattle.document_framing.specs.declared.form.DocumentForm.{DocumentForm};

    /// What an output has more where those of some ranges were printed between two states of this.
    ghost prints: { DocumentForm → List (Option ℕ × Option ℕ) → Self → Self → Option (List ℕ) → Option (List ℕ)
        → Type 0 };

    /// Prints those of a range in a form.
    fn print<W: Write>(
        &mut self,
        alloc: Global,
        form: DocumentForm,
        range: NumberRange,
        output: &mut W,
    ) -> Result<(), FailureCause>
        ensures printed { OnOk result
            (prints form (range ∷ []) self.old self.new (W.contents output.old) (W.contents output.new)) };

    /// Nothing happened, and the output was kept.
    ghost prints_none: { (form : DocumentForm) (this : Self) (old new : Option (List ℕ)) → Keeps old new
        → prints form [] this this old new };

    /// What was printed in two steps was printed.
    ghost prints_more: { (form : DocumentForm) (first next : List (Option ℕ × Option ℕ)) (old middle new : Self)
        (before between after : Option (List ℕ)) → prints form first old middle before between
        → prints form next middle new between after → prints form (first ++ next) old new before after };
}

/// Prints the documents or records of each range, one range after the other.
pub fn print_ranges<N: Numbered, W: Write>(
    alloc: Global,
    numbered: &mut N,
    form: DocumentForm,
    ranges: &[NumberRange],
    output: &mut W,
) -> Result<(), FailureCause>
    ensures { OnOk result (N.prints form ranges.now numbered.old numbered.new
        (W.contents output.old) (W.contents output.new)) }
{
    for range in ranges {
        numbered.print(alloc, form, *range, output)?;
    }
    to_output(output.flush())
}

// Prints those that a word names.
fn print_word<N: Numbered, W: Write>(
    alloc: Global,
    numbered: &mut N,
    form: DocumentForm,
    word: &str,
    output: &mut W,
) -> Result<(), FailureCause> {
    numbered.print(alloc, form, range_of(alloc, word)?, output)
}

/// Prints those that the lines of an input name. What was asked for is printed before more is waited for.
pub fn print_listed<N: Numbered, W: Write, R: Read + Drop>(
    alloc: Global,
    numbered: &mut N,
    form: DocumentForm,
    input: R,
    output: &mut W,
) -> Result<(), FailureCause> {
    let mut lines = ListedNumbers::new(alloc, input)?;
    for _ in 0..u64::MAX {
        if !lines.read()? {
            break;
        }
        if !lines.word().is_empty() {
            let printed = print_word(alloc, numbered, form, lines.word(), output);
            lines.outcome(printed)?;
        }
        if lines.is_waited_for() {
            to_output(output.flush())?;
        }
    }
    to_output(output.flush())
}
