//! What a check of a store found, and how it is printed.

use crate::failure::{FailureCause, to_output, write_store_error};
use crate::named_numbers::{NamedNumber, add_numbers};
use docstore::StoreError;
use serde_json::{Map, Value, put};
use std::alloc::{AllocError, Global};
use std::fmt;
use store_commands::broken_part::BrokenPart;
use store_commands::checking::Verdict;
use store_commands::left_out::IdSpan;

/// In which form stores are reported.
#[derive(Clone, Copy, PartialEq, Eq)]
pub enum ReportForm {
    /// A line for each store.
    Lines,
    /// The damaged documents of a store, a range on each line.
    List,
    /// An object of JSON for each store.
    Json,
}

impl ReportForm {
    /// Whether all damaged documents are printed.
    pub fn lists_documents(self) -> bool {
        self != ReportForm::Lines
    }

    /// Whether a note follows on what is not detected.
    pub fn has_note(self) -> bool {
        self == ReportForm::Lines
    }
}

/// What is found in a store.
#[derive(Drop)]
pub enum Found {
    /// It can't be opened, because of its footer.
    Footer(StoreError),
    /// It can't be opened, because of this part.
    Part(BrokenPart),
    /// The verdict on its blocks, and the damaged documents, where they are listed.
    Blocks {
        verdict: Verdict,
        damaged: Vec<IdSpan>,
    },
}

// The texts of ranges, as values of JSON.
fn texts_of(alloc: Global, spans: &[IdSpan]) -> Result<Vec<Value>, AllocError> {
    let mut texts = Vec::new(alloc);
    for span in spans {
        texts.push(Value::String(format!(in alloc; "{span}")?))?;
    }
    Ok(texts)
}

// The line of a sound store.
fn sound_line(alloc: Global, path: &str, verdict: &Verdict) -> Result<String, AllocError> {
    let (documents, blocks) = (verdict.documents, verdict.blocks);
    let document = if documents == 1 {
        "document"
    } else {
        "documents"
    };
    let block = if blocks == 1 { "block" } else { "blocks" };
    format!(in alloc; "{path}: sound: {documents} {document} in {blocks} {block}")
}

// The counts of a verdict, as members of an object of JSON.
fn counts_of(verdict: &Verdict) -> [NamedNumber; 4] {
    [
        ("", "documents", u64::from(verdict.documents)),
        ("", "blocks", verdict.blocks),
        ("", "broken_blocks", verdict.broken_blocks),
        ("", "damaged", verdict.damaged),
    ]
}

/// What is broken first; nothing in a sound store.
impl fmt::Display for Found {
    fn fmt<W: fmt::Write>(&self, f: &mut fmt::Formatter<W>) -> fmt::Result {
        match self {
            Found::Footer(error) => {
                f.write_str("footer: ")?;
                write_store_error(f, error)
            }
            Found::Part(part) => part.fmt(f),
            Found::Blocks { verdict, .. } => match &verdict.first {
                Some(place) => place.fmt(f),
                None => Ok(()),
            },
        }
    }
}

impl Found {
    /// Whether the store is sound.
    pub fn is_sound(&self) -> bool {
        match self {
            Found::Footer(_) | Found::Part(_) => false,
            Found::Blocks { verdict, .. } => verdict.first.is_none(),
        }
    }

    // The line of a broken store.
    fn broken_line(&self, alloc: Global, path: &str) -> Result<String, AllocError> {
        let Found::Blocks { verdict, .. } = self else {
            return format!(in alloc; "{path}: broken: {self}");
        };
        let Verdict {
            documents,
            blocks,
            damaged,
            broken_blocks,
            ..
        } = *verdict;
        format!(in alloc;
            "{path}: broken: {self}; damaged: {damaged} of {documents} documents, \
             {broken_blocks} of {blocks} blocks"
        )
    }

    // The line of the store.
    fn line(&self, alloc: Global, path: &str) -> Result<String, AllocError> {
        match self {
            Found::Blocks { verdict, .. } if verdict.first.is_none() => {
                sound_line(alloc, path, verdict)
            }
            _ => self.broken_line(alloc, path),
        }
    }

    // What is broken first, as a value of JSON; null in a sound store.
    fn fault_value(&self, alloc: Global) -> Result<Value, AllocError> {
        if self.is_sound() {
            return Ok(Value::Null);
        }
        Ok(Value::String(format!(in alloc; "{self}")?))
    }

    // Adds what the object of JSON for the store has.
    fn add_members(
        &self,
        alloc: Global,
        members: &mut Map<String, Value>,
        path: &str,
    ) -> Result<(), AllocError> {
        put(members, alloc, "file", Value::try_from_str(alloc, path)?)?;
        put(members, alloc, "sound", Value::from(self.is_sound()))?;
        put(members, alloc, "fault", self.fault_value(alloc)?)?;
        if let Found::Blocks { verdict, damaged } = self {
            add_numbers(alloc, members, &counts_of(verdict))?;
            let ranges = Value::Array(texts_of(alloc, damaged)?);
            put(members, alloc, "damaged_documents", ranges)?;
        }
        Ok(())
    }

    // The object of JSON for the store.
    fn object(&self, alloc: Global, path: &str) -> Result<String, AllocError> {
        let mut members = Map::new(alloc);
        self.add_members(alloc, &mut members, path)?;
        Value::Object(members).to_string(alloc)
    }

    // Prints the damaged documents, and the line of a broken store on the standard error.
    fn print_list(&self, rt: &HostRuntime, path: &str) -> Result<(), FailureCause> {
        if let Found::Blocks { damaged, .. } = self {
            for span in damaged {
                to_output(println!(rt; "{span}"))?;
            }
        }
        if !self.is_sound() {
            let line = self.line(rt.alloc(), path)?;
            let _ = eprintln!(rt; "{line}");
        }
        Ok(())
    }

    /// Prints what was found.
    pub fn print(
        &self,
        rt: &HostRuntime,
        path: &str,
        form: ReportForm,
    ) -> Result<(), FailureCause> {
        let text = match form {
            ReportForm::Lines => self.line(rt.alloc(), path)?,
            ReportForm::List => return self.print_list(rt, path),
            ReportForm::Json => self.object(rt.alloc(), path)?,
        };
        to_output(println!(rt; "{text}"))
    }
}
