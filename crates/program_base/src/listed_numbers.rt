//! Numbers that are read from the standard input, a number or a range on each line.

use crate::failure::FailureCause;
use std::alloc::Global;
use std::io;
use std::io::{BufRead, BufReader, Read};

// What a failed read of the line of this number means.
fn unread_line(alloc: Global, number: u64, error: io::Error) -> FailureCause {
    if error.kind() != io::ErrorKind::InvalidData {
        return FailureCause::System(error);
    }
    match String::from_str(alloc, "it is not UTF-8") {
        Ok(text) => FailureCause::Line { number, text },
        Err(error) => FailureCause::from(error),
    }
}

/// Whether words are the one that says that numbers are in the standard input.
pub fn is_listed(words: &[&str]) -> bool {
    matches!(words, ["-"])
}

/// The words on the lines of an input, each a number or a range, or none.
#[derive(Drop)]
pub struct ListedNumbers<R: Read + Drop> {
    alloc: Global,
    input: Box<BufReader<R>>,
    line: String,
    // That of the line that was read last, from 1 on.
    number: u64,
}

impl<R: Read + Drop> ListedNumbers<R> {
    /// Those of this input.
    pub fn new(alloc: Global, input: R) -> Result<ListedNumbers<R>, FailureCause> {
        Ok(ListedNumbers {
            alloc,
            input: Box::new(alloc, BufReader::new(alloc, input)?)?,
            line: String::new(alloc),
            number: 0,
        })
    }

    /// Reads the next line, and returns whether there is one.
    pub fn read(&mut self) -> Result<bool, FailureCause> {
        self.number = self.number.saturating_add(1);
        self.line.clear();
        match self.input.read_line(&mut self.line) {
            Ok(length) => Ok(length > 0),
            Err(error) => Err(unread_line(self.alloc, self.number, error)),
        }
    }

    /// The word on the line that was read last; no text where there is none.
    pub fn word(&self) -> &str {
        self.line.as_str().trim()
    }

    /// Whether the next line has to be waited for.
    pub fn is_waited_for(&self) -> bool {
        self.input.buffer().is_empty()
    }

    /// What printing the word gave: where the word is wrong its line is named.
    pub fn outcome(&self, printed: Result<(), FailureCause>) -> Result<(), FailureCause> {
        match printed {
            Err(FailureCause::Words(text)) => Err(FailureCause::Line {
                number: self.number,
                text,
            }),
            printed => printed,
        }
    }
}
