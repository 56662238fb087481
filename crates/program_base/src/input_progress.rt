//! How far the documents of inputs are, on a terminal.

use crate::input_files::{note_terminal, total_bytes};
use crate::progress::{Progress, Things};
use document_framing::{FeedProgress, Framing};

/// A line that counts the documents of inputs, and their bytes with those that delimit them.
#[derive(Drop)]
pub struct InputProgress<'a> {
    pub line: Progress<'a>,
    framing_bytes: u64,
}

// How many bytes of an input delimit a document.
fn framing_bytes(framing: Framing) -> u64 {
    match framing {
        Framing::Lines | Framing::Nul => 1,
        Framing::Lengths => 4,
        Framing::Text | Framing::Files => 0,
    }
}

impl<'a> InputProgress<'a> {
    /// Of the documents or records in the inputs of these paths, from now on. Where the line is shown and the terminal
    /// is one of the inputs, it is said that they are read from there.
    pub fn begin(
        rt: &'a HostRuntime,
        is_quiet: bool,
        things: Things,
        framing: Framing,
        paths: &[&str],
    ) -> InputProgress<'a> {
        let line = Progress::begin(rt, is_quiet, total_bytes(rt, paths)).counting(things);
        if line.is_shown() {
            note_terminal(rt, paths, things);
        }
        InputProgress {
            line,
            framing_bytes: framing_bytes(framing),
        }
    }
}

impl<'a> FeedProgress for InputProgress<'a> {
    fn note(&mut self, len: usize) {
        let bytes = (len as u64).saturating_add(self.framing_bytes);
        self.line.add(1, bytes);
    }
}
