//! How far a long work is, on a terminal.

use crate::byte_size::ShortSize;
use docstore::DocId;
use std::fmt;
use std::io::IsTerminal;
use std::time::{Duration, Instant};
use store_commands::checking::BlockWatch;

// After how many documents or bytes the line is written again.
const DOCUMENTS_A_LINE: u64 = 1 << 16;

const BYTES_A_LINE: u64 = 1 << 26;

/// What is counted.
#[derive(Clone, Copy)]
pub enum Things {
    Documents,
    Records,
}

impl fmt::Display for Things {
    fn fmt<W: fmt::Write>(&self, f: &mut fmt::Formatter<W>) -> fmt::Result {
        f.write_str(match self {
            Things::Documents => "documents",
            Things::Records => "records",
        })
    }
}

/// A line on the standard error, written again as the work goes on; nothing where that is no terminal. It has at most
/// 39 columns, since the terminal's width is not known.
#[derive(Drop)]
pub struct Progress<'a> {
    rt: &'a HostRuntime,
    is_shown: bool,
    things: Things,
    begun: Option<Instant>,
    total: Option<u64>,
    documents: u64,
    bytes: u64,
    next_documents: u64,
    next_bytes: u64,
}

// A time in hours, minutes and seconds.
#[derive(Clone, Copy)]
struct ClockTime(u64);

impl fmt::Display for ClockTime {
    fn fmt<W: fmt::Write>(&self, f: &mut fmt::Formatter<W>) -> fmt::Result {
        let ClockTime(seconds) = *self;
        let (hours, minutes, seconds) = (seconds / 3600, seconds / 60 % 60, seconds % 60);
        if hours > 0 {
            write!(f, "{hours}:{minutes:02}:{seconds:02}")
        } else {
            write!(f, "{minutes}:{seconds:02}")
        }
    }
}

impl<'a> Progress<'a> {
    /// Of a work that begins now, on this many bytes, if that is known.
    pub fn begin(rt: &'a HostRuntime, is_quiet: bool, total: Option<u64>) -> Progress<'a> {
        Progress {
            rt,
            is_shown: !is_quiet && rt.stderr().is_terminal(),
            things: Things::Documents,
            begun: Instant::now(rt).ok(),
            total,
            documents: 0,
            bytes: 0,
            next_documents: DOCUMENTS_A_LINE,
            next_bytes: BYTES_A_LINE,
        }
    }

    /// The same, which counts these things.
    pub fn counting(mut self, things: Things) -> Progress<'a> {
        self.things = things;
        self
    }

    /// Whether there is anyone to see it.
    pub fn is_shown(&self) -> bool {
        self.is_shown
    }

    /// Adds documents and bytes to those that are done.
    pub fn add(&mut self, documents: u32, bytes: u64) {
        self.documents = self.documents.saturating_add(u64::from(documents));
        self.bytes = self.bytes.saturating_add(bytes);
        if self.is_shown
            && (self.documents >= self.next_documents || self.bytes >= self.next_bytes)
        {
            self.show();
        }
    }

    /// How long it took so far.
    pub fn elapsed(&self) -> Duration {
        match &self.begun {
            Some(begun) => begun.elapsed(self.rt).unwrap_or(Duration::ZERO),
            None => Duration::ZERO,
        }
    }

    // Writes the line.
    fn show(&mut self) {
        self.next_documents = self.documents.saturating_add(DOCUMENTS_A_LINE);
        self.next_bytes = self.bytes.saturating_add(BYTES_A_LINE);
        let milliseconds = self.elapsed().as_millis().max(1);
        match self.total {
            Some(total) => self.show_part(total, milliseconds),
            None => self.show_amount(milliseconds),
        }
    }

    // How many bytes were done in a second, on average.
    fn rate(&self, milliseconds: u128) -> ShortSize {
        let rate = u128::from(self.bytes) * 1000 / milliseconds.max(1);
        ShortSize(u64::try_from(rate).unwrap_or(u64::MAX))
    }

    // Writes how much is done.
    fn show_amount(&self, milliseconds: u128) {
        let (documents, things, size) = (self.documents, self.things, ShortSize(self.bytes));
        let rate = self.rate(milliseconds);
        let _ = eprint!(self.rt; "\r{documents} {things} {size} {rate}/s\x1b[K");
    }

    // Writes which part is done, and how long the rest takes at that rate.
    fn show_part(&self, total: u64, milliseconds: u128) {
        let done = self.bytes.min(total).max(1);
        let percent = u128::from(done) * 100 / u128::from(total.max(1));
        let rest = u128::from(total - self.bytes.min(total));
        let seconds = milliseconds.min(1 << 60) * rest / u128::from(done) / 1000;
        let left = ClockTime(u64::try_from(seconds.min(359_999)).unwrap_or(0));
        let (size, rate) = (ShortSize(self.bytes), self.rate(milliseconds));
        let _ = eprint!(self.rt; "\r{percent}% {left} left {size} {rate}/s\x1b[K");
    }

    /// Clears the line.
    pub fn end(&self) {
        if self.is_shown {
            let _ = eprint!(self.rt; "\r\x1b[K");
        }
    }
}

/// No clause says what is on the terminal.
impl<'a> BlockWatch for Progress<'a> {
    ghost use Rattle.std.specs.Prelude.{⊤};

    ghost adds = { λ old documents bytes new. ⊤ };

    fn add(&mut self, documents: DocId, bytes: u64) {
        Progress::add(self, documents, bytes);
    }
}
