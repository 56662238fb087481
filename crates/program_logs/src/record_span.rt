//! Records that follow one another.

use std::fmt;
use std::fmt::Display;

/// The records from a number to before another one.
#[derive(Clone, Copy)]
pub struct RecordSpan {
    pub from: u64,
    pub to: u64,
}

impl RecordSpan {
    /// How many they are.
    pub fn count(self) -> u64 {
        self.to.saturating_sub(self.from)
    }
}

impl Display for RecordSpan {
    fn fmt<W: fmt::Write>(&self, f: &mut fmt::Formatter<W>) -> fmt::Result {
        let (from, last) = (self.from, self.to.saturating_sub(1));
        match self.count() {
            0 => f.write_str("0 records"),
            1 => write!(f, "1 record, number {from}"),
            count => write!(f, "{count} records, numbers {from} to {last}"),
        }
    }
}
