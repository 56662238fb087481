//! The numbers of records in an output, one on each line.

ghost use Rattle.std.specs.Prelude.{◌≡◌, ◌-◌, false, None, IfSome, option_and_then};
ghost use Rattle.framed_logs.specs.Printed.{Prints, number_lines};

use crate::writing::print_lines;
use std::io;
use std::io::Write;
use std::marker::Model;

/// An output in which the numbers of records are printed, if they are, one on each line. After a print that failed it
/// prints no more.
#[derive(Drop)]
pub struct NumberLines<W: Write> {
    output: Option<W>,
    // Why a print failed.
    failure: Option<io::Error>,
}

/// Clauses see the bytes of the output, where they are known, and whether a print has failed.
impl<W: Write> Model for NumberLines<W> {
    ghost use Rattle.std.specs.Prelude.{option_and_then, is_some};
    ghost use Rattle.framed_logs.specs.Printed.{Printed};

    ghost Value = { Printed };

    ghost view = { λ n. record {
      bytes = option_and_then W.contents n.output;
      failed = is_some n.failure;
    } };
}

impl<W: Write> NumberLines<W> {
    /// Of this output, or of none.
    pub fn new(output: Option<W>) -> NumberLines<W>
        ensures bytes { result.bytes ≡ option_and_then W.contents output }
        ensures works { result.failed ≡ false }
    {
        NumberLines {
            output,
            failure: None,
        }
    }

    // Prints the numbers from this one to before that one, unless a print has failed.
    pub(crate) fn print(&mut self, from: u64, to: u64)
        ensures { Prints self.old self.new (number_lines from (to - from)) }
    {
        if self.failure.is_some() {
            return;
        }
        let Some(output) = &mut self.output else {
            return;
        };
        if let Err(error) = print_lines(output, from, to) {
            self.failure = Some(error);
        }
    }

    // Takes why a print failed, if one has.
    pub(crate) fn take_failure(&mut self) -> Option<io::Error>
        ensures bytes { self.new.bytes ≡ self.old.bytes }
        ensures whole { result ≡ None → self.old.failed ≡ false }
    {
        self.failure.take()
    }
}
