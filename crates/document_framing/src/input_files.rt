//! The calls of a system by which inputs are read in order.

ghost use Rattle.std.specs.Prelude.{◌≡◌, IfOk, Option};
ghost use Rattle.std.specs.Option.{option_map};
ghost use Rattle.document_framing.specs.Inputs.{Readable, IsFileAt, IsStandard, with_spent_standard};

use std::fs::File;
use std::io::{Input, Read};
use std::{fs, io};

/// The word that names the standard input.
pub const STANDARD_INPUT: &str = "-";

// Its path.
const STANDARD_INPUT_PATH: &str = "/dev/stdin";

/// The calls of a system by which inputs are read in order: files by their paths, and the standard input.
pub trait InputFiles {
    /// What reads an input.
    type Input: Read + Drop;

    /// What the inputs hold, where that is known: of a real system no contract knows it.
    ghost holds: { Self → Option Readable };

    /// Opens a file that is there: `open`.
    fn open(&self, path: &str) -> io::Result<Self::Input>
        ensures { IfOk result (λ input. IsFileAt (holds self.now) path.now (Self.Input.remaining input)) };

    /// The standard input: the first call gives all that is left of it.
    fn standard_input(&mut self) -> Self::Input
        ensures given { IsStandard (holds self.old) (Self.Input.remaining result) }
        ensures left { holds self.new ≡ option_map with_spent_standard (holds self.old) };

    /// Whether all of an input is there already, so that it is never waited for: `stat`.
    fn is_plain(&self, path: &str) -> bool;
}

/// The inputs of the operating system. Nothing is claimed of what they hold.
#[derive(Clone, Copy)]
pub struct HostInputs<'a> {
    pub rt: &'a HostRuntime,
}

/// An input of the operating system.
#[derive(Drop)]
pub enum HostInput {
    File(File),
    Standard(<HostRuntime as Input>::Reader),
}

impl Read for HostInput {
    fn read(&mut self, buf: &mut [u8]) -> io::Result<usize> {
        match self {
            HostInput::File(file) => file.read(buf),
            HostInput::Standard(input) => input.read(buf),
        }
    }
}

impl<'a> InputFiles for HostInputs<'a> {
    ghost use Rattle.std.specs.Prelude.{None};

    type Input = HostInput;

    ghost holds = { λ _. None };

    fn open(&self, path: &str) -> io::Result<HostInput> {
        Ok(HostInput::File(File::open(self.rt, path)?))
    }

    fn standard_input(&mut self) -> HostInput {
        HostInput::Standard(self.rt.reader())
    }

    fn is_plain(&self, path: &str) -> bool {
        let path = if path == STANDARD_INPUT {
            STANDARD_INPUT_PATH
        } else {
            path
        };
        match fs::metadata(self.rt, path) {
            Ok(found) => found.is_file(),
            Err(_) => false,
        }
    }
}
