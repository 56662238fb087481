//! The file that a command writes: what it may replace, and that it is no input.

use crate::arguments::{output_path, wrong_words};
use crate::failure::{Failure, FailureCause, with_file};
use clap::ArgMatches;
use std::alloc::Global;
use std::fs;
use std::os::unix::fs::MetadataExt;
use store_files::{CreateError, DiskFolder, SystemFiles};
use store_folder::Publication;

// The file that is open as the standard input.
const STANDARD_INPUT: &str = "/dev/stdin";

/// An output on disk, which takes its name only once it is whole.
pub type FileOutput<S> = Publication<DiskFolder<S>>;

/// The file that a command writes.
#[derive(Clone, Copy)]
pub struct OutputPath<'a> {
    pub path: &'a str,
    /// Whether a file that has the name is replaced, whatever it holds. If not, it is refused.
    pub replaces: bool,
}

/// The file that the words of a command name as its output.
pub fn output_of<'a>(
    alloc: Global,
    matches: &ArgMatches<'a>,
) -> Result<OutputPath<'a>, FailureCause> {
    Ok(OutputPath {
        path: output_path(alloc, matches)?,
        replaces: matches.get_flag("replace"),
    })
}

// What the plain file of this name is, if there is one: the numbers of its device and of the file on it.
fn plain_file_at(rt: &HostRuntime, path: &str) -> Option<(u64, u64)> {
    let found = fs::metadata(rt, path).ok()?;
    found.is_file().then_some((found.dev(), found.ino()))
}

impl<'a> OutputPath<'a> {
    /// Refuses `-`, the standard output, by this text: an output takes its name at its end, so it has to be a file.
    pub fn check_name(self, alloc: Global, refusal: &str) -> Result<(), FailureCause> {
        if self.path == "-" {
            return Err(wrong_words(alloc, refusal, self.path));
        }
        Ok(())
    }

    // What the file beside is, to which the output goes until it is whole, if there is one.
    fn beside(self, rt: &HostRuntime) -> Result<Option<(u64, u64)>, FailureCause> {
        let target = fs::canonicalize(rt, self.path);
        let path = match &target {
            Ok(target) => target.as_str(),
            Err(_) => self.path,
        };
        let beside = format!(in rt.alloc(); "{path}.part")?;
        Ok(plain_file_at(rt, beside.as_str()))
    }

    /// Fails if one of the inputs, of which `-` is the standard input, is the file that is written or the one beside,
    /// also through links.
    pub fn check_inputs(self, rt: &HostRuntime, inputs: &[&str]) -> Result<(), Failure> {
        let output = plain_file_at(rt, self.path);
        let beside = with_file(rt.alloc(), self.path, self.beside(rt))?;
        for input in inputs {
            let path = if *input == "-" {
                STANDARD_INPUT
            } else {
                *input
            };
            let found = plain_file_at(rt, path);
            if found.is_some() && (found == output || found == beside) {
                return Err(Failure::at_file(rt.alloc(), input, FailureCause::InputIsOutput));
            }
        }
        Ok(())
    }

    /// The folder in which it is written, and the name that links lead to.
    pub fn folder<S: SystemFiles>(
        self,
        alloc: Global,
        system: S,
    ) -> Result<(DiskFolder<S>, String), CreateError> {
        if self.replaces {
            return DiskFolder::of_file(alloc, system, self.path);
        }
        DiskFolder::of_new_file(alloc, system, self.path)
    }

    /// The output itself, of nothing yet.
    pub fn sink<S: SystemFiles>(
        self,
        alloc: Global,
        system: S,
    ) -> Result<FileOutput<S>, CreateError> {
        let (folder, name) = self.folder(alloc, system)?;
        match Publication::create(alloc, folder, name.as_str()) {
            Ok(output) => Ok(output),
            Err((error, _)) => Err(CreateError::System(error)),
        }
    }
}
