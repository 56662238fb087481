//! An output on disk that takes its name only once it is whole.

ghost use Rattle.std.specs.Prelude.{◌≡◌, [], length, IfOk};
ghost use Rattle.store_base.specs.Outputs.{never_terminated};

use crate::create_error::CreateError;
use crate::disk_folder::DiskFolder;
use crate::system_files::SystemFiles;
use std::alloc::Global;
use std::io;
use std::marker::Model;
use store_base::{TerminatingWrite, WriteFault};
use store_folder::Publication;

/// An output on disk. Its bytes go to a file beside the one of its name. A `terminate` that returns Ok has synced them
/// and renamed the file beside to the name: so a crash leaves the file of that name as it was, or whole. After its
/// end, and after a failed call of the system, it refuses every call. If it is dropped before it has the name, it
/// removes the file beside. The order of its calls is that of `Publication`, and what a call of its folder does that of
/// `DiskFolder`.
#[derive(Drop)]
pub struct DiskSink<S: SystemFiles> {
    output: Publication<DiskFolder<S>>,
}

/// Clauses see what was written, its ends, and how often a call failed.
impl<S: SystemFiles> Model for DiskSink<S> {
    ghost use Rattle.store_base.specs.Outputs.{Output};

    ghost Value = { Output };

    ghost view = { λ s. record {
      content = s.output.content;
      termination = s.output.termination;
      failures = s.output.failures;
    } };
}

impl<S: SystemFiles> DiskSink<S> {
    // An output of nothing yet for a file of this name in its folder.
    fn begin(alloc: Global, folder: DiskFolder<S>, name: &str) -> Result<DiskSink<S>, CreateError>
        ensures content { IfOk result (λ s. s.content ≡ []) }
        ensures termination { IfOk result (λ s. s.termination ≡ never_terminated) }
        ensures failures { IfOk result (λ s. s.failures ≡ 0) }
    {
        match Publication::create(alloc, folder, name) {
            Ok(output) => Ok(DiskSink { output }),
            Err((error, _)) => Err(CreateError::System(error)),
        }
    }

    /// An output of nothing yet, for a file of this name; links are followed. The file beside has `.part` after the
    /// name: one that a crash left is taken over, and one that another writes is refused. Only a plain file is
    /// replaced; its mode is kept, and its owner where the system lets us. The folder is opened, and synced at the end.
    pub fn create(alloc: Global, system: S, path: &str) -> Result<DiskSink<S>, CreateError>
        ensures content { IfOk result (λ s. s.content ≡ []) }
        ensures termination { IfOk result (λ s. s.termination ≡ never_terminated) }
        ensures failures { IfOk result (λ s. s.failures ≡ 0) }
    {
        let (folder, name) = DiskFolder::of_file(alloc, system, path)?;
        DiskSink::begin(alloc, folder, name.as_str())
    }

    /// The same for a file that may not replace another: one that has the name is refused, and again if it came before
    /// the output's end.
    pub fn create_new(alloc: Global, system: S, path: &str) -> Result<DiskSink<S>, CreateError>
        ensures content { IfOk result (λ s. s.content ≡ []) }
        ensures termination { IfOk result (λ s. s.termination ≡ never_terminated) }
        ensures failures { IfOk result (λ s. s.failures ≡ 0) }
    {
        let (folder, name) = DiskFolder::of_new_file(alloc, system, path)?;
        DiskSink::begin(alloc, folder, name.as_str())
    }

    /// What the system said at the call that failed.
    pub fn last_error(&self) -> Option<io::Error> {
        self.output.last_error()
    }

    /// How many bytes it was given.
    pub fn num_bytes(&self) -> u64
        ensures { result ≡ length self.now.content }
    {
        self.output.num_bytes()
    }
}

impl<S: SystemFiles> TerminatingWrite for DiskSink<S> {
    ghost content = { λ s. s.content };

    ghost termination = { λ s. s.termination };

    ghost failures = { λ s. s.failures };

    fn write_all(&mut self, bytes: &[u8]) -> Result<(), WriteFault> {
        self.output.write_all(bytes)
    }

    fn terminate(&mut self) -> Result<(), WriteFault> {
        self.output.terminate()
    }
}
