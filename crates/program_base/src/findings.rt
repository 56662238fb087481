//! What a command finds in several stores.

use crate::failure::{Failure, FailureCause};
use crate::status::Status;

/// What a command found so far in the stores that it goes over.
#[derive(Clone, Copy)]
pub struct Findings {
    has_read: bool,
    has_broken: bool,
    has_unread: bool,
}

impl Findings {
    /// Nothing yet.
    pub fn new() -> Findings {
        Findings {
            has_read: false,
            has_broken: false,
            has_unread: false,
        }
    }

    /// Whether any store was read.
    pub fn has_read(self) -> bool {
        self.has_read
    }

    // Adds one of which this is the status.
    fn add(&mut self, status: Status) {
        match status {
            Status::Broken => self.has_broken = true,
            Status::Usage | Status::System => self.has_unread = true,
        }
    }

    /// Adds a store or a log, and whether it is sound; or reports why it can't be read, and goes on. An error of the
    /// standard output ends the command.
    pub fn add_outcome(
        &mut self,
        rt: &HostRuntime,
        path: &str,
        outcome: Result<bool, FailureCause>,
    ) -> Result<(), Failure> {
        let cause = match outcome {
            Ok(is_sound) => {
                self.has_read = true;
                self.has_broken |= !is_sound;
                return Ok(());
            }
            Err(cause) => cause,
        };
        let failure = Failure::at_file(rt.alloc(), path, cause);
        if failure.is_of_output() {
            return Err(failure);
        }
        if let Some(status) = failure.report(rt) {
            self.add(status);
        }
        Ok(())
    }

    /// The command's result: a broken store comes before one that was not read.
    pub fn result(self) -> Result<(), Failure> {
        if self.has_broken {
            Err(Failure::from(FailureCause::Reported(Status::Broken)))
        } else if self.has_unread {
            Err(Failure::from(FailureCause::Reported(Status::System)))
        } else {
            Ok(())
        }
    }
}
