//! A store is read whole, to find what breaks a promise of the format.

use crate::failure::FailureCause;
use crate::progress::Progress;
use crate::store_file::{DiskReader, NotRead, StorePath, explained, reader_of, with_reason};
use crate::verify_output::{Found, ReportForm};
use store_commands::broken_part::{BrokenPart, broken_part};
use store_commands::checking::check_blocks;
use store_commands::damaged_documents::damaged_documents;
use store_files::{ReadAt, SystemFiles};

/// What a sound file may still hide.
pub const BLIND_SPOT: &str =
    "note: changes inside a document's bytes are not detected (the format has no checksums)";

/// How stores are verified, by the words.
#[derive(Clone, Copy)]
pub struct Verifying {
    pub form: ReportForm,
    pub is_tantivy: bool,
    pub is_quiet: bool,
}

impl Verifying {
    // What is found in the blocks of an opened store. Only those of a broken one are read again, for a list.
    fn look_over<F: ReadAt>(
        &self,
        rt: &HostRuntime,
        reader: &mut DiskReader<F>,
    ) -> Result<Found, FailureCause> {
        let mut progress = Progress::begin(rt, self.is_quiet, None);
        let verdict = check_blocks(rt.alloc(), &mut **reader, &mut progress);
        progress.end();
        let verdict = verdict?;
        let damaged = if verdict.damaged > 0 && self.form.lists_documents() {
            damaged_documents(rt.alloc(), &mut **reader)?
        } else {
            Vec::new(rt.alloc())
        };
        Ok(Found::Blocks { verdict, damaged })
    }

    /// What is found in a store.
    pub fn look_at<S: SystemFiles>(
        &self,
        rt: &HostRuntime,
        system: &S,
        store: StorePath<'_>,
    ) -> Result<Found, FailureCause> {
        match reader_of(rt.alloc(), store.file(rt.alloc(), system)?) {
            Ok(mut reader) => {
                let found = self.look_over(rt, &mut reader);
                with_reason(&reader, found)
            }
            Err(NotRead::Store(mut refusal)) => {
                match broken_part(rt.alloc(), &mut refusal.file, refusal.error) {
                    Ok(BrokenPart::Footer) => Ok(Found::Footer(refusal.error)),
                    Ok(part) => Ok(Found::Part(part)),
                    Err(error) => {
                        Err(explained(refusal.file.handle(), FailureCause::Store(error)))
                    }
                }
            }
            Err(refusal) => Err(FailureCause::from(refusal)),
        }
    }
}
