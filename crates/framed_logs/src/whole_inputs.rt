//! The records of inputs, which are appended to a log.

ghost use Rattle.std.specs.Prelude.{◌≡◌, ◌+◌, IfErr, IfSome, IsTrue, OnOk, length, map};
ghost use Rattle.document_framing.specs.Feeding.{all_documents};
ghost use Rattle.document_framing.specs.Inputs.{inputs_of};
ghost use Rattle.store_folder.specs.Moments.{LeavesOnly};
ghost use Rattle.framed_logs.specs.Appending.{AppendsAll, EndsAppend, PutsAll};

use crate::appending::Appending;
use crate::sync_policy::SyncPolicy;
use document_framing::{
    FeedError, FeedProgress, Framing, InputFault, InputFiles, OtherCount, check_count, feed_inputs,
};
use segmented_log::LogError;
use std::alloc::Global;
use std::io;
use std::io::Write;
use store_folder::ReadableFolder;

/// Why not all records were appended, or not all of their numbers printed.
#[derive(Drop)]
pub enum AppendError {
    /// An input gave no further record.
    Input(InputFault),
    /// The log refused a call.
    Log(LogError),
    /// Another number of records came than was expected.
    OtherCount(OtherCount),
    /// All records are in the log. A write of their numbers failed.
    Output(io::Error),
}

impl From<LogError> for AppendError {
    ghost use Rattle.std.specs.Prelude.{◌≡◌};
    ghost use Rattle.framed_logs.specs.declared.whole_inputs.AppendError.TheVariants.{Log};

    ghost from_gives = { λ error e. e ≡ Log error };

    fn from(error: LogError) -> AppendError {
        AppendError::Log(error)
    }
}

impl From<OtherCount> for AppendError {
    ghost use Rattle.std.specs.Prelude.{◌≡◌};
    ghost use Rattle.framed_logs.specs.declared.whole_inputs.AppendError.TheVariants as append;

    ghost from_gives = { λ count e. e ≡ append.OtherCount count };

    fn from(count: OtherCount) -> AppendError {
        AppendError::OtherCount(count)
    }
}

impl From<FeedError<InputFault, LogError>> for AppendError {
    ghost use Rattle.std.specs.Prelude.{◌≡◌};
    ghost use Rattle.framed_logs.specs.Causes.{of_feed};

    ghost from_gives = { λ error e. e ≡ of_feed error };

    fn from(error: FeedError<InputFault, LogError>) -> AppendError {
        match error {
            FeedError::Input(fault) => AppendError::Input(fault),
            FeedError::Sink(error) => AppendError::Log(error),
        }
    }
}

// Appends the records of inputs, and puts those that wait on the disk, also where not all of them came.
fn append_in_batches<I: InputFiles, F: ReadableFolder, W: Write, P: FeedProgress>(
    alloc: Global,
    framing: Framing,
    files: &mut I,
    paths: &[&str],
    appending: &mut Appending<F, W, P>,
) -> Result<(), AppendError>
    requires { appending.old.policy ≡ SyncPolicy.End → ⊥ }
    ensures put { IsTrue F.honest → OnOk result (PutsAll
        (all_documents framing (inputs_of (I.holds files.old) (map (λ path. path.now) paths.now)))
        appending.old.log.value appending.new.log.value appending.old.numbers appending.new.numbers) }
    ensures ended { IsTrue F.honest → IfErr result (EndsAppend (LeavesOnly F.moment F.left_since) appending.old.policy
        (all_documents framing (inputs_of (I.holds files.old) (map (λ path. path.now) paths.now)))
        appending.old.log.value appending.new.log.value appending.old.numbers appending.new.numbers) }
{
    let fed = feed_inputs(alloc, framing, files, paths, appending);
    let synced = appending.sync();
    fed?;
    synced?;
    Ok(())
}

// Appends the records of inputs as one batch, if as many came as were expected.
fn append_at_once<I: InputFiles, F: ReadableFolder, W: Write, P: FeedProgress>(
    alloc: Global,
    framing: Framing,
    files: &mut I,
    paths: &[&str],
    expected: Option<u64>,
    appending: &mut Appending<F, W, P>,
) -> Result<(), AppendError>
    requires { appending.old.policy ≡ SyncPolicy.End }
    ensures counted { IsTrue F.honest → OnOk result (IfSome expected (λ count.
        length appending.new.log.value.slots ≡ length appending.old.log.value.slots + count)) }
    ensures put { IsTrue F.honest → OnOk result (PutsAll
        (all_documents framing (inputs_of (I.holds files.old) (map (λ path. path.now) paths.now)))
        appending.old.log.value appending.new.log.value appending.old.numbers appending.new.numbers) }
    ensures ended { IsTrue F.honest → IfErr result (EndsAppend (LeavesOnly F.moment F.left_since) appending.old.policy
        (all_documents framing (inputs_of (I.holds files.old) (map (λ path. path.now) paths.now)))
        appending.old.log.value appending.new.log.value appending.old.numbers appending.new.numbers) }
{
    feed_inputs(alloc, framing, files, paths, appending)?;
    check_count(expected, appending.log.pending())?;
    appending.sync()?;
    Ok(())
}

/// Appends each record of the inputs of these paths, in order, after those of a log, and puts them on the disk by the
/// policy, the last ones before it returns. With `SyncPolicy::End` they are one batch, and where a number of records is
/// expected, exactly as many have to wait then. After an Ok the log has exactly these records more, and exactly the
/// numbers of these were printed. Each number was printed after its record was synced.
///
/// # Errors
///
/// The input's fault or the log's error, whichever came first, or another count. Then the log has the first of the
/// records, and no number was printed but those of records that were synced; with `End` none was. `Output` where
/// numbers could not be printed: the log has all records.
pub fn append_inputs<I: InputFiles, F: ReadableFolder, W: Write, P: FeedProgress>(
    alloc: Global,
    framing: Framing,
    files: &mut I,
    paths: &[&str],
    expected: Option<u64>,
    appending: &mut Appending<F, W, P>,
) -> Result<(), AppendError>
    ensures counted { IsTrue F.honest → appending.old.policy ≡ SyncPolicy.End
        → OnOk result (IfSome expected (λ count.
        length appending.new.log.value.slots ≡ length appending.old.log.value.slots + count)) }
    ensures appended { IsTrue F.honest → OnOk result (AppendsAll
        (all_documents framing (inputs_of (I.holds files.old) (map (λ path. path.now) paths.now)))
        appending.old.log.value appending.new.log.value appending.old.numbers appending.new.numbers) }
    ensures ended { IsTrue F.honest → IfErr result (EndsAppend (LeavesOnly F.moment F.left_since) appending.old.policy
        (all_documents framing (inputs_of (I.holds files.old) (map (λ path. path.now) paths.now)))
        appending.old.log.value appending.new.log.value appending.old.numbers appending.new.numbers) }
{
    match appending.policy {
        SyncPolicy::End => append_at_once(alloc, framing, files, paths, expected, appending)?,
        SyncPolicy::Every | SyncPolicy::Batch => append_in_batches(
            alloc, framing, files, paths, appending,
        )?,
    }
    match appending.numbers.take_failure() {
        Some(error) => Err(AppendError::Output(error)),
        None => Ok(()),
    }
}
