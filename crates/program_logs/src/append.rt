//! `log append`: puts records after those of a log.

ghost use Rattle.std.specs.Prelude.{◌≡◌, IfOk, IsTrue, OnOk, map, option_and_then};
ghost use Rattle.document_framing.specs.Feeding.{all_documents};
ghost use Rattle.document_framing.specs.Inputs.{inputs_of};
ghost use Rattle.framed_logs.specs.Appending.{AppendsAll};
ghost use Rattle.program_logs.specs.Appended.{Appended, IsOpened};
ghost use Rattle.store_files.specs.Disk.{seen};

use crate::FOLDER;
use crate::log_refusal::refused;
use crate::logs::{Logs, TailOptions, WrittenLog, close};
use crate::places::tail_bytes;
use crate::record_span::RecordSpan;
use crate::sync_policy::{policy_of, sync};
use clap::{ArgMatches, Command};
use document_framing::{Framing, InputFiles, OtherCount};
use framed_logs::{AppendError, Appending, SyncPolicy, append_inputs};
use program_base::arguments::{self, framing_of, size_of};
use program_base::command_words::{Argument, command_of};
use program_base::document_output::{DocumentOutput, standard_output};
use program_base::failure::{Failure, FailureCause, with_file};
use program_base::input_files::{INPUT, InputList, files_from, input_failure, inputs, null};
use program_base::input_progress::InputProgress;
use program_base::progress::{Progress, Things};
use segmented_log::Commit;
use std::alloc::{AllocError, Global};
use std::io::Write;
use store_files::{DiskFolder, SystemFiles};

const EXAMPLE: &str = "\
The log is begun if FOLDER is missing or empty. Once 'append' ends with status 0, all records are on the disk. A crash
or failure leaves the log as it was, and then the first records, as far as they reached the disk: of a batch all or
none.
If an input can't be read, the records before it are appended; with '--sync end' none are. A second line on standard
error says how many were.

Examples:
  zevkhadun log append events new.txt     a record for each line
  tail -f app.log | zevkhadun log append events     the records that come, as they come
  zevkhadun log append --number --sync every events     the number of each record, once it is on the disk
  make_records | zevkhadun log append events --expect 1000     all thousand records, or none";

// What is said after a call on the log's files failed: records of the batch that was being written may be in.
const UNKNOWN_MORE: &str = "; 'zevkhadun log stat' says whether more are in";

// The sizes past which a tail is sealed if the words name none: one to which batches are appended, and one that is
// replaced at each sync.
const SEAL_SIZE: usize = 1 << 23;

const SMALL_SEAL_SIZE: usize = 1 << 20;

// The size from which on a tail is sealed at the end, so that the next opening is short.
const LARGE_TAIL: u64 = 1 << 20;

const TWO_SYNCS_HELP: &str = "\
Put each batch on the disk with two syncs: a tail that has it too is written beside the old one, and renamed
A crash leaves no torn batch, so no bytes can be taken for records that were not appended
Each sync writes the whole tail, so keep '--seal-size' small";

/// The words of `log append`.
pub fn command<'a>(alloc: Global) -> Result<Command<'a>, AllocError> {
    command_of(
        alloc,
        "append",
        "Add the records in files or standard input to a log",
        EXAMPLE,
        &[
            Argument::Word {
                id: FOLDER,
                help: "The log's folder; a missing or empty one becomes a log",
            },
            inputs(),
            files_from(),
            null(),
            sync(),
            arguments::expect(
                "Append no record unless exactly COUNT of them come; all are put on the disk at the end, \
                 as by '--sync end'",
            ),
            Argument::Flag {
                id: "number",
                help: "Print the number of each record, one per line, once it is on the disk",
            },
            arguments::framing(),
            Argument::Option {
                id: "seal-size",
                value: "BYTES",
                help: "Put the tail's records into a segment once it exceeds BYTES (8M, or 1M with '--two-syncs'); \
                       suffixes K, M, G",
            },
            Argument::ExplainedFlag {
                id: "two-syncs",
                help: "Put each batch on the disk with two syncs, so that a crash leaves no torn one",
                long_help: TWO_SYNCS_HELP,
            },
            arguments::quiet(),
        ],
    )
}

// How the words say that the tail is written.
fn tail_options_of(alloc: Global, matches: &ArgMatches<'_>) -> Result<TailOptions, FailureCause> {
    let (commit, default_size) = match matches.get_flag("two-syncs") {
        true => (Commit::TwoSyncs, SMALL_SEAL_SIZE),
        false => (Commit::OneSync, SEAL_SIZE),
    };
    let seal_size = size_of(alloc, matches, "seal-size")?.unwrap_or(default_size);
    Ok(TailOptions { commit, seal_size })
}

/// How records are appended.
#[derive(Clone, Copy)]
pub struct AppendOptions {
    pub policy: SyncPolicy,
    pub framing: Framing,
    /// How many records have to come, if that is said.
    pub expected: Option<u64>,
    pub tail: TailOptions,
    pub is_quiet: bool,
}

// How the words say that records are appended.
fn options_of(alloc: Global, matches: &ArgMatches<'_>) -> Result<AppendOptions, FailureCause> {
    let expected = matches.get_one::<u64>("expect");
    Ok(AppendOptions {
        policy: policy_of(alloc, matches, expected.is_some())?,
        framing: framing_of(alloc, matches)?,
        expected,
        tail: tail_options_of(alloc, matches)?,
        is_quiet: matches.get_flag("quiet"),
    })
}

/// A log on disk to which records were appended, and the output for their numbers.
pub type DiskAppending<'a, S, W> = Appending<DiskFolder<S>, W, InputProgress<'a>>;

// The log at a path, to which the records of inputs are to be appended.
fn appending_of<'a, S: SystemFiles, W: Write + Drop>(
    logs: Logs<'a, S>,
    path: &str,
    options: AppendOptions,
    paths: &[&str],
    output: Option<W>,
) -> Result<DiskAppending<'a, S, W>, FailureCause>
    ensures log { IsTrue S.honest → IfOk result (λ appending. IsOpened (seen (S.start path.now)) appending.log.value) }
    ensures output { IfOk result (λ appending. appending.numbers.bytes ≡ option_and_then W.contents output) }
{
    let rt = logs.rt;
    let log = logs.open_or_begin(path, options.tail)?;
    let progress = InputProgress::begin(
        rt,
        options.is_quiet,
        Things::Records,
        options.framing,
        paths,
    );
    Ok(Appending::new(log, options.policy, output, progress))
}

// Prints a line on what was appended, where progress is shown.
fn summarize(rt: &HostRuntime, progress: &Progress<'_>, appended: RecordSpan) {
    if progress.is_shown() {
        let seconds = progress.elapsed().as_secs_f64();
        let _ = eprintln!(rt; "{appended}, {seconds:.3} seconds");
    }
}

// Why not all records of these inputs were appended to the log at a path, or their numbers not printed.
fn failure_of(alloc: Global, path: &str, paths: &[&str], error: AppendError) -> Failure {
    let cause = match error {
        AppendError::Input(fault) => return input_failure(alloc, paths, fault),
        AppendError::Log(error) => refused(error),
        AppendError::Output(error) => FailureCause::Output(error),
        AppendError::OtherCount(OtherCount { expected, came }) => FailureCause::OtherCount {
            things: Things::Records,
            expected,
            came,
        },
    };
    Failure::at_file(alloc, path, cause)
}

// Reports why not all records were appended, or their numbers not printed, and then which records are in the log.
fn reported(
    rt: &HostRuntime,
    path: &str,
    failure: Failure,
    appended: RecordSpan,
    is_broken: bool,
) -> Failure {
    let Some(status) = failure.report(rt) else {
        return failure;
    };
    let more = if is_broken { UNKNOWN_MORE } else { "" };
    let _ = eprintln!(rt; "zevkhadun: {path}: appended: {appended}{more}");
    Failure::from(FailureCause::Reported(status))
}

// Appends the records of these inputs, and says how many there were.
fn append_all<S: SystemFiles, I: InputFiles, W: Write>(
    rt: &HostRuntime,
    files: &mut I,
    path: &str,
    options: AppendOptions,
    paths: &[&str],
    appending: &mut DiskAppending<'_, S, W>,
) -> Result<(), Failure>
    ensures { IsTrue S.honest → OnOk result (AppendsAll
        (all_documents options.framing (inputs_of (I.holds files.old) (map (λ path. path.now) paths.now)))
        appending.old.log.value appending.new.log.value appending.old.numbers appending.new.numbers) }
{
    let AppendOptions {
        framing,
        expected,
        ..
    } = options;
    let from = appending.synced_to;
    let outcome = append_inputs(rt.alloc(), framing, files, paths, expected, appending);
    let progress = &appending.progress.line;
    progress.end();
    let to = appending.synced_to;
    let appended = RecordSpan { from, to };
    match outcome {
        Ok(()) => {
            summarize(rt, progress, appended);
            Ok(())
        }
        Err(error) => {
            let failure = failure_of(rt.alloc(), path, paths, error);
            Err(reported(rt, path, failure, appended, appending.log.is_broken()))
        }
    }
}

// Closes the log, and seals a large tail first. Its records are on the disk already, so where that fails they are there
// all the same, and a later writer seals them.
fn end<S: SystemFiles>(rt: &HostRuntime, path: &str, log: WrittenLog<S>, seals: bool) {
    let mut log = log;
    match tail_bytes(rt, path) {
        Ok(Some(bytes)) if seals && bytes >= LARGE_TAIL => drop(log.seal()),
        _ => {}
    }
    close(rt, path, log);
}

/// Appends the records of the inputs of these paths to the log at a path, which is begun where none is. An Ok says that
/// the log that is returned has exactly these more, on the disk, and that the output has exactly their numbers more. An
/// error was reported, with how many of them are in the log.
pub fn append<'a, S: SystemFiles, I: InputFiles, W: Write + Drop>(
    logs: Logs<'a, S>,
    files: &mut I,
    path: &str,
    options: AppendOptions,
    paths: &[&str],
    output: Option<W>,
) -> Result<DiskAppending<'a, S, W>, Failure>
    ensures { IsTrue S.honest → IfOk result (λ appending. Appended (seen (S.start path.now))
        (all_documents options.framing (inputs_of (I.holds files.old) (map (λ path. path.now) paths.now)))
        appending.log.value (option_and_then W.contents output) appending.numbers.bytes) }
{
    let rt = logs.rt;
    let mut appending = match appending_of(logs, path, options, paths, output) {
        Ok(appending) => appending,
        Err(cause) => return Err(Failure::at_file(rt.alloc(), path, cause)),
    };
    match append_all(rt, files, path, options, paths, &mut appending) {
        Ok(()) => Ok(appending),
        Err(failure) => {
            end(rt, path, appending.log, false);
            Err(failure)
        }
    }
}

// The output for the numbers of records, if the words ask for these.
fn numbers_output<'a>(
    rt: &'a HostRuntime,
    matches: &ArgMatches<'_>,
) -> Result<Option<DocumentOutput<'a>>, FailureCause> {
    match matches.get_flag("number") {
        true => Ok(Some(standard_output(rt)?)),
        false => Ok(None),
    }
}

/// Appends the records of the inputs that the words name to the log at a path.
pub fn run<S: SystemFiles, I: InputFiles>(
    logs: Logs<'_, S>,
    files: &mut I,
    path: &str,
    matches: &ArgMatches<'_>,
) -> Result<(), Failure> {
    let rt = logs.rt;
    let options = options_of(rt.alloc(), matches)?;
    let list = InputList::read(rt, matches)?;
    let words = matches.get_strs(INPUT).unwrap_or(&[]);
    let paths = with_file(rt.alloc(), path, list.paths(rt.alloc(), words))?;
    let output = with_file(rt.alloc(), path, numbers_output(rt, matches))?;
    let appending = append(logs, files, path, options, &paths, output)?;
    end(rt, path, appending.log, true);
    Ok(())
}
