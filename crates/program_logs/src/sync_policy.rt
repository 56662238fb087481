//! The words that say when appended records are put on the disk.

use clap::ArgMatches;
use clap::parser::ValueSource;
use framed_logs::SyncPolicy;
use program_base::arguments::{word, wrong_words};
use program_base::command_words::Argument;
use program_base::failure::FailureCause;
use std::alloc::Global;

const POLICIES: [&str; 3] = ["every", "batch", "end"];

const HELP: &str = "\
When records are put on the disk:
every: after each record
batch: once they take 1 MiB, and before waiting for more input, as from a pipe or a terminal
end: once, after the last one; until then they are in memory, and a crash leaves all of them or none";

/// The argument for it.
pub fn sync<'a>() -> Argument<'a> {
    Argument::ChoiceOr {
        id: "sync",
        value: "WHEN",
        choices: POLICIES.as_slice(),
        default: "batch",
        help: "When records are put on the disk",
        long_help: HELP,
    }
}

/// The policy that the words name. Where the records are counted it has to be `End`, which is then the default.
pub fn policy_of(
    alloc: Global,
    matches: &ArgMatches<'_>,
    is_counted: bool,
) -> Result<SyncPolicy, FailureCause> {
    let name = word(alloc, matches, "sync")?;
    match name {
        "end" => return Ok(SyncPolicy::End),
        _ if !is_counted => {}
        _ if matches.value_source("sync") == Some(ValueSource::DefaultValue) => {
            return Ok(SyncPolicy::End);
        }
        _ => return Err(wrong_words(alloc, "'--expect' takes no other '--sync' than 'end'", name)),
    }
    match name {
        "every" => Ok(SyncPolicy::Every),
        _ => Ok(SyncPolicy::Batch),
    }
}
