//! What commands make of a log of a system in memory, the reading ones in a process of their own.

use crate::MemInputs;
use crate::tests::FILES;
use document_framing::{DocumentForm, Framing};
use framed_logs::SyncPolicy;
use program_base::failure::{Failure, FailureCause};
use program_logs::append::{AppendOptions, append};
use program_logs::cat::print;
use program_logs::get::print_named;
use program_logs::logs::{Logs, ReadLogs, TailOptions};
use segmented_log::Commit;
use std::test::Fail;
use store_files::DiskFolder;
use system_model::MemSystem;

const PATH: &str = "events";

// The log to which the lines of two files are appended, and the numbers that are printed.
fn appended(
    rt: &HostRuntime,
    policy: SyncPolicy,
) -> Result<(DiskFolder<MemSystem>, Vec<u8>), Failure> {
    let options = AppendOptions {
        policy,
        framing: Framing::Lines,
        expected: Some(4),
        tail: TailOptions {
            commit: Commit::OneSync,
            seal_size: 1 << 20,
        },
        is_quiet: true,
    };
    let mut inputs = MemInputs {
        files: FILES,
        standard: b"",
    };
    let logs = Logs::new(rt, MemSystem::new(rt.alloc(), PATH)?);
    let (mut numbers, paths) = (Vec::new(rt.alloc()), ["lines", "four"]);
    let output = Some(&mut numbers);
    let log = append(logs, &mut inputs, PATH, options, &paths, output)?.log;
    Ok((Box::into_inner(log).into_folder(), numbers))
}

// The numbers that `log append` prints, and then what `log get` and `log cat` print.
fn printed(rt: &HostRuntime, policy: SyncPolicy) -> Result<Vec<u8>, Failure> {
    let (folder, mut out) = appended(rt, policy)?;
    let system = folder.system().again().map_err(FailureCause::System)?;
    let logs = ReadLogs::new(rt, system)?;
    let form = DocumentForm::Framed(Framing::Lines);
    print_named(&logs, PATH, form, &["3", "..2"], &mut out)?;
    print(&logs, PATH, form, 0, 2, &mut out)?;
    Ok(out)
}

#[test]
fn records_are_appended_to_a_log_and_printed(rt: HostRuntime) -> Result<(), Fail> {
    for policy in [SyncPolicy::Every, SyncPolicy::Batch, SyncPolicy::End] {
        let out = printed(&rt, policy).ok();
        let all = b"0\n1\n2\n3\nfour\none\n\nthree is long\nfour\n";
        assert!(rt; out == Some(all.to_vec(rt.alloc())?));
    }
    Ok(())
}
