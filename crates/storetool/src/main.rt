//! Answers a script from standard input on standard output. It ends with status 1 where a stream fails or memory is
//! short, and prints nothing of it.
#![tactic(auto)]

use std::process::ExitCode;

fn main(rt: HostRuntime) -> ExitCode {
    match store_script::run(rt.alloc(), &mut rt.reader(), std::io::writer(&rt)) {
        Ok(()) => ExitCode::SUCCESS,
        Err(_) => ExitCode::FAILURE,
    }
}
