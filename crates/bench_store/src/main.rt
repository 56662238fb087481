//! Times workloads over this store. Without arguments it does small ones, and prints a check of each.
//!
//! The arguments are `all`, `growth`, or the name of a workload, and then words like `n=1000`. Each is done `reps`
//! times, and the fastest is printed: the name, how many, the nanoseconds, those of each, and 10^6 bytes a second.
#![tactic(auto)]

mod arguments;
mod checks;
mod disk_work;
mod documents;
mod generator;
mod ids;
mod log_work;
mod measure;
mod plans;
mod shapes;
mod store_work;
mod stores;
mod workloads;

use anyhow::Result;
use arguments::Numbers;
use measure::Report;
use plans::{GROWTH, LARGE, SMALL};
use std::env;
use workloads::Bench;

// Does each workload of a list.
fn run_plan(rt: &HostRuntime, plan: &str, report: Report, numbers: Numbers) -> Result<()> {
    let bench = Bench {
        rt,
        alloc: rt.alloc(),
        report,
    };
    for line in plan.lines() {
        let mut numbers = numbers;
        let (name, words) = line.split_once(' ').unwrap_or((line, ""));
        for word in words.split_whitespace() {
            numbers.take(word)?;
        }
        bench.run(name, &numbers)?;
    }
    Ok(())
}

fn main(rt: HostRuntime) -> Result<()> {
    let mut words = env::args(&rt)?.skip(1);
    let Some(name) = words.next() else {
        let once = Numbers {
            repetitions: 1,
            ..Numbers::new()
        };
        return run_plan(&rt, SMALL, Report::Checks, once);
    };
    let mut numbers = Numbers::new();
    for word in words {
        numbers.take(word.as_str())?;
    }
    let plan = match name.as_str() {
        "all" => LARGE,
        "growth" => GROWTH,
        workload => workload,
    };
    run_plan(&rt, plan, Report::Times, numbers)
}
