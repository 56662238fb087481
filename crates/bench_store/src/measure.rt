//! Repeating a workload, and printing its figures.
use anyhow::{Result, ensure};
use std::rt::Clock;
use std::time::{Duration, Instant};

/// What one repetition took and did.
#[derive(Clone, Copy)]
pub struct Run {
    pub time: Duration,
    pub count: u64,
    pub bytes: u64,
    pub check: u64,
}

impl Run {
    /// One that did something this often, and moved no bytes.
    pub fn of_times(time: Duration, times: u64, check: u64) -> Run {
        Run {
            time,
            count: times,
            bytes: 0,
            check,
        }
    }

    /// One that wrote this many documents, each of this length.
    pub fn of_documents(time: Duration, documents: usize, len: usize, check: u64) -> Run {
        let count = documents as u64;
        Run {
            time,
            count,
            bytes: count.wrapping_mul(len as u64),
            check,
        }
    }
}

/// Work that can be done again and again. What it needs is made before.
pub trait Workload {
    /// Does it once. Only the work itself is timed.
    fn run<C: Clock>(&mut self, clock: &C) -> Result<Run>;
}

/// The figures of a workload.
#[derive(Clone, Copy, PartialEq, Eq)]
pub enum Report {
    /// Its check alone, which is the same at each run.
    Checks,
    /// How long it took too.
    Times,
}

/// How a workload is measured: how often it is done, and which figures are printed.
#[derive(Clone, Copy)]
pub struct Measure {
    pub repetitions: u64,
    pub report: Report,
}

// The fastest of the repetitions. All have to do the same.
fn fastest<C: Clock, W: Workload>(clock: &C, workload: &mut W, repetitions: u64) -> Result<Run> {
    let mut best = workload.run(clock)?;
    for _ in 1..repetitions {
        let run = workload.run(clock)?;
        ensure!(
            run.check == best.check && run.count == best.count,
            "the repetitions differ"
        );
        if run.time < best.time {
            best = run;
        }
    }
    Ok(best)
}

// A time in nanoseconds, up to the greatest u64.
fn nanos(time: Duration) -> u64 {
    time.as_secs()
        .saturating_mul(1_000_000_000)
        .saturating_add(u64::from(time.subsec_nanos()))
}

// A quotient in hundredths, 0 by 0.
fn hundredths(number: u64, divisor: u64) -> u64 {
    if divisor == 0 {
        return 0;
    }
    number.saturating_mul(100) / divisor
}

// Prints the time, that of each one, and the rate in units of 10^6 bytes a second; and the check as an error line.
fn print_times<R: Print + Eprint>(rt: &R, name: &str, run: Run) -> Result<()> {
    let total = nanos(run.time);
    let each = hundredths(total, run.count);
    let rate = hundredths(run.bytes.saturating_mul(1000), total);
    println!(rt;
        "{name} {} {total} {}.{:02} {}.{:02}",
        run.count,
        each / 100,
        each % 100,
        rate / 100,
        rate % 100
    )?;
    eprintln!(rt; "# {name} check={}", run.check)?;
    Ok(())
}

/// Does a workload, and prints its figures under this name.
pub fn perform<R: Print + Eprint + Clock, W: Workload>(
    rt: &R,
    name: &str,
    workload: &mut W,
    how: Measure,
) -> Result<()> {
    let best = fastest(rt, workload, how.repetitions)?;
    match how.report {
        Report::Checks => println!(rt; "{name} {}", best.check)?,
        Report::Times => print_times(rt, name, best)?,
    }
    Ok(())
}
