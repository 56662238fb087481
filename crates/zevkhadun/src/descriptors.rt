//! The descriptors 0 to 2, the standard input, output and error, where the program is started without some of them.

use std::fs::{File, OpenOptions};
use std::io;
use std::os::fd::AsRawFd;

// How many standard descriptors there are.
const COUNT: i32 = 3;

// The device that is opened in place of one that is closed.
const NULL_DEVICE: &str = "/dev/null";

// The number that the system gives to the next file: the lowest that is free.
fn lowest_free(rt: &HostRuntime) -> io::Result<i32> {
    let opened = match File::open(rt, "/") {
        Ok(folder) => folder,
        Err(_) => File::open(rt, NULL_DEVICE)?,
    };
    Ok(opened.as_raw_fd())
}

// Opens the null device to be read, and keeps it if it has the number of a standard descriptor.
fn hold_output(rt: &HostRuntime, held: &mut Vec<File>) -> io::Result<()> {
    let file = File::open(rt, NULL_DEVICE)?;
    if file.as_raw_fd() < COUNT {
        held.push(file)?;
    }
    Ok(())
}

/// Opens the standard descriptors that are closed, so that no file of the program gets their numbers: what is printed
/// would go into it. They are opened the wrong way round, the input to be written and the outputs to be read, so that a
/// use of one is an error, as of one that is closed. They are open as long as the result is kept.
pub fn hold_closed(rt: &HostRuntime) -> io::Result<Vec<File>> {
    let mut held = Vec::new(rt.alloc());
    let lowest = lowest_free(rt)?;
    if lowest == 0 {
        held.push(OpenOptions::new().write(true).open(rt, NULL_DEVICE)?)?;
    }
    if lowest < COUNT {
        hold_output(rt, &mut held)?;
        hold_output(rt, &mut held)?;
    }
    Ok(held)
}
