//! Scripts: the dump of a file, and streams that fail or give a byte at a time.

use crate::making::written;
use std::alloc::Global;
use std::io;
use std::io::{Read, Write};
use std::test::Fail;
use store_script::{ToolFault, dump, run};

const SCRIPT: &[u8] = b"new 16384\nput 616263\nclose\nget 0 0\nget 0 1";

const ANSWERS: &[u8] = b"ok\nid 0\nstore 0 46\n616263\nerror 6\n";

const LONGER_SCRIPT: &[u8] =
    b"new 16384\nput 616263\nclose\nnew 16384\nput 78\nstack 0\nput -\nclose\n\
    get 1 0\nget 1 1\nget 1 2\nget 2 0\nstats 1\nusage 1\nmarks 1\niter 1 1\nput 00\nload 00\nget 1 01\n";

const LONGER_ANSWERS: &[u8] = b"ok\nid 0\nstore 0 46\nok\nid 0\nok\nid 2\nstore 1 67\n\
    78\n616263\n-\nno store\nentries 0 hits 0 misses 3 lru none\ndata 28 offsets 11 total 39\n\
    (doc=0..1, bytes=0..9)\n(doc=1..2, bytes=9..20)\n(doc=2..3, bytes=20..28)\nend\n\
    78\n-\nend\nnone\nerror 1\nbad\n";

/// An input that gives a byte at a time, and then fails or ends.
#[derive(Drop)]
struct Dripping<'a> {
    bytes: &'a [u8],
    fails: bool,
}

impl<'a> Read for Dripping<'a> {
    fn read(&mut self, buf: &mut [u8]) -> io::Result<usize> {
        let Some((first, rest)) = self.bytes.split_first() else {
            return if self.fails {
                Err(io::Error::from(io::ErrorKind::Other))
            } else {
                Ok(0)
            };
        };
        let Some(place) = buf.first_mut() else {
            return Ok(0);
        };
        *place = *first;
        self.bytes = rest;
        Ok(1)
    }
}

/// An output that takes this many bytes, one at a time, and then fails.
#[derive(Drop)]
struct Closing<'a> {
    bytes: &'a mut Vec<u8>,
    room: usize,
}

impl<'a> Write for Closing<'a> {
    fn write(&mut self, buf: &[u8]) -> io::Result<usize> {
        let Some(first) = buf.first() else {
            return Ok(0);
        };
        if self.bytes.len() >= self.room || self.bytes.push(*first).is_err() {
            return Err(io::Error::from(io::ErrorKind::Other));
        }
        Ok(1)
    }

    fn flush(&mut self) -> io::Result<()> {
        Ok(())
    }
}

// The answers to a script that comes a byte at a time, through an output that takes as little.
fn dripped(alloc: Global, script: &[u8]) -> Result<Vec<u8>, ToolFault> {
    let mut answers = Vec::new(alloc);
    let mut input = Dripping {
        bytes: script,
        fails: false,
    };
    let output = Closing {
        bytes: &mut answers,
        room: 1000,
    };
    run(alloc, &mut input, output)?;
    Ok(answers)
}

#[test]
fn a_script_may_come_byte_by_byte(rt: HostRuntime) -> Result<(), Fail> {
    assert!(rt; dripped(rt.alloc(), SCRIPT)?.as_slice() == ANSWERS);
    assert!(rt; dripped(rt.alloc(), LONGER_SCRIPT)?.as_slice() == LONGER_ANSWERS);
    Ok(())
}

#[test]
fn an_input_that_fails_writes_nothing(rt: HostRuntime) {
    let alloc = rt.alloc();
    let mut answers = Vec::new(alloc);
    for bytes in [b"".as_slice(), SCRIPT] {
        let mut input = Dripping { bytes, fails: true };
        let refused = run(alloc, &mut input, &mut answers) == Err(ToolFault::Input);
        let mut input = Dripping { bytes, fails: true };
        assert!(rt; refused && dump(alloc, &mut input, &mut answers) == Err(ToolFault::Input));
    }
    assert!(rt; answers.is_empty());
}

// Whether a run of the script, or the dump of a file, ends where the output has no more room, and wrote a front of this
// text.
fn ends(alloc: Global, file: Option<&[u8]>, text: &[u8], room: usize) -> bool {
    let mut answers = Vec::new(alloc);
    let output = Closing {
        bytes: &mut answers,
        room,
    };
    let outcome = match file {
        Some(mut file) => dump(alloc, &mut file, output),
        None => run(alloc, &mut { SCRIPT }, output),
    };
    outcome == Err(ToolFault::Output) && text.starts_with(answers.as_slice())
}

const DUMP: &[u8] = b"0 616263\n1 -\nend\n";

#[test]
fn an_output_that_fails_ends_a_run_and_a_dump(rt: HostRuntime) -> Result<(), Fail> {
    let file = written(rt.alloc(), 0, &[b"abc", b""])?;
    for room in 0..ANSWERS.len() {
        assert!(rt; ends(rt.alloc(), None, ANSWERS, room));
    }
    for room in 0..DUMP.len() {
        assert!(rt; ends(rt.alloc(), Some(&file), DUMP, room));
    }
    Ok(())
}

// Whether the dump of a file is this text.
fn is_dumped(alloc: Global, mut file: &[u8], text: &[u8]) -> Result<bool, ToolFault> {
    let mut answers = Vec::new(alloc);
    dump(alloc, &mut file, &mut answers)?;
    Ok(answers.as_slice() == text)
}

#[test]
fn a_file_is_dumped(rt: HostRuntime) -> Result<(), Fail> {
    let alloc = rt.alloc();
    let damaged = b"hellohappy\x81\x87\x82\x80\x80\x81\x85\x81\x85\
        \x03\0\0\0\x0a\0\0\0\0\0\0\0\0\x08\0\0\0\0\0\0\0\0\0\0\0\0\0\0";
    assert!(rt;
        is_dumped(alloc, &written(alloc, 0, &[b"abc", b""])?, DUMP)?
            && is_dumped(alloc, b"", b"error 1\n")?
            && is_dumped(alloc, damaged, b"0 error 7\n1 error 7\nend\n")?
    );
    Ok(())
}
