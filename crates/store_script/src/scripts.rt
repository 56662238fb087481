//! A script that is answered, and a file that is dumped, each from the input to the output.
use crate::answer::{write_documents, write_no_answer};
use crate::fault::ToolFault;
use crate::input::read_whole;
use crate::store::open_bytes;
use crate::tool::Tool;
use std::alloc::Global;
use std::io::{BufWriter, Read, Write};

// Answers each line. A line ends with its byte 0a, which the last may lack.
fn answer_lines<W: Write>(alloc: Global, script: &[u8], output: &mut W) -> Result<(), ToolFault> {
    if script.is_empty() {
        return Ok(());
    }
    let mut tool = Tool::new(alloc);
    let lines = script.strip_suffix(b"\n").unwrap_or(script);
    for line in lines.split(|byte| *byte == b'\n') {
        tool.answer(line, output)?;
    }
    Ok(())
}

// Buffers what is written. It fails only for lack of memory.
fn buffered<W: Write + Drop>(alloc: Global, output: W) -> Result<BufWriter<W>, ToolFault> {
    match BufWriter::new(alloc, output) {
        Ok(output) => Ok(output),
        Err(_) => Err(ToolFault::Memory),
    }
}

/// Answers a script, line by line. The input is read to its end before anything is written.
pub fn run<R: Read, W: Write + Drop>(
    alloc: Global,
    input: &mut R,
    output: W,
) -> Result<(), ToolFault> {
    let script = read_whole(alloc, input)?;
    let mut output = buffered(alloc, output)?;
    answer_lines(alloc, &script, &mut output)?;
    output.flush()?;
    Ok(())
}

fn dump_bytes<W: Write>(alloc: Global, bytes: Vec<u8>, output: &mut W) -> Result<(), ToolFault> {
    match open_bytes(alloc, bytes, 0) {
        Ok(mut reader) => write_documents(alloc, output, &mut reader),
        Err(why) => write_no_answer(output, why),
    }
}

/// Writes each document of a store file, or the number of the file's refusal. The input is read to its end before
/// anything is written.
pub fn dump<R: Read, W: Write + Drop>(
    alloc: Global,
    input: &mut R,
    output: W,
) -> Result<(), ToolFault> {
    let bytes = read_whole(alloc, input)?;
    let mut output = buffered(alloc, output)?;
    dump_bytes(alloc, bytes, &mut output)?;
    output.flush()?;
    Ok(())
}
