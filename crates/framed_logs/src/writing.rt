//! Writes of which it is known how far they came.

ghost use Rattle.std.specs.Prelude.{◌≡◌, ◌≤◌, ◌-◌, ◌∷◌, [], ◌++◌, IfOk, OnErr, OnOk, decimal, drop, length};
ghost use Rattle.std.specs.Io.KnownBytes.{Appends, WriteAppends};
ghost use Rattle.framed_logs.specs.Printed.{AppendsFirst, number_lines};

use itoa::Buffer;
use std::io;
use std::io::{ErrorKind, Write};

// Writes the first of some bytes, which may be none where the call was interrupted, and returns how many.
fn write_some<W: Write>(output: &mut W, bytes: &[u8]) -> io::Result<usize>
    ensures most { IfOk result (λ count. count ≤ length bytes.now) }
    ensures written { WriteAppends (W.contents output.old) (W.contents output.new) result bytes.now }
{
    match output.write(bytes) {
        Ok(0) => Err(ErrorKind::WriteZero.into()),
        Ok(count) => Ok(count),
        Err(error) => match error.kind() {
            ErrorKind::Interrupted => Ok(0),
            _ => Err(error),
        },
    }
}

// The bytes after the first ones.
fn after(bytes: &[u8], count: usize) -> &[u8]
    requires { count ≤ length bytes.now }
    ensures { result.now ≡ drop count bytes.now }
{
    &bytes[count..]
}

// Writes bytes. An error leaves the first of them in the output.
fn write_known<W: Write>(output: &mut W, bytes: &[u8]) -> io::Result<()>
    ensures all { OnOk result (Appends (W.contents output.old) (W.contents output.new) bytes.now) }
    ensures first { OnErr result (AppendsFirst (W.contents output.old) (W.contents output.new) bytes.now) }
{
    let mut rest = bytes;
    for _ in 0..u64::MAX {
        if rest.is_empty() {
            return Ok(());
        }
        let count = write_some(output, rest)?;
        rest = after(rest, count);
    }
    Err(ErrorKind::WriteZero.into())
}

// Writes a number and a line end.
fn write_line<W: Write>(output: &mut W, number: u64) -> io::Result<()>
    ensures all { OnOk result (Appends (W.contents output.old) (W.contents output.new) (decimal number ++ 10 ∷ [])) }
    ensures first { OnErr result
        (AppendsFirst (W.contents output.old) (W.contents output.new) (decimal number ++ 10 ∷ [])) }
{
    let mut buffer = Buffer::new();
    let text = buffer.format(number);
    write_known(output, text.as_bytes())?;
    write_known(output, b"\n")
}

// Writes the numbers from this one to before that one, each on a line.
fn write_lines<W: Write>(output: &mut W, from: u64, to: u64) -> io::Result<()>
    ensures all { OnOk result
        (Appends (W.contents output.old) (W.contents output.new) (number_lines from (to - from))) }
    ensures first { OnErr result
        (AppendsFirst (W.contents output.old) (W.contents output.new) (number_lines from (to - from))) }
{
    for number in from..to {
        write_line(output, number)?;
    }
    Ok(())
}

/// Writes the numbers from this one to before that one, each on a line, and hands them over. An error leaves the first
/// bytes of these lines in the output.
pub(crate) fn print_lines<W: Write>(output: &mut W, from: u64, to: u64) -> io::Result<()>
    ensures all { OnOk result
        (Appends (W.contents output.old) (W.contents output.new) (number_lines from (to - from))) }
    ensures first { OnErr result
        (AppendsFirst (W.contents output.old) (W.contents output.new) (number_lines from (to - from))) }
{
    write_lines(output, from, to)?;
    output.flush()
}
