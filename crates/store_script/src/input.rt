//! Reading an input whole.
use crate::fault::ToolFault;
use std::alloc::Global;
use std::io::{ErrorKind, Read};

/// The bytes up to the input's end.
pub fn read_whole<R: Read>(alloc: Global, input: &mut R) -> Result<Vec<u8>, ToolFault> {
    let mut bytes = Vec::new(alloc);
    match input.read_to_end(&mut bytes) {
        Ok(_) => Ok(bytes),
        Err(error) if error.kind() == ErrorKind::OutOfMemory => Err(ToolFault::Memory),
        Err(_) => Err(ToolFault::Input),
    }
}
