//! Are lists of calls, the functions of the main theorem, slices and merges answered where there is memory? Have bytes
//! and printed texts the form that tantivy and the format's description give them? What happens where a read or a write
//! fails, bytes lie, or a stream gives a byte at a time?
//!
//! The files and outputs that fail or lie meet their trait's contract: their proof shows that more than memory can meet
//! these contracts.
#![tactic(auto)]

#[cfg(test)]
mod bytes;
#[cfg(test)]
mod describing;
#[cfg(test)]
mod failing_file;
#[cfg(test)]
mod failing_sink;
#[cfg(test)]
mod lies;
#[cfg(test)]
mod lists;
#[cfg(test)]
mod lying_file;
#[cfg(test)]
mod making;
#[cfg(test)]
mod merge_inputs;
#[cfg(test)]
mod merges;
#[cfg(test)]
mod merging;
#[cfg(test)]
mod reads;
#[cfg(test)]
mod records;
#[cfg(test)]
mod scripts;
#[cfg(test)]
mod seeks;
#[cfg(test)]
mod slicing;
#[cfg(test)]
mod texts;
#[cfg(test)]
mod writes;
