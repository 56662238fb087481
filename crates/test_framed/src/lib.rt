//! Documents of inputs in memory, which are packed over a system in memory and printed again.
#![tactic(auto)]

mod inputs;
#[cfg(test)]
mod logs;
mod passing;
#[cfg(test)]
mod stores;
#[cfg(test)]
mod tests;

pub use inputs::MemInputs;
pub use passing::passed;
