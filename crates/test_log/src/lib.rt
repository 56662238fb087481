//! Is a log what a crash at any moment leaves of it, and has its tail the bytes of the format's description?
#![tactic(auto)]

#[cfg(test)]
mod bytes;
#[cfg(test)]
mod dice;
#[cfg(test)]
mod failed_calls;
#[cfg(test)]
mod folder_runs;
#[cfg(test)]
mod readers;
#[cfg(test)]
mod system_runs;
#[cfg(test)]
mod torn_files;
#[cfg(test)]
mod torn_logs;
#[cfg(test)]
mod torn_tails;
