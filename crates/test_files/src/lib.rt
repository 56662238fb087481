//! Are outputs and files on disk kept by the system, and do marks say what is so? Are files published, listed and read
//! in folders in memory? The tests on disk make folders of their own, and remove them.
#![tactic(auto)]

#[cfg(test)]
mod folder;
#[cfg(test)]
mod listing;
#[cfg(test)]
mod marks;
#[cfg(test)]
mod outputs;
#[cfg(test)]
mod outputs_in_memory;
#[cfg(test)]
mod publishing;
#[cfg(test)]
mod reading;
#[cfg(test)]
mod system;
