//! The program's commands over stores, a module each, with their words.
#![tactic(auto)]

pub mod append;
pub mod cat;
pub mod export;
pub mod get;
pub mod inspect;
mod inspect_words;
pub mod merge;
pub mod pack;
pub mod round_trip;
pub mod stat;
mod stat_output;
pub mod verify;
