//! What all commands of the program share: how they fail and end, their arguments and words, the files that they read
//! and write, how they check a store, and how far they are.
#![tactic(auto)]

pub mod arguments;
pub mod byte_size;
mod causes;
pub mod command_words;
pub mod document_output;
pub mod failure;
pub mod findings;
pub mod input_files;
pub mod input_progress;
pub mod listed_numbers;
pub mod log_refusal;
pub mod named_numbers;
pub mod numbered;
pub mod output_path;
pub mod progress;
pub mod status;
pub mod store_check;
pub mod store_file;
pub mod store_output;
pub mod verify_output;
pub mod word_files;
