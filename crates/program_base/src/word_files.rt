//! Words that are in files, one on each line.

ghost use Rattle.std.specs.Prelude.{◌≡◌, ◌++◌, map, OnOk};
ghost use Rattle.program_base.specs.WordLists.{full_lines, words_of};

use crate::failure::{Failure, FailureCause, with_file};
use std::alloc::{AllocError, Global};
use std::{fs, io};
use store_commands::number_range::range_of;

/// The text of a file, or of the standard input for `-`.
pub fn text_in(rt: &HostRuntime, path: &str) -> Result<String, Failure> {
    let text = if path == "-" {
        io::read_to_string(rt.alloc(), rt.reader())
    } else {
        fs::read_to_string(rt, path)
    };
    with_file(rt.alloc(), path, text)
}

// Fails if a part of a word between commas names no range.
fn check_ranges(alloc: Global, word: &str) -> Result<(), FailureCause> {
    if word.is_empty() {
        return Ok(());
    }
    for part in word.split(',') {
        let _range = range_of(alloc, part)?;
    }
    Ok(())
}

/// A word that names documents, or the text of the file that `@FILE` names.
#[derive(Drop)]
pub struct IdWord {
    text: String,
    is_list: bool,
}

impl IdWord {
    /// The word, or the text of its file.
    ///
    /// # Errors
    ///
    /// That a part of a word names no range, and that the file can't be read.
    pub fn read(rt: &HostRuntime, word: &str) -> Result<IdWord, Failure> {
        let (text, is_list) = match word.strip_prefix('@') {
            Some(path) => (text_in(rt, path)?, true),
            None => (String::from_str(rt.alloc(), word)?, false),
        };
        for line in text.as_str().lines() {
            check_ranges(rt.alloc(), line)?;
        }
        Ok(IdWord { text, is_list })
    }

    /// Adds the words that it has: itself, or the lines of the file that are not empty.
    pub fn add_to<'a>(&'a self, words: &mut Vec<&'a str>) -> Result<(), AllocError>
        ensures { OnOk result (map (λ word. word.now) words.new.items
            ≡ map (λ word. word.now) words.old.items ++ words_of self.now) }
    {
        if self.is_list {
            return add_lines(words, self.text.as_str());
        }
        words.push(self.text.as_str())?;
        Ok(())
    }
}

/// The words, or the texts of their files.
pub fn id_words(rt: &HostRuntime, words: &[&str]) -> Result<Vec<IdWord>, Failure> {
    let mut read = Vec::new(rt.alloc());
    for word in words {
        read.push(IdWord::read(rt, word)?)?;
    }
    Ok(read)
}

/// Adds the lines of a text that are not empty.
pub fn add_lines<'a>(lines: &mut Vec<&'a str>, text: &'a str) -> Result<(), AllocError>
    ensures { OnOk result (map (λ line. line.now) lines.new.items
        ≡ map (λ line. line.now) lines.old.items ++ full_lines text.now) }
{
    for line in text.lines() {
        if !line.is_empty() {
            lines.push(line)?;
        }
    }
    Ok(())
}

/// All the words that these have.
pub fn words_in<'a>(alloc: Global, read: &'a [IdWord]) -> Result<Vec<&'a str>, AllocError> {
    let mut words = Vec::new(alloc);
    for word in read {
        word.add_to(&mut words)?;
    }
    Ok(words)
}
