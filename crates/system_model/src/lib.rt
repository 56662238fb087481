//! A system in memory that keeps every promise of a system of files, and what its calls can make of an empty folder.
#![tactic(auto)]

ghost use Rattle.std.specs.Prelude.{List, true};
ghost use Rattle.store_files.specs.Disk.{Change, replay, IsSound};
ghost use Rattle.system_model.specs.Made.{empty, AreMade};

pub mod content;
pub mod mem_system;

pub use content::Step;
pub use mem_system::{MemSystem, MemSystemFile};

/// What holds of a folder at every moment, by `SystemFiles`, holds of an empty one whatever calls make of it. So it is
/// no more than a premise on the folder that was there at first.
pub fn changes_are_possible()
    ensures { (changes : List Change) → AreMade changes → IsSound true (replay changes empty) }
{}
