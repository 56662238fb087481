//! Laws of logs in folders.

ghost use Rattle.std.specs.Prelude.{IsTrue};
ghost use Rattle.segmented_log.specs.Laws.{FoldersAreOneLog, BlankFoldersAreNoLog, OnlyDropsRemove, EndsLoseNothing};
ghost use Rattle.segmented_log.specs.Laws.{EndsLoseNothingOfNewLogs, OpeningsAreOfProcesses, CallsAreOfProcesses};
ghost use Rattle.segmented_log.specs.Laws.{EachMomentMayBeTheEnd, RestartsAreEnds};

use docstore::laws::stores_are_apart;
use store_folder::Folder;

/// A folder is one log at most: it has one first number and one list of slots.
pub fn folders_are_one_log()
    ensures { FoldersAreOneLog }
{
    stores_are_apart();
}

/// A folder that has no file of a log is no log.
pub fn blank_folders_are_no_log()
    ensures { BlankFoldersAreNoLog }
{}

/// A list of calls that drops nothing leaves every slot, under its number: those from before, and then the records of
/// its batches.
pub fn only_drops_remove()
    ensures { OnlyDropsRemove }
{}

/// What a crash leaves of `open_and_call`, or of `call_all` after it, is left of a process whose calls before this one
/// returned Ok. The process may end at each moment of these calls, alone or by a crash of the machine.
pub fn calls_are_of_processes<F: Folder>()
    ensures openings { OpeningsAreOfProcesses F.seen F.may_leave }
    ensures calls { CallsAreOfProcesses F.seen F.may_leave }
    ensures moments { EachMomentMayBeTheEnd F.seen F.may_leave F.moment F.left_since }
    ensures restarts { RestartsAreEnds F.seen F.may_leave }
{}

/// Over any number of processes a log keeps its slots, and after them all acknowledged records of each process that
/// opened it, in order, under their numbers, but those that the processes drop. Each process may end at any moment, by
/// a crash of the machine, or alone: killed, or after a call that failed. A folder may be blank at first.
pub fn ends_lose_nothing<F: Folder>()
    ensures kept { IsTrue F.honest → EndsLoseNothing F.seen F.may_leave }
    ensures begun { IsTrue F.honest → EndsLoseNothingOfNewLogs F.seen F.may_leave }
{}
