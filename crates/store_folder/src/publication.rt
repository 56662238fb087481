//! An output that takes its name only once it is whole.

ghost use Rattle.std.specs.Prelude.{◌≡◌, ◌≢◌, ◌++◌, ◌≤◌, ℕ, List, [], IsTrue, IsSome, IfOk, IfErr, OnOk, OnErr};
ghost use Rattle.std.specs.Prelude.{IsErr, is_ok, length, Some, string_bytes, unwrap_or};
ghost use Rattle.store_base.specs.Counts.{HasRisen};
ghost use Rattle.store_base.specs.Outputs.{never_terminated, terminated_once};
ghost use Rattle.store_folder.specs.Moments.{LeavesOnly};
ghost use Rattle.store_folder.specs.Publishing.{part, IsUntouched, IsSafe, IsSameOutput, HasPassedOn};

use crate::beside::Waiting;
use crate::folder::Folder;
use crate::publishing::publish;
use std::alloc::Global;
use std::io;
use std::marker::Model;
use std::snapshot::Snapshot;
use store_base::{TerminatingWrite, WriteFault};

/// How far an output has come.
#[derive(Clone, Copy, PartialEq, Eq)]
pub(crate) enum Stage {
    /// It takes bytes.
    Open,
    /// It has its name.
    Ended,
    /// A call failed: what the file beside holds is not known.
    Failed,
}

/// An output that becomes the file of a name in a folder. Its bytes go to a file beside that name. A `terminate` that
/// returns Ok has published that file. After its end, and after a failed call of the folder, it refuses every call.
#[derive(Drop)]
pub struct Publication<F: Folder> {
    folder: F,
    name: String,
    beside: String,
    waiting: Waiting,
    // The folder as `create` got it. It takes no memory: only clauses read it.
    first: Snapshot<F>,
    stage: Stage,
    ends: u64,
    failures: u64,
    last_error: Option<io::Error>,
}

/// Clauses see what was written, its ends, how often a call failed, the two names, and the folder at first and now.
impl<F: Folder> Model for Publication<F> {
    ghost use Rattle.store_folder.specs.Publishing.{Published};
    ghost use Rattle.std.specs.Prelude.{◌≡◌, ◌≢◌, ◌++◌, length, IsTrue, string_bytes};
    ghost use Rattle.store_folder.specs.Moments.{LeavesOnly};
    ghost use Rattle.store_folder.specs.Publishing.{IsUntouched};
    ghost use Rattle.store_folder.specs.Beside.{standing};
    ghost use Rattle.store_folder.specs.Stages.{end_of, IsSound};

    ghost Value = { Published F };

    ghost view = { λ s. record {
      content = s.waiting.sent.bytes ++ s.waiting.buffer.items;
      termination = record {
        calls = s.ends;
        at = end_of s.stage (s.waiting.sent.bytes ++ s.waiting.buffer.items);
      };
      failures = s.failures;
      beside = string_bytes s.beside;
      name = string_bytes s.name;
      first = s.first.value;
      folder = s.folder;
    } };

    ghost invariant = { λ s. (string_bytes s.beside ≢ string_bytes s.name) × (IsTrue F.honest
        → IsSound (standing F.seen F.may_hold F.may_leave F.moment F.left_since
        F.entry_kept F.trusted F.handle F.failures) s.stage s.first.value s.folder
        (string_bytes s.beside) (string_bytes s.name) s.waiting.sent.bytes
        (s.waiting.sent.bytes ++ s.waiting.buffer.items)) × (IsTrue F.honest → s.ends ≡ 0
        → LeavesOnly F.moment F.left_since s.first.value s.folder
        (IsUntouched (F.may_leave s.first.value) (string_bytes s.beside)))
        × (s.waiting.num_bytes ≡ length (s.waiting.sent.bytes ++ s.waiting.buffer.items)) };
}

// The name, and the name of the file beside.
fn names(alloc: Global, name: &str) -> io::Result<(String, String)>
    ensures name { IfOk result (λ both. string_bytes both.0 ≡ name.now) }
    ensures beside { IfOk result (λ both. string_bytes both.1 ≡ name.now ++ part) }
{
    let beside = format!(in alloc; "{name}.part")?;
    Ok((String::from_str(alloc, name)?, beside))
}

impl<F: Folder> Publication<F> {
    /// An output of nothing yet, for a file of this name in the folder. The file beside has `.part` after the name: one
    /// that a crash left there is taken over. An error returns the folder.
    pub fn create(alloc: Global, folder: F, name: &str) -> Result<Publication<F>, (io::Error, F)>
        ensures content { IfOk result (λ p. p.content ≡ []) }
        ensures termination { IfOk result (λ p. p.termination ≡ never_terminated) }
        ensures failures { IfOk result (λ p. p.failures ≡ 0) }
        ensures name { IfOk result (λ p. p.name ≡ name.now) }
        ensures beside { IfOk result (λ p. p.beside ≡ name.now ++ part) }
        ensures first { IfOk result (λ p. p.first ≡ folder) }

        // A crash leaves what it could leave before, except in the file beside.
        ensures untouched { IsTrue F.honest → IfErr result (λ e. LeavesOnly F.moment F.left_since folder e.1
            (IsUntouched (F.may_leave folder) (name.now ++ part))) }
    {
        let first = Snapshot::of(&folder);
        let mut folder = folder;
        let (name, beside) = match names(alloc, name) {
            Ok(names) => names,
            Err(error) => return Err((error, folder)),
        };
        if let Err(error) = folder.create(beside.as_str()) {
            return Err((error, folder));
        }
        Ok(Publication {
            folder,
            name,
            beside,
            waiting: Waiting::new(alloc),
            first,
            stage: Stage::Open,
            ends: 0,
            failures: 0,
            last_error: None,
        })
    }

    /// The error of the folder's call that failed.
    pub fn last_error(&self) -> Option<io::Error> {
        self.last_error
    }

    /// How many bytes were written.
    pub fn num_bytes(&self) -> u64
        ensures { result ≡ length self.now.content }
    {
        self.waiting.num_bytes
    }

    /// The folder.
    pub fn folder(&self) -> &F
        ensures folder { result.now ≡ self.now.folder }

        // What holds of each output at each moment.
        ensures safe { IsTrue F.honest → IsSafe F.may_leave F.moment F.left_since self.now }
    {
        &self.folder
    }

    /// The folder, without the output.
    pub fn into_folder(self) -> F
        ensures folder { result ≡ self.folder }
        ensures safe { IsTrue F.honest → IsSafe F.may_leave F.moment F.left_since self }
    {
        let Publication { folder, .. } = self;
        folder
    }

    // Counts a failed call.
    fn refuse(&mut self) -> Result<(), WriteFault>
        ensures fault { IsErr result }
        ensures content { self.new.content ≡ self.old.content }
        ensures termination { self.new.termination ≡ self.old.termination }
        ensures count { HasRisen self.old.failures self.new.failures }
        ensures folder { self.new.folder ≡ self.old.folder }
        ensures same { IsSameOutput self.old self.new }
    {
        self.failures = self.failures.saturating_add(1);
        Err(WriteFault)
    }

    // Keeps the error of a call of the folder. After it the output refuses every call.
    fn fail(&mut self, error: io::Error) -> Result<(), WriteFault>
        ensures fault { IsErr result }
        ensures content { self.new.content ≡ self.old.content }
        ensures termination { self.new.termination ≡ self.old.termination }
        ensures count { HasRisen self.old.failures self.new.failures }
        ensures folder { self.new.folder ≡ self.old.folder }
        ensures same { IsSameOutput self.old self.new }
    {
        self.last_error = Some(error);
        if self.stage == Stage::Open {
            self.stage = Stage::Failed;
        }
        self.refuse()
    }
}

impl<F: Folder> TerminatingWrite for Publication<F> {
    ghost content = { λ p. p.content };

    ghost termination = { λ p. p.termination };

    ghost failures = { λ p. p.failures };

    fn write_all(&mut self, bytes: &[u8]) -> Result<(), WriteFault>
        ensures ok { OnOk result (self.new.content ≡ self.old.content ++ bytes.now) }
        ensures termination { self.new.termination ≡ self.old.termination }
        ensures count { self.old.failures ≤ self.new.failures }
        ensures fault { OnErr result (HasRisen self.old.failures self.new.failures) }

        // Beside what every output promises: an Ok call leaves the count of failures, and it is the output of one file,
        // to which all bytes but a short end were passed on.
        ensures steady { OnOk result (self.new.failures ≡ self.old.failures) }
        ensures same { IsSameOutput self.old self.new }
        ensures passed_on { IsTrue F.honest → OnOk result (HasPassedOn F.seen self.new) }
    {
        if self.stage != Stage::Open {
            return self.refuse();
        }
        if let Err(error) = self
            .waiting
            .take(&mut self.folder, self.beside.as_str(), bytes)
        {
            self.stage = Stage::Failed;
            return self.fail(error);
        }
        Ok(())
    }

    fn terminate(&mut self) -> Result<(), WriteFault>
        ensures termination { self.new.termination
            ≡ terminated_once (is_ok result) self.old.content self.old.termination }
        ensures content { self.new.content ≡ self.old.content }
        ensures count { self.old.failures ≤ self.new.failures }
        ensures fault { OnErr result (HasRisen self.old.failures self.new.failures) }

        // Beside what every output promises: an Ok call leaves the count of failures, and it is the output of one file;
        // a call that fails leaves the content, too.
        ensures steady { OnOk result (self.new.failures ≡ self.old.failures) }
        ensures same { IsSameOutput self.old self.new }
    {
        self.ends = self.ends.saturating_add(1);
        if self.stage != Stage::Open {
            return self.refuse();
        }
        if let Err(error) = self
            .waiting
            .hand_over(&mut self.folder, self.beside.as_str())
        {
            self.stage = Stage::Failed;
            return self.fail(error);
        }
        let named = publish(&mut self.folder, self.beside.as_str(), self.name.as_str());
        if let Err(error) = named {
            self.stage = Stage::Failed;
            return self.fail(error);
        }
        self.stage = Stage::Ended;
        Ok(())
    }
}
