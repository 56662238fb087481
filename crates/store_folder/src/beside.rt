//! The file beside a name, which a writer writes that knows of outputs alone, in a folder that may be lent.

ghost use Rattle.std.specs.Prelude.{◌≡◌, ◌++◌, ◌≤◌, ◌<◌, ℕ, List, [], None, Some, IsTrue, IfOk, IfErr, OnOk, OnErr};
ghost use Rattle.std.specs.Prelude.{IfSome, length, string_bytes};
ghost use Rattle.store_base.specs.Counts.{HasRisen};
ghost use Rattle.store_base.specs.Outputs.{never_terminated};
ghost use Rattle.store_folder.specs.Beside.{Standing, standing, no_folder, Follows, IsFault};

use crate::folder::Folder;
use crate::sent::{Piece, Sent};
use std::alloc::Global;
use std::io;
use std::marker::{Brand, Model, PhantomData};
use store_base::{TerminatingWrite, WriteFault};

// How many bytes are held before they are passed to the folder. A write of as many is passed on as it is.
const BUFFER_SIZE: usize = 1 << 16;

/// Which file of which folder is written, as a mark of a type: what was known of the folder at first, and the name.
pub trait Origin {
    ghost first: { Standing };

    ghost name: { List ℕ };
}

impl Origin for Brand {
    ghost first = { no_folder };

    ghost name = { [] };
}

/// The bytes that wait to be passed to a file.
#[derive(Drop)]
pub(crate) struct Waiting {
    pub(crate) buffer: Vec<u8>,
    // What was passed to it. It takes no memory: only clauses read it.
    pub(crate) sent: Sent,
    // How many bytes were passed to it, or wait.
    pub(crate) num_bytes: u64,
}

// Passes bytes to the file of this name.
fn pass_on<F: Folder>(folder: &mut F, name: &str, bytes: &[u8], sent: &mut Sent) -> io::Result<()>
    requires { IsTrue F.honest → F.seen folder.old name.now ≡ Some sent.old.bytes }
    ensures sent { OnOk result (sent.new.bytes ≡ sent.old.bytes ++ bytes.now) }
    ensures kept { OnErr result (sent.new.bytes ≡ sent.old.bytes) }
    ensures file { IsTrue F.honest → OnOk result (F.seen folder.new name.now ≡ Some sent.new.bytes) }
    ensures follows { Follows (IsTrue F.honest) name.now (standing F.seen F.may_hold F.may_leave F.moment F.left_since
        F.entry_kept F.trusted F.handle F.failures folder.old)
        (standing F.seen F.may_hold F.may_leave F.moment F.left_since
        F.entry_kept F.trusted F.handle F.failures folder.new) }
    ensures trust { IsTrue F.honest → F.trusted folder.old name.now → F.trusted folder.new name.now }
    ensures fault { OnErr result (HasRisen (F.failures folder.old) (F.failures folder.new)) }
{
    folder.append(name, bytes)?;
    *sent = sent.and(&Piece { bytes });
    Ok(())
}

impl Waiting {
    /// None yet.
    pub(crate) fn new(alloc: Global) -> Waiting
        ensures empty { result.buffer.items ≡ [] }
        ensures sent { result.sent.bytes ≡ [] }
        ensures count { result.num_bytes ≡ 0 }
    {
        Waiting {
            buffer: Vec::new(alloc),
            sent: Sent::new(),
            num_bytes: 0,
        }
    }

    /// Passes what waits to the file.
    pub(crate) fn hand_over<F: Folder>(&mut self, folder: &mut F, name: &str) -> io::Result<()>
        requires { IsTrue F.honest → F.seen folder.old name.now ≡ Some self.old.sent.bytes }
        ensures empty { OnOk result (self.new.buffer.items ≡ []) }
        ensures count { self.new.num_bytes ≡ self.old.num_bytes }
        ensures content { self.new.sent.bytes ++ self.new.buffer.items
            ≡ self.old.sent.bytes ++ self.old.buffer.items }
        ensures file { IsTrue F.honest → OnOk result (F.seen folder.new name.now ≡ Some self.new.sent.bytes) }
        ensures follows { Follows (IsTrue F.honest) name.now
            (standing F.seen F.may_hold F.may_leave F.moment F.left_since
            F.entry_kept F.trusted F.handle F.failures folder.old)
            (standing F.seen F.may_hold F.may_leave F.moment F.left_since
            F.entry_kept F.trusted F.handle F.failures folder.new) }
        ensures trust { IsTrue F.honest → F.trusted folder.old name.now → F.trusted folder.new name.now }
        ensures fault { OnErr result (HasRisen (F.failures folder.old) (F.failures folder.new)) }
    {
        pass_on(folder, name, &self.buffer, &mut self.sent)?;
        self.buffer.clear();
        Ok(())
    }

    /// Passes bytes to the file, or holds them until there are enough of them.
    #[inline]
    pub(crate) fn take<F: Folder>(
        &mut self,
        folder: &mut F,
        name: &str,
        bytes: &[u8],
    ) -> io::Result<()>
        requires there { IsTrue F.honest → F.seen folder.old name.now ≡ Some self.old.sent.bytes }
        requires count { self.old.num_bytes ≡ length (self.old.sent.bytes ++ self.old.buffer.items) }
        ensures content { OnOk result (self.new.sent.bytes ++ self.new.buffer.items
            ≡ (self.old.sent.bytes ++ self.old.buffer.items) ++ bytes.now) }
        ensures count { self.new.num_bytes ≡ length (self.new.sent.bytes ++ self.new.buffer.items) }
        ensures file { IsTrue F.honest → OnOk result (F.seen folder.new name.now ≡ Some self.new.sent.bytes) }
        ensures follows { Follows (IsTrue F.honest) name.now
            (standing F.seen F.may_hold F.may_leave F.moment F.left_since
            F.entry_kept F.trusted F.handle F.failures folder.old)
            (standing F.seen F.may_hold F.may_leave F.moment F.left_since
            F.entry_kept F.trusted F.handle F.failures folder.new) }
        ensures trust { IsTrue F.honest → F.trusted folder.old name.now → F.trusted folder.new name.now }
        ensures few { OnOk result (length self.new.buffer.items < 65536) }
        ensures fault { IfErr result (IsFault (F.failures folder.old) (F.failures folder.new)) }
    {
        // No file has as many bytes.
        let Some(num_bytes) = self.num_bytes.checked_add(bytes.len() as u64) else {
            return Err(io::ErrorKind::OutOfMemory.into());
        };
        if bytes.len() >= BUFFER_SIZE {
            if !self.buffer.is_empty() {
                self.hand_over(folder, name)?;
            }
            pass_on(folder, name, bytes, &mut self.sent)?;
            self.num_bytes = num_bytes;
            return Ok(());
        }
        self.buffer.extend_from_slice(bytes)?;
        self.num_bytes = num_bytes;
        if self.buffer.len() < BUFFER_SIZE {
            return Ok(());
        }
        self.hand_over(folder, name)
    }
}

/// A file that is written in a folder, as an output of a writer. Its end is only noted: `finish` passes on what waits,
/// and gives the folder back. After a call that failed it refuses every write.
#[derive(Drop)]
pub struct Beside<F: Folder, K: Origin> {
    folder: F,
    name: String,
    waiting: Waiting,
    ends: u64,
    end: Option<u64>,
    failures: u64,
    error: Option<io::Error>,
    of: PhantomData<K>,
}

/// Clauses see what was written, the ends that were noted, and how often a call failed.
impl<F: Folder, K: Origin> Model for Beside<F, K> {
    ghost use Rattle.std.specs.Prelude.{◌≡◌, ◌++◌, length, None, Some, IsTrue, IfSome, string_bytes};
    ghost use Rattle.store_base.specs.Outputs.{Output};
    ghost use Rattle.store_folder.specs.Beside.{standing, Follows, IsFault};

    ghost Value = { Output };

    ghost view = { λ s. record {
      content = s.waiting.sent.bytes ++ s.waiting.buffer.items;
      termination = record { calls = s.ends; at = s.end };
      failures = s.failures;
    } };

    ghost invariant = { λ s. (string_bytes s.name ≡ K.name)
        × (s.waiting.num_bytes ≡ length (s.waiting.sent.bytes ++ s.waiting.buffer.items))
        × Follows (IsTrue F.honest) K.name K.first (standing F.seen F.may_hold F.may_leave F.moment F.left_since
        F.entry_kept F.trusted F.handle F.failures s.folder)
        × IfSome s.error (IsFault K.first.failures (F.failures s.folder))
        × (IsTrue F.honest → s.error ≡ None → F.seen s.folder K.name ≡ Some s.waiting.sent.bytes)
        × (IsTrue F.honest → s.error ≡ None → F.trusted s.folder K.name) };
}

impl<F: Folder, K: Origin> Beside<F, K> {
    /// An output of nothing yet, for a file of this name, which is made or replaced.
    pub fn create(alloc: Global, folder: F, name: String) -> Result<Beside<F, K>, (io::Error, F)>
        requires first { Follows (IsTrue F.honest) K.name K.first
            (standing F.seen F.may_hold F.may_leave F.moment F.left_since
            F.entry_kept F.trusted F.handle F.failures folder) }
        requires name { K.name ≡ string_bytes name }
        ensures content { IfOk result (λ b. b.content ≡ []) }
        ensures termination { IfOk result (λ b. b.termination ≡ never_terminated) }
        ensures failures { IfOk result (λ b. b.failures ≡ 0) }
        ensures follows { IfErr result (λ e. Follows (IsTrue F.honest) K.name K.first
            (standing F.seen F.may_hold F.may_leave F.moment F.left_since
            F.entry_kept F.trusted F.handle F.failures e.1)) }
        ensures fault { IfErr result (λ e. IsFault K.first.failures (F.failures e.1) e.0) }
    {
        let mut folder = folder;
        if let Err(error) = folder.create(name.as_str()) {
            return Err((error, folder));
        }
        Ok(Beside {
            folder,
            name,
            waiting: Waiting::new(alloc),
            ends: 0,
            end: None,
            failures: 0,
            error: None,
            of: PhantomData,
        })
    }

    /// How many bytes were written.
    pub fn num_bytes(&self) -> u64
        ensures { result ≡ length self.now.content }
    {
        self.waiting.num_bytes
    }

    /// Gives the folder back, in which the file is whole after an Ok. No sync of it has failed then.
    pub fn finish(self) -> Result<F, (io::Error, F)>
        ensures file { IsTrue F.honest → IfOk result (λ f. F.seen f K.name ≡ Some self.content) }
        ensures trusted { IsTrue F.honest → IfOk result (λ f. F.trusted f K.name) }
        ensures follows { IfOk result (λ f. Follows (IsTrue F.honest) K.name K.first
            (standing F.seen F.may_hold F.may_leave F.moment F.left_since
            F.entry_kept F.trusted F.handle F.failures f)) }
        ensures follows_err { IfErr result (λ e. Follows (IsTrue F.honest) K.name K.first
            (standing F.seen F.may_hold F.may_leave F.moment F.left_since
            F.entry_kept F.trusted F.handle F.failures e.1)) }
        ensures fault { IfErr result (λ e. IsFault K.first.failures (F.failures e.1) e.0) }
    {
        let Beside {
            mut folder,
            name,
            mut waiting,
            error,
            ..
        } = self;
        if let Some(error) = error {
            return Err((error, folder));
        }
        match waiting.hand_over(&mut folder, name.as_str()) {
            Ok(()) => Ok(folder),
            Err(error) => Err((error, folder)),
        }
    }

    /// Gives the folder back, and the error of the call that failed, if one did.
    pub fn give_up(self) -> (F, Option<io::Error>)
        ensures follows { Follows (IsTrue F.honest) K.name K.first
            (standing F.seen F.may_hold F.may_leave F.moment F.left_since
            F.entry_kept F.trusted F.handle F.failures result.0) }
        ensures fault { IfSome result.1 (IsFault K.first.failures (F.failures result.0)) }
    {
        let Beside { folder, error, .. } = self;
        (folder, error)
    }
}

impl<F: Folder, K: Origin> TerminatingWrite for Beside<F, K> {
    ghost content = { λ b. b.content };

    ghost termination = { λ b. b.termination };

    ghost failures = { λ b. b.failures };

    fn write_all(&mut self, bytes: &[u8]) -> Result<(), WriteFault> {
        if self.error.is_some() {
            self.failures = self.failures.saturating_add(1);
            return Err(WriteFault);
        }
        if let Err(error) = self
            .waiting
            .take(&mut self.folder, self.name.as_str(), bytes)
        {
            self.error = Some(error);
            self.failures = self.failures.saturating_add(1);
            return Err(WriteFault);
        }
        Ok(())
    }

    fn terminate(&mut self) -> Result<(), WriteFault> {
        self.ends = self.ends.saturating_add(1);
        self.end = Some(self.waiting.num_bytes);
        Ok(())
    }
}
